//! Core: the check of a design's parts.

ghost use Rattle.std.specs.Prelude.{◌≤◌, ◌↔◌, All, IsTrue, length, []};
ghost use Rattle.kw_bits.specs.Laws.{HasWidth};
ghost use Rattle.typed_core.specs.Valid.{ActionHasWidth, AreNodes, declarations, IsContinuation, IsHost, IsNode, IsRegister, IsTable, IsValid, IsWidth, TriesNoneTwice};

use crate::action::Action;
use crate::design::{InputDecl, Next, Node, Parts, RegDecl};
use crate::limits::{MAX_INPUTS, MAX_NODES, MAX_REGISTERS, MAX_RULES, MAX_TABLE_IN_WIDTH};
use crate::schedule::tries_none_twice;
use crate::scope::Scope;
use crate::width::width_of;
use kw_bits::{Bits, HostSpec, Sequence, TableSpec};

/// Whether a design of these parts is valid.
pub(crate) fn is_valid(parts: &Parts) -> bool
    ensures { IsTrue result ↔ IsValid parts.now }
{
    are_registers(&parts.regs)
        && are_inputs(&parts.inputs)
        && are_tables(&parts.tables)
        && are_hosts(&parts.hosts)
        && are_rules(parts)
        && is_scheduler(&parts.nodes, parts.rules.len())
}

fn are_registers(regs: &Sequence<RegDecl>) -> bool
    ensures { IsTrue result ↔ (length regs.now ≤ MAX_REGISTERS) × All IsRegister regs.now }
{
    regs.len() <= MAX_REGISTERS && regs.as_slice().iter().all(is_register)
}

fn is_register(decl: &RegDecl) -> bool
    ensures { IsTrue result ↔ IsRegister decl.now }
{
    has_width(&decl.first, decl.width)
}

fn has_width(value: &Bits, width: u32) -> bool
    ensures { IsTrue result ↔ HasWidth value.now width }
{
    value.width() == width
}

fn are_inputs(inputs: &Sequence<InputDecl>) -> bool
    ensures { IsTrue result
        ↔ (length inputs.now ≤ MAX_INPUTS) × All (λ input. IsWidth input.width) inputs.now }
{
    inputs.len() <= MAX_INPUTS && inputs.as_slice().iter().all(|input| is_width(input.width))
}

fn is_width(width: u32) -> bool
    ensures { IsTrue result ↔ IsWidth width }
{
    1 <= width && width <= Bits::MAX_WIDTH
}

fn are_tables(tables: &Sequence<TableSpec>) -> bool
    ensures { IsTrue result ↔ All IsTable tables.now }
{
    tables.as_slice().iter().all(is_table)
}

fn is_table(table: &TableSpec) -> bool
    ensures { IsTrue result ↔ IsTable table.now }
{
    1 <= table.in_width
        && table.in_width <= MAX_TABLE_IN_WIDTH
        && table.entries.len() == 1 << table.in_width
        && have_width(table.entries.as_slice(), table.out_width)
}

fn have_width(values: &[Bits], width: u32) -> bool
    ensures { IsTrue result ↔ All (λ value. HasWidth value width) values.now }
{
    values.iter().all(|value| has_width(value, width))
}

fn are_hosts(hosts: &Sequence<HostSpec>) -> bool
    ensures { IsTrue result ↔ All IsHost hosts.now }
{
    hosts.as_slice().iter().all(is_host)
}

fn is_host(spec: &HostSpec) -> bool
    ensures { IsTrue result ↔ IsHost spec.now }
{
    spec.kind.takes_width(spec.in_width)
}

fn are_rules(parts: &Parts) -> bool
    ensures { IsTrue result
        ↔ (length parts.now.rules ≤ MAX_RULES)
        × All (λ rule. ActionHasWidth (declarations parts.now) rule.body [] 0) parts.now.rules }
{
    let rules = parts.rules.as_slice();
    rules.len() <= MAX_RULES && rules.iter().all(|rule| is_unit(parts, &rule.body))
}

// Whether a rule's body is typed and has no value.
fn is_unit(parts: &Parts, body: &Action) -> bool
    ensures { IsTrue result ↔ ActionHasWidth (declarations parts.now) body.now [] 0 }
{
    width_of(parts, body, &Scope::empty()) == Some(0)
}

fn is_scheduler(nodes: &Sequence<Node>, rules: usize) -> bool
    ensures { IsTrue result
        ↔ (length nodes.now ≤ MAX_NODES) × AreNodes rules nodes.now × TriesNoneTwice nodes.now }
{
    let nodes = nodes.as_slice();
    nodes.len() <= MAX_NODES && are_nodes(nodes, rules) && tries_none_twice(nodes, rules)
}

fn are_nodes(nodes: &[Node], rules: usize) -> bool
    ensures { IsTrue result ↔ AreNodes rules nodes.now }
{
    nodes
        .iter()
        .enumerate()
        .all(|(number, node)| is_node(node, number, nodes.len(), rules))
}

fn is_node(node: &Node, number: usize, nodes: usize, rules: usize) -> bool
    ensures { IsTrue result ↔ IsNode rules nodes number node.now }
{
    (node.rule as usize) < rules
        && is_continuation(node.yes, number, nodes)
        && is_continuation(node.no, number, nodes)
}

fn is_continuation(next: Next, number: usize, nodes: usize) -> bool
    ensures { IsTrue result ↔ IsContinuation nodes number next }
{
    match next {
        Next::Node(to) => number < to as usize && (to as usize) < nodes,
        Next::End => true,
    }
}
