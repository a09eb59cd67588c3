//! Circuits: the nodes of a file's lines.

// The nodes of a text's lines.
ghost use Rattle.std.specs.Prelude.{◌≡◌, [], cond, nat_eq, length, ◌+◌, ◌<◌, ◌≤◌, ◌^◌, IfOk, IfSome, OnOk, None, Some, true};
ghost use Rattle.std.specs.Map.{update};
ghost use Rattle.net_graph.specs.Nets.{IsNet, Stands, widths_of};
ghost use Rattle.btor2_text.specs.Printable.{ArePrintable};
ghost use Rattle.btor2_model.specs.Acceptance.{lines_fault};
ghost use Rattle.btor2_model.specs.Rules.{is_input, is_sort, is_state, rule_of};
ghost use Rattle.btor2_model.specs.Run as run;
ghost use Rattle.btor2_model.specs.SlowRun.{is_constant};
ghost use Rattle.btor2_model.specs.Table.{value_in};
ghost use Rattle.btor2_model.specs.Scope.{id_at, no_lines};
ghost use Rattle.btor2_net.specs.inner.Nodes as numbering;
ghost use Rattle.btor2_net.specs.inner.Values.{AreNodesOf};
ghost use Rattle.btor2_net.specs.inner.Wires.{node_of};

use crate::operators::{one_of, two_of};
use btor2_model::{FormRule, Table, digits_at, id_at, named_constant, number_at, written_constant};
use btor2_text::{Argument, Keyword, Line};
use kw_bits::{Bits, NoMemory};
use net_graph::{Net, NetId, NetOp};
use std::alloc::Global;

/// The nodes of an accepted text's lines.
pub(crate) fn nodes_of(alloc: Global, lines: &[Line]) -> Result<Nodes, NoMemory>
    requires fine { lines_fault no_lines lines.now ≡ None }
    requires forms { ArePrintable lines.now }
    requires inputs { length (run.lines_by_rule is_input lines.now) < 2 ^ 32 }
    requires states { length (run.lines_by_rule is_state lines.now) < 2 ^ 32 }
    ensures { IfOk result (λ n. AreNodesOf lines.now (numbering.numbering_of n) n.net) }
{
    let mut nodes = Nodes::new(alloc, lines.len())?;
    for line in lines {
        nodes.add(line)?;
    }
    Ok(nodes)
}

/// The nodes of the lines so far, and what the next ones need of them.
#[derive(Drop)]
pub(crate) struct Nodes {
    pub(crate) net: Net,
    /// The nodes of values, by the ids of their lines.
    pub(crate) nodes: Table<NetId>,
    /// The widths of sorts.
    sorts: Table<u32>,
    inputs: u32,
    states: u32,
}

impl Nodes {
    /// No lines, with places for that many low ids.
    fn new(alloc: Global, places: usize) -> Result<Nodes, NoMemory>
        ensures nodes { IfOk result (λ n. value_in n.nodes ≡ (λ _. None)) }
        ensures sorts { IfOk result (λ n. value_in n.sorts ≡ (λ _. None)) }
        ensures inputs { IfOk result (λ n. n.inputs ≡ 0) }
        ensures states { IfOk result (λ n. n.states ≡ 0) }
        ensures net { IfOk result (λ n. n.net ≡ []) }
    {
        Ok(Nodes {
            net: Net::new(alloc),
            nodes: Table::new(alloc, places)?,
            sorts: Table::new(alloc, places)?,
            inputs: 0,
            states: 0,
        })
    }

    // Takes the next line.
    fn add(&mut self, line: &Line) -> Result<(), NoMemory>
        requires stands { IfSome (numbering.op_of (numbering.numbering_of self.old) line.now) (Stands (widths_of self.old.net)) }
        requires constant { numbering.HasConstant (numbering.numbering_of self.old) line.now }
        requires few { numbering.IsFew (numbering.numbering_of self.old) line.now }
        ensures line { OnOk result (numbering.AddsLine line.now (numbering.numbering_of self.old) (numbering.numbering_of self.new) self.old.net self.new.net) }
        ensures net { OnOk result (IsNet self.old.net → IsNet self.new.net) }
    {
        self.add_node(line)?;
        self.add_sort(line)?;
        let rule = FormRule::of(line.keyword);
        if rule.is_input() {
            self.inputs += 1;
        }
        if rule.is_state() {
            self.states += 1;
        }
        Ok(())
    }

    // Takes a line's node, if the line has one.
    fn add_node(&mut self, line: &Line) -> Result<(), NoMemory>
        requires stands { IfSome (numbering.op_of (numbering.numbering_of self.old) line.now) (Stands (widths_of self.old.net)) }
        requires constant { numbering.HasConstant (numbering.numbering_of self.old) line.now }
        ensures node { OnOk result (numbering.AddsNode line.now (numbering.numbering_of self.old) (value_in self.new.nodes) self.old.net self.new.net) }
        ensures net { OnOk result (IsNet self.old.net → IsNet self.new.net) }
        ensures sorts { OnOk result (value_in self.new.sorts ≡ value_in self.old.sorts) }
        ensures inputs { OnOk result (self.new.inputs ≡ self.old.inputs) }
        ensures states { OnOk result (self.new.states ≡ self.old.states) }
    {
        if let Some(op) = self.operator(line) {
            let node = self.net.add(op)?;
            self.nodes.insert(line.id, node)?;
        }
        Ok(())
    }

    // Takes the width that a line declares, if it is a sort.
    fn add_sort(&mut self, line: &Line) -> Result<(), NoMemory>
        ensures sorts { OnOk result (value_in self.new.sorts ≡ cond (is_sort (rule_of line.now.keyword)) (update nat_eq (value_in self.old.sorts) line.now.id (Some (numbering.number_at line.now.arguments 1))) (value_in self.old.sorts)) }
        ensures net { OnOk result (self.new.net ≡ self.old.net) }
        ensures nodes { OnOk result (value_in self.new.nodes ≡ value_in self.old.nodes) }
        ensures inputs { OnOk result (self.new.inputs ≡ self.old.inputs) }
        ensures states { OnOk result (self.new.states ≡ self.old.states) }
    {
        if FormRule::of(line.keyword).is_sort() {
            let width = number_at(line.arguments.as_slice(), 1);
            self.sorts.insert(line.id, width)?;
        }
        Ok(())
    }

    // The operator of a line's node, if the line has one.
    fn operator(&self, line: &Line) -> Option<NetOp>
        requires { numbering.HasConstant (numbering.numbering_of self.now) line.now }
        ensures { result ≡ numbering.op_of (numbering.numbering_of self.now) line.now }
    {
        let keyword = line.keyword;
        let given = line.arguments.as_slice();
        match FormRule::of(keyword) {
            FormRule::Input => Some(NetOp::Input(self.inputs, self.sort(given))),
            FormRule::State => Some(NetOp::State(self.states, self.sort(given))),
            FormRule::Constant => Some(NetOp::Const(named(keyword, self.sort(given)))),
            FormRule::Numeral(_) => Some(NetOp::Const(written(keyword, self.sort(given), given))),
            FormRule::Unary | FormRule::Reduced => {
                Some(NetOp::One(one_of(keyword)?, self.node(given, 1)))
            }
            FormRule::Binary | FormRule::Compared | FormRule::Boolean | FormRule::Joined => Some(
                NetOp::Two(two_of(keyword)?, self.node(given, 1), self.node(given, 2)),
            ),
            FormRule::Sliced => Some(NetOp::Slice(
                self.node(given, 1),
                number_at(given, 2),
                number_at(given, 3),
            )),
            FormRule::Extended => Some(extension(
                keyword,
                self.node(given, 1),
                number_at(given, 2),
            )),
            FormRule::Chosen => Some(NetOp::Ite(
                self.node(given, 1),
                self.node(given, 2),
                self.node(given, 3),
            )),
            FormRule::Sort | FormRule::Init | FormRule::Next | FormRule::Output | FormRule::Bad =>
                None,
        }
    }

    // The width of a line's sort.
    fn sort(&self, given: &[Argument]) -> u32
        ensures { result ≡ numbering.sort_at (numbering.numbering_of self.now) given.now }
    {
        self.sorts.get(id_at(given, 0)).unwrap_or(0)
    }

    /// The node of the value that an argument names.
    pub(crate) fn node(&self, given: &[Argument], place: usize) -> NetId
        ensures { result ≡ node_of self.now (id_at given.now place) }
    {
        self.node_of(id_at(given, place))
    }

    /// The node of a value's id.
    pub(crate) fn node_of(&self, id: u64) -> NetId
        ensures { result ≡ node_of self.now id }
    {
        self.nodes.get(id).unwrap_or(0)
    }
}

// The constant that a keyword names.
fn named(keyword: Keyword, width: u32) -> Bits
    requires keyword { is_constant (rule_of keyword) ≡ true }
    requires some { 1 ≤ width }
    requires most { width ≤ 128 }
    ensures { result ≡ run.constant keyword width }
{
    named_constant(keyword, width).unwrap()
}

// The constant that digits write.
fn written(keyword: Keyword, width: u32, given: &[Argument]) -> Bits
    requires some { 1 ≤ width }
    requires most { width ≤ 128 }
    requires fits { numbering.numeral_at keyword given.now < 2 ^ width }
    ensures { result ≡ record { width = width; number = numbering.numeral_at keyword given.now } }
{
    written_constant(keyword, width, digits_at(given, 1)).unwrap()
}

// A node with that many bits more.
fn extension(keyword: Keyword, node: NetId, more: u32) -> NetOp
    ensures { result ≡ numbering.extension keyword node more }
{
    match keyword {
        Keyword::Sext => NetOp::Sext(node, more),
        _ => NetOp::Uext(node, more),
    }
}
