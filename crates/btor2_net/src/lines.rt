//! Circuits: the lines of a circuit.

ghost use Rattle.std.specs.Prelude.{◌≡◌, ◌∷◌, ◌++◌, ◌<◌, ◌^◌, [], ℕ, List, IfOk, OnOk, length};
ghost use Rattle.net_graph.specs.Nets.{widths_of};
ghost use Rattle.circuit_eval.specs.Tidy.{IsTidy};
ghost use Rattle.btor2_model.specs.Acceptance.{IsAccepted};
ghost use Rattle.btor2_net.specs.inner.PageFields.{page_of};
ghost use Rattle.btor2_net.specs.Layout.{AreLaidOut};
ghost use Rattle.btor2_net.specs.Pages as pages;
ghost use Rattle.btor2_net.specs.TidyLines.{AreTidy};
ghost use Rattle.btor2_net.specs.Translations.{AreCounted, GivesOutputs, HasLines, HasTokens, RunsAs};

use crate::keywords::{keyword_of_one, keyword_of_two};
use crate::page::Page;
use btor2_text::{Argument, Keyword, Lines};
use circuit_eval::{Circuit, InputWire, OutputWire, StateWire};
use kw_bits::{NoMemory, Sequence, Text};
use net_graph::{Net, NetId, NetOp};
use std::alloc::Global;

/// The lines that a circuit is written as: an accepted text, laid out, that has the circuit's names, widths and run, and is
/// as tidy as the circuit.
pub fn to_lines(alloc: Global, circuit: &Circuit) -> Result<Lines, NoMemory>
    requires names { HasTokens circuit.now }
    ensures lines { IfOk result (λ lines. lines ≡ pages.lines_of circuit.now) }
    ensures accepted { IfOk result IsAccepted }
    ensures names { IfOk result (λ lines. HasLines lines circuit.now) }
    ensures run { IfOk result (λ lines. RunsAs lines circuit.now) }
    ensures outputs { IfOk result (λ lines. GivesOutputs lines circuit.now) }
    ensures ids { IfOk result AreCounted }
    ensures layout { IfOk result AreLaidOut }
    ensures tidy { IfOk result (λ lines. IsTidy circuit.now → AreTidy lines) }
{
    let states = circuit.states.as_slice();
    let inputs = circuit.inputs.as_slice();
    let outputs = circuit.outputs.as_slice();
    wires_lines(alloc, &circuit.net, states, inputs, outputs)
}

// The ids that the wires of a circuit have on a page.
#[derive(Drop)]
struct Ids {
    states: Vec<u64>,
    inputs: Vec<u64>,
    // As far as the nodes are there.
    nodes: Vec<u64>,
}

// The lines of a circuit's parts.
#[tactic(auto, unfolding(crate::specs::Pages::lines_of))]
fn wires_lines(
    alloc: Global,
    net: &Net,
    states: &[StateWire],
    inputs: &[InputWire],
    outputs: &[OutputWire],
) -> Result<Lines, NoMemory>
    ensures lines { IfOk result (λ lines. lines ≡ pages.lines_of (record { net = net.now; states = states.now; inputs = inputs.now; outputs = outputs.now })) }
    ensures few { IfOk result (λ lines. length lines < 2 ^ 64) }
{
    let mut page = Page::new(alloc)?;
    let mut ids = Ids {
        states: add_states(alloc, &mut page, states)?,
        inputs: add_inputs(alloc, &mut page, inputs)?,
        nodes: Vec::new(alloc),
    };
    add_nodes(alloc, &mut page, net, &mut ids)?;
    add_nexts(alloc, &mut page, states, &ids)?;
    add_outputs(alloc, &mut page, outputs, &ids.nodes)?;
    Ok(page.into_lines())
}

// Adds states, whose ids it gives.
fn add_states(alloc: Global, page: &mut Page, wires: &[StateWire]) -> Result<Vec<u64>, NoMemory>
    ensures { IfOk result (λ ids. record { page = page_of page.new; ids = ids.items } ≡ pages.with_states (record { page = page_of page.old; ids = [] }) wires.now) }
{
    let mut ids = Vec::new(alloc);
    for wire in wires {
        let id = add_state(alloc, page, wire)?;
        ids.push(id)?;
    }
    Ok(ids)
}

// Adds a state between its first value and its `init`.
fn add_state(alloc: Global, page: &mut Page, wire: &StateWire) -> Result<u64, NoMemory>
    ensures { IfOk result (λ id. (ids : List ℕ) → record { page = page_of page.new; ids = ids ++ id ∷ [] } ≡ pages.with_state (record { page = page_of page.old; ids = ids }) wire.now) }
{
    let first = page.add_constant(alloc, wire.first)?;
    let name = Text::from_slice(alloc, wire.name.as_slice())?;
    let state = page.add(alloc, wire.width, Keyword::State, &[], &[], Some(name))?;
    page.add(alloc, wire.width, Keyword::Init, &[state, first], &[], None)?;
    Ok(state)
}

// Adds inputs, whose ids it gives.
fn add_inputs(alloc: Global, page: &mut Page, wires: &[InputWire]) -> Result<Vec<u64>, NoMemory>
    ensures { IfOk result (λ ids. record { page = page_of page.new; ids = ids.items } ≡ pages.with_inputs (record { page = page_of page.old; ids = [] }) wires.now) }
{
    let mut ids = Vec::new(alloc);
    for wire in wires {
        let name = Text::from_slice(alloc, wire.name.as_slice())?;
        let id = page.add(alloc, wire.width, Keyword::Input, &[], &[], Some(name))?;
        ids.push(id)?;
    }
    Ok(ids)
}

// Adds a line for each node that is a constant or an operator, and the ids of all nodes.
fn add_nodes(alloc: Global, page: &mut Page, net: &Net, ids: &mut Ids) -> Result<(), NoMemory>
    requires { ids.old.nodes.items ≡ [] }
    ensures nodes { OnOk result (record { page = page_of page.new; ids = ids.new.nodes.items } ≡ pages.with_nodes ids.old.inputs.items ids.old.states.items (widths_of net.now) (record { page = page_of page.old; ids = [] }) net.now) }
    ensures states { ids.new.states ≡ ids.old.states }
{
    for (node, op) in net.ops().iter().enumerate() {
        let width = net.width(node as NetId);
        let id = add_node(alloc, page, width, op, ids)?;
        ids.nodes.push(id)?;
    }
    Ok(())
}

// The id of a node after nodes of these ids. A constant or an operator is a line, which is added.
fn add_node(
    alloc: Global,
    page: &mut Page,
    width: u32,
    op: &NetOp,
    ids: &Ids,
) -> Result<u64, NoMemory>
    ensures { IfOk result (λ id. record { page = page_of page.new; ids = ids.now.nodes.items ++ id ∷ [] } ≡ pages.with_node ids.now.inputs.items ids.now.states.items (record { page = page_of page.old; ids = ids.now.nodes.items }) width op.now) }
{
    let nodes = ids.nodes.as_slice();
    match *op {
        NetOp::Const(value) => page.add_constant(alloc, value),
        NetOp::Input(number, _) => Ok(id_in(&ids.inputs, u64::from(number))),
        NetOp::State(number, _) => Ok(id_in(&ids.states, u64::from(number))),
        NetOp::One(operator, a) => {
            let keyword = keyword_of_one(operator);
            page.add(alloc, width, keyword, &[id_in(nodes, a)], &[], None)
        }
        NetOp::Two(operator, a, b) => {
            let keyword = keyword_of_two(operator);
            let operands = [id_in(nodes, a), id_in(nodes, b)];
            page.add(alloc, width, keyword, &operands, &[], None)
        }
        NetOp::Slice(a, upper, lower) => {
            let operand = [id_in(nodes, a)];
            let bounds = [upper, lower];
            page.add(alloc, width, Keyword::Slice, &operand, &bounds, None)
        }
        NetOp::Uext(a, added) => {
            let operand = [id_in(nodes, a)];
            page.add(alloc, width, Keyword::Uext, &operand, &[added], None)
        }
        NetOp::Sext(a, added) => {
            let operand = [id_in(nodes, a)];
            page.add(alloc, width, Keyword::Sext, &operand, &[added], None)
        }
        NetOp::Ite(condition, a, b) => {
            let operands = [id_in(nodes, condition), id_in(nodes, a), id_in(nodes, b)];
            page.add(alloc, width, Keyword::Ite, &operands, &[], None)
        }
    }
}

// Adds a `next` for each state.
fn add_nexts(alloc: Global, page: &mut Page, wires: &[StateWire], ids: &Ids) -> Result<(), NoMemory>
    ensures { OnOk result (page_of page.new ≡ pages.with_nexts ids.now.nodes.items ids.now.states.items (page_of page.old) 0 wires.now) }
{
    let states = ids.states.as_slice();
    let nodes = ids.nodes.as_slice();
    for (number, wire) in wires.iter().enumerate() {
        let set = [id_in(states, number as u64), id_in(nodes, wire.next)];
        page.add(alloc, wire.width, Keyword::Next, &set, &[], None)?;
    }
    Ok(())
}

// Adds outputs.
fn add_outputs(
    alloc: Global,
    page: &mut Page,
    wires: &[OutputWire],
    nodes: &[u64],
) -> Result<(), NoMemory>
    ensures { OnOk result (page_of page.new ≡ pages.with_outputs nodes.now (page_of page.old) wires.now) }
{
    for wire in wires {
        let mut given = Sequence::new(alloc);
        given.push(Argument::Id(id_in(nodes, wire.id)))?;
        let name = Text::from_slice(alloc, wire.name.as_slice())?;
        page.put(Keyword::Output, given, Some(name))?;
    }
    Ok(())
}

// The id at a number.
fn id_in(ids: &[u64], number: u64) -> u64
    ensures { result ≡ pages.id_in ids.now number }
{
    ids.get(number as usize).copied().unwrap_or(0)
}
