//! Circuits: the inputs, states and outputs of a file.

// The wires of a text's inputs, states and outputs.
ghost use Rattle.std.specs.Prelude.{◌≡◌, ◌<◌, IfOk, Some, length, map, ℕ};
ghost use Rattle.net_graph.specs.Laws.{Feeds};
ghost use Rattle.net_graph.specs.Values.{values_of};
ghost use Rattle.btor2_model.specs.Rules.{is_input, is_output, is_state};
ghost use Rattle.btor2_model.specs.Run.{lines_by_rule};
ghost use Rattle.btor2_model.specs.Table.{value_in};
ghost use Rattle.btor2_net.specs.inner.Wires as wires;
ghost use Rattle.btor2_net.specs.declared.form.Form.TheVariants as forms;

use crate::form::Form;
use crate::name::name_of;
use crate::nodes::Nodes;
use btor2_model::Table;
use btor2_text::Line;
use circuit_eval::{InputWire, OutputWire, StateWire};
use kw_bits::{Bits, NoMemory, Sequence};
use net_graph::evaluate;
use std::alloc::Global;

/// An input for each of the text's.
pub(crate) fn inputs(
    alloc: Global,
    nodes: &Nodes,
    lines: &[Line],
) -> Result<Sequence<InputWire>, NoMemory>
    requires { wires.Stand nodes.now forms.Input lines.now }
    ensures { IfOk result (λ inputs. inputs ≡ map (wires.input_wire nodes.now) (lines_by_rule is_input lines.now)) }
{
    let mut inputs = Sequence::new(alloc);
    for line in lines {
        if Form::Input.is_of(line) {
            inputs.push(InputWire {
                name: name_of(alloc, line)?,
                width: nodes.net.width(nodes.node_of(line.id)),
            })?;
        }
    }
    Ok(inputs)
}

/// An output for each of the text's.
pub(crate) fn outputs(
    alloc: Global,
    nodes: &Nodes,
    lines: &[Line],
) -> Result<Sequence<OutputWire>, NoMemory>
    ensures { IfOk result (λ outputs. outputs ≡ map (wires.output_wire nodes.now) (lines_by_rule is_output lines.now)) }
{
    let mut outputs = Sequence::new(alloc);
    for line in lines {
        if Form::Output.is_of(line) {
            outputs.push(OutputWire {
                name: name_of(alloc, line)?,
                id: nodes.node(line.arguments.as_slice(), 0),
            })?;
        }
    }
    Ok(outputs)
}

/// The values of nodes while all inputs and states are 0.
pub(crate) fn constants(
    alloc: Global,
    nodes: &Nodes,
    inputs: &[Bits],
    states: &[Bits],
) -> Result<Vec<Bits>, NoMemory>
    requires { Feeds (record { inputs = inputs.now; states = states.now }) nodes.now.net }
    ensures { IfOk result (λ values. values.items ≡ values_of (record { inputs = inputs.now; states = states.now }) nodes.now.net) }
{
    let mut values = vec![in alloc; Bits::zero(1); nodes.net.len()]?;
    evaluate(&nodes.net, inputs, states, &mut values);
    Ok(values)
}

/// 0 at the width of each line of a form.
pub(crate) fn zeros(
    alloc: Global,
    nodes: &Nodes,
    form: Form,
    lines: &[Line],
) -> Result<Vec<Bits>, NoMemory>
    requires { wires.Stand nodes.now form lines.now }
    ensures { IfOk result (λ zeros. zeros.items ≡ map (wires.zero_of nodes.now) (lines_by_rule (wires.is_form form) lines.now)) }
{
    let mut zeros = Vec::new(alloc);
    for line in lines {
        if form.is_of(line) {
            zeros.push(Bits::zero(nodes.net.width(nodes.node_of(line.id))))?;
        }
    }
    Ok(zeros)
}

/// A state for each of the text's, by the values that they are set to.
pub(crate) fn states(
    alloc: Global,
    nodes: &Nodes,
    constants: &[Bits],
    inits: &Table<u64>,
    nexts: &Table<u64>,
    lines: &[Line],
) -> Result<Sequence<StateWire>, NoMemory>
    requires stand { wires.Stand nodes.now forms.State lines.now }
    requires first { (state id : ℕ) → value_in inits.now state ≡ Some id → wires.node_of nodes.now id < length constants.now }
    ensures { IfOk result (λ states. states ≡ map (wires.state_wire nodes.now constants.now (value_in inits.now) (value_in nexts.now)) (lines_by_rule is_state lines.now)) }
{
    let mut states = Sequence::new(alloc);
    for line in lines {
        if Form::State.is_of(line) {
            let width = nodes.net.width(nodes.node_of(line.id));
            states.push(StateWire {
                name: name_of(alloc, line)?,
                width,
                first: match inits.get(line.id) {
                    Some(id) => constants[nodes.node_of(id) as usize],
                    None => Bits::zero(width),
                },
                next: nodes.node_of(nexts.get(line.id).unwrap_or(0)),
            })?;
        }
    }
    Ok(states)
}
