//! Circuits: the circuit of an accepted BTOR2 file.

ghost use Rattle.std.specs.Prelude.{◌<◌, ◌^◌, IfOk, length};
ghost use Rattle.btor2_model.specs.Acceptance.{IsAccepted};
ghost use Rattle.btor2_model.specs.Rules.{is_input, is_state};
ghost use Rattle.btor2_model.specs.Run.{lines_by_rule};
ghost use Rattle.btor2_net.specs.Translations.{GivesOutputs, HasLines, HasTokens, RunsAs};
ghost use Rattle.btor2_net.specs.inner.Wires.{AreWiresOf};

use crate::form::Form;
use crate::nodes::nodes_of;
use crate::settings::values_set;
use crate::wires::{constants, inputs, outputs, states, zeros};
use btor2_model::Btor;
use btor2_text::Line;
use circuit_eval::{Circuit, Wires};
use kw_bits::NoMemory;
use std::alloc::Global;

/// The circuit of a text, whose run is the text's. Its inputs, states and outputs have the names of the lines.
pub fn to_circuit(alloc: Global, text: &Btor) -> Result<Circuit, NoMemory>
    requires inputs { length (lines_by_rule is_input text.now) < 2 ^ 32 }
    requires states { length (lines_by_rule is_state text.now) < 2 ^ 32 }
    ensures lines { IfOk result (HasLines text.now) }
    ensures run { IfOk result (RunsAs text.now) }
    ensures outputs { IfOk result (GivesOutputs text.now) }
    ensures names { IfOk result HasTokens }
{
    let wires = wires_of(alloc, text.lines().as_slice())?;
    Ok(Circuit::new(wires).unwrap())
}

// What the circuit of an accepted text is made of.
fn wires_of(alloc: Global, lines: &[Line]) -> Result<Wires, NoMemory>
    requires accepted { IsAccepted lines.now }
    requires inputs { length (lines_by_rule is_input lines.now) < 2 ^ 32 }
    requires states { length (lines_by_rule is_state lines.now) < 2 ^ 32 }
    ensures { IfOk result (AreWiresOf lines.now) }
{
    let nodes = nodes_of(alloc, lines)?;
    let input_zeros = zeros(alloc, &nodes, Form::Input, lines)?;
    let state_zeros = zeros(alloc, &nodes, Form::State, lines)?;
    let constants = constants(alloc, &nodes, &input_zeros, &state_zeros)?;
    let inits = values_set(alloc, Form::Init, lines)?;
    let nexts = values_set(alloc, Form::Next, lines)?;
    let states = states(alloc, &nodes, &constants, &inits, &nexts, lines)?;
    let inputs = inputs(alloc, &nodes, lines)?;
    let outputs = outputs(alloc, &nodes, lines)?;
    Ok(Wires {
        net: nodes.net,
        states,
        inputs,
        outputs,
    })
}
