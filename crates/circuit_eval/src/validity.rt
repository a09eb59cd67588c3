//! Circuits: the check that wires make a circuit.

// Whether wires make a circuit.
ghost use Rattle.std.specs.Prelude.{◌↔◌, All, IsTrue};
ghost use Rattle.circuit_eval.specs.Circuits.{input_widths, IsCircuit, IsInput, IsOutput, IsState, state_widths};
ghost use Rattle.net_graph.specs.Nets.{IsNet};
ghost use Rattle.net_graph.specs.Values.{AllRead, Reads};

use crate::circuit::{InputWire, OutputWire, StateWire, Wires};
use kw_bits::Bits;
use net_graph::{Net, NetOp};

pub(crate) fn is_circuit(wires: &Wires) -> bool
    ensures { IsTrue result ↔ IsCircuit wires.now }
{
    let (inputs, states) = (wires.inputs.as_slice(), wires.states.as_slice());
    all_read(&wires.net, inputs, states)
        && are_states(&wires.net, states)
        && are_inputs(inputs)
        && are_outputs(&wires.net, wires.outputs.as_slice())
}

// Whether a net reads only inputs and states that there are, at their widths.
fn all_read(net: &Net, inputs: &[InputWire], states: &[StateWire]) -> bool
    ensures reads { IsTrue result
        ↔ AllRead (input_widths inputs.now) (state_widths states.now) net.now }
    ensures net { IsNet net.now }
{
    net.ops().iter().all(|op| reads(op, inputs, states))
}

fn reads(op: &NetOp, inputs: &[InputWire], states: &[StateWire]) -> bool
    ensures { IsTrue result ↔ Reads (input_widths inputs.now) (state_widths states.now) op.now }
{
    match *op {
        NetOp::Input(number, width) => match inputs.get(number as usize) {
            Some(wire) => wire.width == width,
            None => false,
        },
        NetOp::State(number, width) => match states.get(number as usize) {
            Some(wire) => wire.width == width,
            None => false,
        },
        _ => true,
    }
}

fn are_states(net: &Net, states: &[StateWire]) -> bool
    ensures { IsTrue result ↔ All (IsState net.now) states.now }
{
    states.iter().all(|wire| is_state(net, wire))
}

fn is_state(net: &Net, wire: &StateWire) -> bool
    ensures { IsTrue result ↔ IsState net.now wire.now }
{
    wire.first.width() == wire.width
        && (wire.next as usize) < net.len()
        && net.width(wire.next) == wire.width
}

fn are_inputs(inputs: &[InputWire]) -> bool
    ensures { IsTrue result ↔ All IsInput inputs.now }
{
    inputs.iter().all(is_input)
}

fn is_input(wire: &InputWire) -> bool
    ensures { IsTrue result ↔ IsInput wire.now }
{
    1 <= wire.width && wire.width <= Bits::MAX_WIDTH
}

fn are_outputs(net: &Net, outputs: &[OutputWire]) -> bool
    ensures { IsTrue result ↔ All (IsOutput net.now) outputs.now }
{
    outputs.iter().all(|wire| is_output(net, wire))
}

fn is_output(net: &Net, wire: &OutputWire) -> bool
    ensures { IsTrue result ↔ IsOutput net.now wire.now }
{
    (wire.id as usize) < net.len()
}
