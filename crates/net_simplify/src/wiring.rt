//! Circuits: the wires of a circuit over another net.

// States, inputs and outputs over another net.
ghost use Rattle.std.specs.Prelude.{◌≡◌, ◌<◌, length, map, All, IfOk};
ghost use Rattle.net_simplify.specs.inner.Passes.{moved_output, moved_state};

use circuit_eval::{InputWire, OutputWire, StateWire, Wires};
use kw_bits::{NoMemory, Sequence, Text};
use net_graph::{Net, NetId};
use std::alloc::Global;

/// The same states, inputs and outputs over another net, each node at its place there.
pub(crate) fn rewired(
    alloc: Global,
    net: Net,
    places: &[NetId],
    states: &[StateWire],
    inputs: &[InputWire],
    outputs: &[OutputWire],
) -> Result<Wires, NoMemory>
    requires states { All (λ wire. wire.next < length places.now) states.now }
    requires outputs { All (λ wire. wire.id < length places.now) outputs.now }
    ensures { IfOk result (λ wires. wires ≡ record { net = net; states = map (moved_state places.now) states.now; inputs = inputs.now; outputs = map (moved_output places.now) outputs.now }) }
{
    Ok(Wires {
        net,
        states: rewired_states(alloc, states, places)?,
        inputs: copied_inputs(alloc, inputs)?,
        outputs: rewired_outputs(alloc, outputs, places)?,
    })
}

fn rewired_states(
    alloc: Global,
    states: &[StateWire],
    places: &[NetId],
) -> Result<Sequence<StateWire>, NoMemory>
    requires { All (λ wire. wire.next < length places.now) states.now }
    ensures { IfOk result (λ wires. wires ≡ map (moved_state places.now) states.now) }
{
    let mut wires = Sequence::new(alloc);
    for wire in states {
        wires.push(StateWire {
            name: copied(alloc, &wire.name)?,
            width: wire.width,
            first: wire.first,
            next: places[wire.next as usize],
        })?;
    }
    Ok(wires)
}

fn copied_inputs(alloc: Global, inputs: &[InputWire]) -> Result<Sequence<InputWire>, NoMemory>
    ensures { IfOk result (λ wires. wires ≡ inputs.now) }
{
    let mut wires = Sequence::new(alloc);
    for wire in inputs {
        wires.push(InputWire {
            name: copied(alloc, &wire.name)?,
            width: wire.width,
        })?;
    }
    Ok(wires)
}

fn rewired_outputs(
    alloc: Global,
    outputs: &[OutputWire],
    places: &[NetId],
) -> Result<Sequence<OutputWire>, NoMemory>
    requires { All (λ wire. wire.id < length places.now) outputs.now }
    ensures { IfOk result (λ wires. wires ≡ map (moved_output places.now) outputs.now) }
{
    let mut wires = Sequence::new(alloc);
    for wire in outputs {
        wires.push(OutputWire {
            name: copied(alloc, &wire.name)?,
            id: places[wire.id as usize],
        })?;
    }
    Ok(wires)
}

fn copied(alloc: Global, name: &Text) -> Result<Text, NoMemory>
    ensures { IfOk result (λ copy. copy ≡ name.now) }
{
    Sequence::from_slice(alloc, name.as_slice())
}
