//! Program: what reports show of a circuit.

ghost use Rattle.std.specs.Prelude.{◌≡◌, ◌<◌, ◌==◌, All, IfOk, map};
ghost use Rattle.circuit_eval.specs.Circuits.{IsOutput};
ghost use Rattle.koika_top.specs.CircuitShapes as shapes;
ghost use Rattle.net_graph.specs.Nets.{widths_of};
ghost use Rattle.std.specs.List.{filter};

use circuit_eval::{Circuit, OutputWire};
use kw_bits::{NoMemory, Sequence, Text};
use net_graph::Net;
use std::alloc::Global;
use stim_report::{NameWidth, Shape, try_map};

/// What reports show of a circuit: its inputs, its states, and in place of rules its outputs of one bit.
pub fn circuit_shape(alloc: Global, circuit: &Circuit) -> Result<Shape, NoMemory>
    ensures { IfOk result (λ shape. shape ≡ shapes.shape_of circuit.now) }
{
    let inputs = try_map(alloc, circuit.inputs.as_slice(), |wire| {
        NameWidth::of(alloc, wire.name.as_slice(), wire.width)
    })?;
    let registers = try_map(alloc, circuit.states.as_slice(), |wire| {
        NameWidth::of(alloc, wire.name.as_slice(), wire.width)
    })?;
    let rules = flags(alloc, &circuit.net, circuit.outputs.as_slice())?;
    Ok(Shape {
        inputs,
        registers,
        rules,
    })
}

// The names of the outputs of one bit.
fn flags(alloc: Global, net: &Net, wires: &[OutputWire]) -> Result<Sequence<Text>, NoMemory>
    requires { All (IsOutput net.now) wires.now }
    ensures { IfOk result (λ names. names ≡ map shapes.name_of (filter (shapes.is_flag (widths_of net.now)) wires.now)) }
{
    let mut names = Sequence::new(alloc);
    for wire in wires {
        if net.width(wire.id) == 1 {
            names.push(Text::from_slice(alloc, wire.name.as_slice())?)?;
        }
    }
    Ok(names)
}
