//! Circuits: a whole circuit made simpler.

ghost use Rattle.std.specs.Prelude.{IfOk};
ghost use Rattle.circuit_eval.specs.Circuits.{IsCircuit};
ghost use Rattle.circuit_eval.specs.Tidy.{IsTidy};
ghost use Rattle.net_simplify.specs.inner.Forms.{IsLean};
ghost use Rattle.net_simplify.specs.Kept.{HasOutputsOf, Keeps, RunsAs};
ghost use Rattle.net_simplify.specs.inner.Passes.{IsSimpler};

use crate::layout::laid_out;
use crate::reach::serving;
use crate::reduced::{Placed, reduced};
use crate::wiring::rewired;
use circuit_eval::{Circuit, Wires};
use kw_bits::NoMemory;
use std::alloc::Global;

/// The circuit made simpler: it runs the same and is tidy. Inputs, states and outputs keep their names, widths and
/// first values, in order.
pub fn simplify(alloc: Global, circuit: &Circuit) -> Result<Circuit, NoMemory>
    ensures run { IfOk result (RunsAs circuit.now) }
    ensures outputs { IfOk result (HasOutputsOf circuit.now) }
    ensures kept { IfOk result (Keeps circuit.now) }
    ensures tidy { IfOk result IsTidy }
{
    let wires = simpler_wires(alloc, circuit)?;
    Ok(Circuit::new(tidy_wires(alloc, &wires)?).unwrap())
}

// The wires over the simplest forms of all nodes.
fn simpler_wires(alloc: Global, circuit: &Circuit) -> Result<Wires, NoMemory>
    ensures { IfOk result (IsSimpler circuit.now) }
{
    let Placed { net, places } = reduced(alloc, circuit.net.ops())?;
    let wires = rewired(
        alloc,
        net,
        &places,
        circuit.states.as_slice(),
        circuit.inputs.as_slice(),
        circuit.outputs.as_slice(),
    )?;
    Ok(wires)
}

// The wires over those nodes alone that serve.
fn tidy_wires(alloc: Global, wires: &Wires) -> Result<Wires, NoMemory>
    requires circuit { IsCircuit wires.now }
    requires lean { IsLean wires.now.net }
    ensures simpler { IfOk result (IsSimpler wires.now) }
    ensures tidy { IfOk result IsTidy }
{
    let serves = serving(alloc, wires)?;
    let Placed { net, places } = laid_out(alloc, wires.net.ops(), &serves)?;
    let wires = rewired(
        alloc,
        net,
        &places,
        wires.states.as_slice(),
        wires.inputs.as_slice(),
        wires.outputs.as_slice(),
    )?;
    Ok(wires)
}
