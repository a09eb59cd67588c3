//! Circuits: which nodes are in use.

// Which nodes of a circuit's net serve a next value or an output.
ghost use Rattle.std.specs.Prelude.{◌≡◌, ◌<◌, false, length, map, replicate, All, IfOk};
ghost use Rattle.net_graph.specs.Nets.{IsNet};
ghost use Rattle.circuit_eval.specs.Circuits.{IsCircuit};
ghost use Rattle.circuit_eval.specs.Tidy.{operands};
ghost use Rattle.circuit_eval.specs.declared.circuit.OutputWire.{OutputWire};
ghost use Rattle.circuit_eval.specs.declared.circuit.StateWire.{StateWire};
ghost use Rattle.net_simplify.specs.inner.Passes.{AreServing, Closes, ClosesAt, marked};

use circuit_eval::{OutputWire, StateWire, Wires};
use kw_bits::NoMemory;
use net_graph::NetOp;
use std::alloc::Global;

/// Whether each node of a net serves.
pub(crate) fn serving(alloc: Global, wires: &Wires) -> Result<Vec<bool>, NoMemory>
    requires { IsCircuit wires.now }
    ensures { IfOk result (λ marks. AreServing wires.now marks.items) }
{
    let mut serves = vec![in alloc; false; wires.net.len()]?;
    mark_serving(wires, &mut serves);
    Ok(serves)
}

fn mark_serving(wires: &Wires, serves: &mut [bool])
    requires circuit { IsCircuit wires.now }
    requires clear { serves.old ≡ replicate (length wires.now.net) false }
    ensures { AreServing wires.now serves.new }
{
    mark_states(wires.states.as_slice(), serves);
    mark_outputs(wires.outputs.as_slice(), serves);
    mark_operands(wires.net.ops(), serves);
}

fn mark_states(states: &[StateWire], serves: &mut [bool])
    requires { All (λ wire. wire.next < length serves.old) states.now }
    ensures { serves.new ≡ marked (map (λ (wire : StateWire). wire.next) states.now) serves.old }
{
    for wire in states {
        serves[wire.next as usize] = true;
    }
}

fn mark_outputs(outputs: &[OutputWire], serves: &mut [bool])
    requires { All (λ wire. wire.id < length serves.old) outputs.now }
    ensures { serves.new ≡ marked (map (λ (wire : OutputWire). wire.id) outputs.now) serves.old }
{
    for wire in outputs {
        serves[wire.id as usize] = true;
    }
}

// From the last node to the first, the operands of a node that serves.
fn mark_operands(ops: &[NetOp], serves: &mut [bool])
    requires count { length ops.now ≡ length serves.old }
    requires net { IsNet ops.now }
    ensures { Closes ops.now 0 serves.old serves.new }
{
    for done in 0..ops.len() {
        mark_below(ops, ops.len() - 1 - done, serves);
    }
}

// Marks the operands of a node, if it serves.
fn mark_below(ops: &[NetOp], id: usize, serves: &mut [bool])
    requires node { id < length ops.now }
    requires count { length ops.now ≡ length serves.old }
    requires net { IsNet ops.now }
    ensures { ClosesAt ops.now id serves.old serves.new }
{
    if serves[id] {
        mark(&ops[id], serves);
    }
}

// Marks an operator's operands.
fn mark(op: &NetOp, serves: &mut [bool])
    requires { All (λ a. a < length serves.old) (operands op.now) }
    ensures { serves.new ≡ marked (operands op.now) serves.old }
{
    match *op {
        NetOp::Const(_) | NetOp::Input(_, _) | NetOp::State(_, _) => {}
        NetOp::One(_, a) | NetOp::Slice(a, _, _) | NetOp::Uext(a, _) | NetOp::Sext(a, _) => {
            serves[a as usize] = true;
        }
        NetOp::Two(_, a, b) => {
            serves[a as usize] = true;
            serves[b as usize] = true;
        }
        NetOp::Ite(condition, a, b) => {
            serves[condition as usize] = true;
            serves[a as usize] = true;
            serves[b as usize] = true;
        }
    }
}
