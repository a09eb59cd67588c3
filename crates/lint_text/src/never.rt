//! Lint's text: outputs of a circuit that are never 1.

ghost use Rattle.std.specs.Prelude.{◌≡◌, IfOk, map};
ghost use Rattle.circuit_eval.specs.declared.circuit.OutputWire.{OutputWire as OutputWireOf};
ghost use Rattle.lint_text.specs.Never.{AreNeverOne, HasFlags};
ghost use Rattle.lint_text.specs.inner.Zeros.{is_zero, is_zero_op};

use circuit_eval::{Circuit, OutputWire};
use kw_bits::{NoMemory, Sequence};
use net_graph::NetOp;
use std::alloc::Global;

/// Marks outputs that are 0 in every run: those that are the constant 0. It finds what simplification made of them.
pub fn never_one(alloc: Global, circuit: &Circuit) -> Result<Sequence<bool>, NoMemory>
    requires { HasFlags circuit.now }
    ensures { IfOk result (AreNeverOne circuit.now) }
{
    zero_outputs(alloc, circuit.net.ops(), circuit.outputs.as_slice())
}

// Marks the outputs that are the constant 0 in a net.
fn zero_outputs(
    alloc: Global,
    ops: &[NetOp],
    outputs: &[OutputWire],
) -> Result<Sequence<bool>, NoMemory>
    ensures { IfOk result (λ marks. marks ≡ map (λ (wire : OutputWireOf). is_zero ops.now wire.id) outputs.now) }
{
    let mut marks = Sequence::new(alloc);
    for wire in outputs {
        marks.push(is_zero(ops, wire.id as usize))?;
    }
    Ok(marks)
}

// Whether the node of this number is the constant 0.
fn is_zero(ops: &[NetOp], id: usize) -> bool
    ensures { result ≡ is_zero ops.now id }
{
    match ops.get(id) {
        Some(op) => is_zero_op(op),
        None => false,
    }
}

fn is_zero_op(op: &NetOp) -> bool
    ensures { result ≡ is_zero_op op.now }
{
    match op {
        NetOp::Const(value) => value.number() == 0,
        _ => false,
    }
}
