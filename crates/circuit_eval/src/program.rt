//! Circuits: a net laid out once to run on machine words, a step for each node.
//!
//! A node of up to 64 bits has its value's number as its word. The value of a wider node is kept apart, as a bit vector.

ghost use Rattle.std.specs.Prelude.{◌≡◌, ◌<◌, ◌↔◌, ℕ, true, false, length, IfOk, IsTrue};
ghost use Rattle.net_graph.specs.Nets.{IsNet};
ghost use Rattle.net_graph.specs.declared.node.NetOp.TheVariants as variant;
ghost use Rattle.circuit_eval.specs.Programs.{Has, IsLaidOut, IsNarrow, Makes, node_width};

use crate::words::mask_of;
use kw_bits::NoMemory;
use net_graph::{Net, NetId, NetOne, NetOp, NetTwo};
use std::alloc::Global;

/// How a node's word is made: from the words of nodes of up to 64 bits, whose numbers come first, with a mask or a shift.
#[derive(Clone, Copy, Debug)]
pub(crate) enum Step {
    Constant(u64),
    TakeInput(u32),
    TakeState(u32),
    Copy(NetId),
    Invert(NetId, u64),
    Both(NetId, NetId),
    Either(NetId, NetId),
    OneOf(NetId, NetId),
    Sum(NetId, NetId, u64),
    Difference(NetId, NetId, u64),
    Product(NetId, NetId, u64),
    Equal(NetId, NetId),
    Unequal(NetId, NetId),
    Below(NetId, NetId),
    AtMost(NetId, NetId),
    Join(NetId, NetId, u32),
    Cut(NetId, u32, u64),
    Choose(NetId, NetId, NetId),
    /// By the operator itself, on two bit vectors of more than 64 bits, as they are kept.
    Wide(NetTwo, NetId, NetId),
    /// By the operator itself, on bit vectors.
    Other,
}

/// Lays out a net.
pub(crate) fn lay_out(alloc: Global, net: &Net) -> Result<Vec<Step>, NoMemory>
    ensures { IfOk result (λ steps. IsLaidOut net.now steps.items) }
{
    let ops = net.ops();
    let mut steps = Vec::with_capacity(alloc, ops.len())?;
    for op in ops {
        steps.push(step_of(net, op))?;
    }
    Ok(steps)
}

/// Whether some node has more than 64 bits.
pub(crate) fn has_wide(net: &Net) -> bool
    ensures none { result ≡ false → (id : ℕ) → id < length net.now → IsNarrow net.now id }
    ensures some { result ≡ true → (id : ℕ) × (id < length net.now) × (64 < node_width net.now id) }
{
    for id in 0..net.len() {
        if net.width(id as NetId) > 64 {
            return true;
        }
    }
    false
}

fn is_narrow(net: &Net, id: NetId) -> bool
    requires { id < length net.now }
    ensures { IsTrue result ↔ IsNarrow net.now id }
{
    net.width(id) <= 64
}

// The step of a node that has this operator.
fn step_of(net: &Net, op: &NetOp) -> Step
    requires net { IsNet net.now }
    requires has { (id : ℕ) × Has net.now id op.now }
    ensures { (id : ℕ) → Has net.now id op.now → Makes net.now id result }
{
    match *op {
        NetOp::Const(value) => {
            if value.width() <= 64 {
                Step::Constant(value.number() as u64)
            } else {
                Step::Other
            }
        }
        NetOp::Input(number, width) => {
            if width <= 64 {
                Step::TakeInput(number)
            } else {
                Step::Other
            }
        }
        NetOp::State(number, width) => {
            if width <= 64 {
                Step::TakeState(number)
            } else {
                Step::Other
            }
        }
        NetOp::One(NetOne::Not, a) => {
            if is_narrow(net, a) {
                Step::Invert(a, mask_of(net.width(a)))
            } else {
                Step::Other
            }
        }
        NetOp::Two(operator, a, b) => {
            if is_narrow(net, a) {
                step_of_two(net, operator, a, b)
            } else if is_narrow(net, b) {
                Step::Other
            } else {
                Step::Wide(operator, a, b)
            }
        }
        NetOp::Slice(a, upper, lower) => {
            if is_narrow(net, a) {
                Step::Cut(a, lower, mask_of(upper - lower + 1))
            } else {
                Step::Other
            }
        }
        NetOp::Uext(a, added) => {
            if net.width(a) + added <= 64 {
                Step::Copy(a)
            } else {
                Step::Other
            }
        }
        NetOp::Ite(condition, a, b) => {
            if is_narrow(net, a) {
                Step::Choose(condition, a, b)
            } else {
                Step::Other
            }
        }
        NetOp::One(..) | NetOp::Sext(..) => Step::Other,
    }
}

// The step of an operator on two nodes, the first of up to 64 bits.
fn step_of_two(net: &Net, operator: NetTwo, a: NetId, b: NetId) -> Step
    requires net { IsNet net.now }
    requires has { (id : ℕ) × Has net.now id (variant.Two operator a b) }
    requires narrow { IsNarrow net.now a }
    ensures { (id : ℕ) → Has net.now id (variant.Two operator a b) → Makes net.now id result }
{
    match operator {
        NetTwo::And => Step::Both(a, b),
        NetTwo::Or => Step::Either(a, b),
        NetTwo::Xor => Step::OneOf(a, b),
        NetTwo::Add => Step::Sum(a, b, mask_of(net.width(a))),
        NetTwo::Sub => Step::Difference(a, b, mask_of(net.width(a))),
        NetTwo::Mul => Step::Product(a, b, mask_of(net.width(a))),
        NetTwo::EqBits => Step::Equal(a, b),
        NetTwo::Neq => Step::Unequal(a, b),
        NetTwo::Ult => Step::Below(a, b),
        NetTwo::Ulte => Step::AtMost(a, b),
        NetTwo::Nand
        | NetTwo::Nor
        | NetTwo::Xnor
        | NetTwo::Sll
        | NetTwo::Srl
        | NetTwo::Sra
        | NetTwo::Ugt
        | NetTwo::Ugte
        | NetTwo::Slt
        | NetTwo::Slte
        | NetTwo::Sgt
        | NetTwo::Sgte
        | NetTwo::Iff
        | NetTwo::Implies => Step::Other,
        NetTwo::Concat => {
            if net.width(a) + net.width(b) <= 64 {
                Step::Join(a, b, net.width(b))
            } else {
                Step::Other
            }
        }
    }
}
