//! Circuits: the operators of actions on wires.

// The operators of actions on wires.
ghost use Rattle.std.specs.Prelude.{◌≡◌, ◌≤◌, ◌<◌, ◌-◌, ◌+◌, ℕ, List, IfOk, Some, slice_get};
ghost use Rattle.kw_bits.specs.BitVector.{BitVector};
ghost use Rattle.kw_bits.specs.Operators as op;
ghost use Rattle.net_graph.specs.Operators.{one_value, one_width, two_value, two_width, TakesTwo};
ghost use Rattle.net_graph.specs.Values.{Sources, value_at};
ghost use Rattle.typed_core.specs.Evaluation.{apply_one, apply_two};
ghost use Rattle.typed_core.specs.Valid.{OneHasWidth, TwoHasWidth};
ghost use Rattle.typed_core.specs.Widths.{input_widths};
ghost use Rattle.net_action.specs.Gates.{Grows, HasValue};
ghost use Rattle.net_action.specs.Wires.{AreValues, HasWire};

use crate::gates::{added, gate};
use kw_bits::NoMemory;
use net_graph::{Net, NetId, NetOne, NetOp, NetTwo};
use typed_core::{Design, OneOp, TwoOp};

/// A wire with the value of an operator on one wire.
pub(crate) fn one(net: &mut Net, operator: OneOp, x: NetId) -> Result<NetId, NoMemory>
    requires { (operand : ℕ) × HasWire net.old x operand }
    ensures grows { (inputs : List ℕ) → Grows inputs net.old net.new }
    ensures wire { IfOk result (λ id. (operand width : ℕ) → HasWire net.old x operand → OneHasWidth operator operand width → HasWire net.new id width) }
    ensures value { IfOk result (HasValue net.new (λ values. apply_one operator (value_at values x))) }
{
    let id = gate(net, NetOp::One(net_one(operator), x))?;
    Ok(id)
}

/// A wire with the value of an operator on two wires.
pub(crate) fn two(net: &mut Net, operator: TwoOp, x: NetId, y: NetId) -> Result<NetId, NoMemory>
    requires { (left right width : ℕ) × HasWire net.old x left × HasWire net.old y right × TwoHasWidth operator left right width }
    ensures grows { (inputs : List ℕ) → Grows inputs net.old net.new }
    ensures wire { IfOk result (λ id. (left right width : ℕ) → HasWire net.old x left → HasWire net.old y right → TwoHasWidth operator left right width → HasWire net.new id width) }
    ensures value { IfOk result (HasValue net.new (λ values. apply_two operator (value_at values x) (value_at values y))) }
{
    let id = gate(net, NetOp::Two(net_two(operator), x, y))?;
    Ok(id)
}

/// A wire with these bits of a wire.
pub(crate) fn slice(net: &mut Net, x: NetId, upper: u32, lower: u32) -> Result<NetId, NoMemory>
    requires order { lower ≤ upper }
    requires within { (operand : ℕ) × HasWire net.old x operand × (upper < operand) }
    ensures grows { (inputs : List ℕ) → Grows inputs net.old net.new }
    ensures wire { IfOk result (λ id. HasWire net.new id (upper - lower + 1)) }
    ensures value { IfOk result (HasValue net.new (λ values. op.slice (value_at values x) upper lower)) }
{
    let id = gate(net, NetOp::Slice(x, upper, lower))?;
    Ok(id)
}

/// A wire with the number of a wire at a greater width.
pub(crate) fn zext(net: &mut Net, x: NetId, to: u32) -> Result<NetId, NoMemory>
    requires wider { (operand : ℕ) × HasWire net.old x operand × (operand ≤ to) }
    requires most { to ≤ 128 }
    ensures grows { (inputs : List ℕ) → Grows inputs net.old net.new }
    ensures wire { IfOk result (λ id. HasWire net.new id to) }
    ensures value { IfOk result (HasValue net.new (λ values. op.zext (value_at values x) to)) }
{
    let more = to - net.width(x);
    let id = gate(net, NetOp::Uext(x, more))?;
    Ok(id)
}

/// A wire with the signed reading of a wire at a greater width.
pub(crate) fn sext(net: &mut Net, x: NetId, to: u32) -> Result<NetId, NoMemory>
    requires wider { (operand : ℕ) × HasWire net.old x operand × (operand ≤ to) }
    requires most { to ≤ 128 }
    ensures grows { (inputs : List ℕ) → Grows inputs net.old net.new }
    ensures wire { IfOk result (λ id. HasWire net.new id to) }
    ensures value { IfOk result (HasValue net.new (λ values. op.sext (value_at values x) to)) }
{
    let more = to - net.width(x);
    let id = gate(net, NetOp::Sext(x, more))?;
    Ok(id)
}

/// The wire of an input.
pub(crate) fn input_wire(net: &mut Net, design: &Design, input: u32) -> Result<NetId, NoMemory>
    requires { (width : ℕ) × (slice_get (input_widths design.now) input ≡ Some width) }
    ensures grows { Grows (input_widths design.now) net.old net.new }
    ensures wire { IfOk result (λ id. (width : ℕ) → slice_get (input_widths design.now) input ≡ Some width → HasWire net.new id width) }
    ensures value { IfOk result (λ id. (s : Sources) (values : List BitVector) → AreValues s net.new values → value_at values id ≡ value_at s.inputs input) }
{
    let width = design.inputs.get(input as usize).width;
    let id = added(net, NetOp::Input(input, width))?;
    Ok(id)
}

#[tactic(auto, unfolding(net_graph::specs::Operators::one_value, net_graph::specs::Operators::one_width))]
fn net_one(operator: OneOp) -> NetOne
    ensures value { (a : BitVector) → one_value result a ≡ apply_one operator a }
    ensures width { (operand width : ℕ) → OneHasWidth operator operand width → one_width result operand ≡ width }
{
    match operator {
        OneOp::Not => NetOne::Not,
        OneOp::Neg => NetOne::Neg,
        OneOp::RedAnd => NetOne::RedAnd,
        OneOp::RedOr => NetOne::RedOr,
        OneOp::RedXor => NetOne::RedXor,
    }
}

#[tactic(auto, unfolding(net_graph::specs::Operators::two_value, net_graph::specs::Operators::two_width, net_graph::specs::Operators::TakesTwo))]
fn net_two(operator: TwoOp) -> NetTwo
    ensures value { (a b : BitVector) → two_value result a b ≡ apply_two operator a b }
    ensures takes { (left right width : ℕ) → TwoHasWidth operator left right width → TakesTwo result left right }
    ensures width { (left right width : ℕ) → TwoHasWidth operator left right width → two_width result left right ≡ width }
{
    match operator {
        TwoOp::And => NetTwo::And,
        TwoOp::Or => NetTwo::Or,
        TwoOp::Xor => NetTwo::Xor,
        TwoOp::Add => NetTwo::Add,
        TwoOp::Sub => NetTwo::Sub,
        TwoOp::Mul => NetTwo::Mul,
        TwoOp::Sll => NetTwo::Sll,
        TwoOp::Srl => NetTwo::Srl,
        TwoOp::Sra => NetTwo::Sra,
        TwoOp::EqBits => NetTwo::EqBits,
        TwoOp::Ult => NetTwo::Ult,
        TwoOp::Ulte => NetTwo::Ulte,
        TwoOp::Slt => NetTwo::Slt,
        TwoOp::Slte => NetTwo::Slte,
        TwoOp::Concat => NetTwo::Concat,
    }
}
