//! Circuits: what the value of one bit says of another.

// What a bit is wherever another has a value.
ghost use Rattle.std.specs.Prelude.{◌≡◌, ◌<◌, length, IsTrue, Some};
ghost use Rattle.kw_bits.specs.BitVector.{BitVector, IsBits};
ghost use Rattle.kw_bits.specs.Operators as op;
ghost use Rattle.net_graph.specs.Nets.{IsNet};
ghost use Rattle.net_simplify.specs.inner.Forms.{IsKnownBit, Tells};

use crate::nodes::{bit_at, is_opposite_of, op_at};
use net_graph::{Net, NetId, NetOne, NetOp, NetTwo};

// How many operators are followed from a bit to its operands, and as many from the other. For each node of a circuit
// both directions are tried, which takes at most 2 * 4 ^ (DEPTH + 1) steps.
const DEPTH: u32 = 3;

/// The value that a node has wherever a bit has this value, if a few operators show it.
pub(crate) fn value_where(net: &Net, bit: NetId, value: bool, id: NetId) -> Option<bool>
    requires bit { bit < length net.now }
    requires node { id < length net.now }
    requires net { IsNet net.now }
    ensures { Tells net.now bit value id result }
{
    value_within(net, bit, value, id, DEPTH)
}

// The same by this many operators below the node.
fn value_within(net: &Net, bit: NetId, value: bool, id: NetId, depth: u32) -> Option<bool>
    requires bit { bit < length net.now }
    requires node { id < length net.now }
    requires net { IsNet net.now }
    ensures { Tells net.now bit value id result }
{
    if let Some(known) = stated(net, bit, value, id, DEPTH) {
        return Some(known);
    }
    if let Some(known) = bit_at(net, id) {
        return Some(known);
    }
    if depth == 0 {
        return None;
    }
    match op_at(net, id) {
        NetOp::One(NetOne::Not, a) => turned(value_within(net, bit, value, a, depth - 1)),
        NetOp::Two(NetTwo::And, a, b) => both(
            value_within(net, bit, value, a, depth - 1),
            value_within(net, bit, value, b, depth - 1),
        ),
        NetOp::Two(NetTwo::Or, a, b) => either(
            value_within(net, bit, value, a, depth - 1),
            value_within(net, bit, value, b, depth - 1),
        ),
        _ => None,
    }
}

// The value of a node that the value of a bit states: of the bit itself, of the opposite comparison, or by an operand.
fn stated(net: &Net, bit: NetId, value: bool, id: NetId, depth: u32) -> Option<bool>
    requires bit { bit < length net.now }
    requires node { id < length net.now }
    requires net { IsNet net.now }
    ensures { Tells net.now bit value id result }
{
    if id == bit {
        return Some(value);
    }
    if is_opposite_of(net, id, bit) {
        return Some(!value);
    }
    if depth == 0 {
        return None;
    }
    match op_at(net, bit) {
        NetOp::One(NetOne::Not, a) => stated(net, a, !value, id, depth - 1),
        NetOp::Two(NetTwo::And, a, b) if value => first_known(
            stated(net, a, true, id, depth - 1),
            stated(net, b, true, id, depth - 1),
        ),
        NetOp::Two(NetTwo::Or, a, b) if !value => first_known(
            stated(net, a, false, id, depth - 1),
            stated(net, b, false, id, depth - 1),
        ),
        _ => None,
    }
}

// What is known of a bit in two ways.
fn first_known(a: Option<bool>, b: Option<bool>) -> Option<bool>
    ensures { (x : BitVector) → IsKnownBit a x → IsKnownBit b x → IsKnownBit result x }
{
    match a {
        Some(known) => Some(known),
        None => b,
    }
}

// What is known of the `not` of a bit.
fn turned(a: Option<bool>) -> Option<bool>
    ensures { (x : BitVector) → IsKnownBit a x → IsKnownBit result (op.not x) }
{
    match a {
        Some(known) => Some(!known),
        None => None,
    }
}

// What is known of the `and` of two bits.
fn both(a: Option<bool>, b: Option<bool>) -> Option<bool>
    ensures { (x y : BitVector) → IsBits x → IsBits y → x.width ≡ y.width
        → IsKnownBit a x → IsKnownBit b y → IsKnownBit result (op.and x y) }
{
    if is_known(a, false) {
        return Some(false);
    }
    if is_known(b, false) {
        return Some(false);
    }
    if is_known(a, true) && is_known(b, true) {
        return Some(true);
    }
    None
}

// What is known of the `or` of two bits.
fn either(a: Option<bool>, b: Option<bool>) -> Option<bool>
    ensures { (x y : BitVector) → IsBits x → IsBits y → x.width ≡ y.width
        → IsKnownBit a x → IsKnownBit b y → IsKnownBit result (op.or x y) }
{
    if is_known(a, true) {
        return Some(true);
    }
    if is_known(b, true) {
        return Some(true);
    }
    if is_known(a, false) && is_known(b, false) {
        return Some(false);
    }
    None
}

// Whether a bit is known to be this.
fn is_known(bit: Option<bool>, value: bool) -> bool
    ensures { IsTrue result → bit ≡ Some value }
{
    match bit {
        Some(known) => known == value,
        None => false,
    }
}
