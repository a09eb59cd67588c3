//! Circuits: a node's operator, and its value if it is a constant.

// What single nodes of a net are.
ghost use Rattle.std.specs.Prelude.{◌≡◌, ◌≢◌, ◌<◌, ℕ, length, IfNone, IfSome, IsTrue, Some, slice_get};
ghost use Rattle.kw_bits.specs.BitVector.{BitVector};
ghost use Rattle.kw_bits.specs.Operators as op;
ghost use Rattle.net_graph.specs.Laws.{Feeds};
ghost use Rattle.net_graph.specs.Nets.{IsNet, width_at, widths_of};
ghost use Rattle.net_graph.specs.Values.{node_value, Sources};
ghost use Rattle.net_graph.specs.declared.node.NetOne.TheVariants.{Not};
ghost use Rattle.net_graph.specs.declared.node.NetOp.TheVariants.{Const, One, Two};
ghost use Rattle.net_graph.specs.declared.node.NetTwo.TheVariants.{And, Or};
ghost use Rattle.circuit_eval.specs.Tidy.{IsConstant};
ghost use Rattle.net_simplify.specs.inner.Forms.{IsKnownBit, IsNodeIf};
ghost use Rattle.net_simplify.specs.inner.Identities.{IsKnown};

use crate::known::{Known, bit_of, known_of};
use crate::opposites::is_opposite;
use kw_bits::Bits;
use net_graph::{Net, NetId, NetOne, NetOp, NetTwo};

/// The operator of a node.
pub(crate) fn op_at(net: &Net, id: NetId) -> NetOp
    requires { id < length net.now }
    ensures { slice_get net.now id ≡ Some result }
{
    net.ops()[id as usize]
}

/// The value of a node, if it is a constant.
pub(crate) fn constant_at(net: &Net, id: NetId) -> Option<Bits>
    requires { id < length net.now }
    ensures some { IfSome result (λ value. slice_get net.now id ≡ Some (Const value)) }
    ensures none { IfNone result (¬ IsConstant net.now id) }
{
    match op_at(net, id) {
        NetOp::Const(value) => Some(value),
        _ => None,
    }
}

/// The operand of a `not`.
pub(crate) fn not_of(op: &NetOp) -> Option<NetId>
    ensures some { IfSome result (λ a. op.now ≡ One Not a) }
    ensures none { IfNone result ((a : ℕ) → op.now ≢ One Not a) }
{
    match *op {
        NetOp::One(NetOne::Not, a) => Some(a),
        _ => None,
    }
}

/// Two nodes.
#[derive(Clone, Copy)]
pub(crate) struct Pair {
    pub(crate) first: NetId,
    pub(crate) second: NetId,
}

/// The operands of an `and`.
pub(crate) fn and_of(op: &NetOp) -> Option<Pair>
    ensures { IfSome result (λ pair. op.now ≡ Two And pair.first pair.second) }
{
    match *op {
        NetOp::Two(NetTwo::And, first, second) => Some(Pair { first, second }),
        _ => None,
    }
}

/// The operands of an `or`.
pub(crate) fn or_of(op: &NetOp) -> Option<Pair>
    ensures { IfSome result (λ pair. op.now ≡ Two Or pair.first pair.second) }
{
    match *op {
        NetOp::Two(NetTwo::Or, first, second) => Some(Pair { first, second }),
        _ => None,
    }
}

/// What is known of a node's value.
pub(crate) fn known_at(net: &Net, id: NetId) -> Known
    requires node { id < length net.now }
    requires net { IsNet net.now }
    ensures { (s : Sources) → Feeds s net.now → IsKnown result (node_value s net.now id) }
{
    match constant_at(net, id) {
        Some(value) => known_of(value),
        None => Known::Nothing,
    }
}

/// The value of a node, if it is a constant of one bit.
pub(crate) fn bit_at(net: &Net, id: NetId) -> Option<bool>
    requires node { id < length net.now }
    requires net { IsNet net.now }
    ensures { (s : Sources) → Feeds s net.now → IsKnownBit result (node_value s net.now id) }
{
    match constant_at(net, id) {
        Some(value) => bit_of(value),
        None => None,
    }
}

/// What is known of a node's value where a condition is 1: the condition itself has only ones there.
pub(crate) fn known_if_set(net: &Net, condition: NetId, id: NetId) -> Known
    requires condition { condition < length net.now }
    requires one_bit { width_at (widths_of net.now) condition ≡ 1 }
    requires node { id < length net.now }
    requires net { IsNet net.now }
    ensures { (s : Sources) → Feeds s net.now → (node_value s net.now condition).number ≡ 1
        → IsKnown result (node_value s net.now id) }
{
    if id == condition {
        Known::Ones
    } else {
        known_at(net, id)
    }
}

/// What is known of a node's value where a condition isn't 1: the condition itself is 0 there.
pub(crate) fn known_if_clear(net: &Net, condition: NetId, id: NetId) -> Known
    requires condition { condition < length net.now }
    requires one_bit { width_at (widths_of net.now) condition ≡ 1 }
    requires node { id < length net.now }
    requires net { IsNet net.now }
    ensures { (s : Sources) → Feeds s net.now → (node_value s net.now condition).number ≢ 1
        → IsKnown result (node_value s net.now id) }
{
    if id == condition {
        Known::Zero
    } else {
        known_at(net, id)
    }
}

/// The node that has a node's value where a condition is 1: what it chooses there, if it is a choice by that condition.
pub(crate) fn node_if_set(net: &Net, condition: NetId, id: NetId) -> NetId
    requires node { id < length net.now }
    requires net { IsNet net.now }
    ensures { IsNodeIf net.now (λ (c : BitVector). c.number ≡ 1) condition id result }
{
    match op_at(net, id) {
        NetOp::Ite(by, first, _) if by == condition => first,
        _ => id,
    }
}

/// The node that has a node's value where a condition isn't 1.
pub(crate) fn node_if_clear(net: &Net, condition: NetId, id: NetId) -> NetId
    requires node { id < length net.now }
    requires net { IsNet net.now }
    ensures { IsNodeIf net.now (λ (c : BitVector). c.number ≢ 1) condition id result }
{
    match op_at(net, id) {
        NetOp::Ite(by, _, second) if by == condition => second,
        _ => id,
    }
}

/// Whether one of two nodes is a `not` of the other, or both are comparisons that say the opposite.
pub(crate) fn are_opposite(net: &Net, a: NetId, b: NetId) -> bool
    requires a { a < length net.now }
    requires b { b < length net.now }
    requires net { IsNet net.now }
    ensures { IsTrue result → (s : Sources) → Feeds s net.now → node_value s net.now b ≡ op.not (node_value s net.now a) }
{
    if is_not_of(net, b, a) {
        return true;
    }
    if is_not_of(net, a, b) {
        return true;
    }
    is_opposite_of(net, b, a)
}

// Whether a node is a `not` of another.
fn is_not_of(net: &Net, id: NetId, a: NetId) -> bool
    requires { id < length net.now }
    ensures { IsTrue result → slice_get net.now id ≡ Some (One Not a) }
{
    match not_of(&op_at(net, id)) {
        Some(turned) => turned == a,
        None => false,
    }
}

/// Whether a node is the opposite comparison of another.
pub(crate) fn is_opposite_of(net: &Net, id: NetId, a: NetId) -> bool
    requires node { id < length net.now }
    requires other { a < length net.now }
    requires net { IsNet net.now }
    ensures { IsTrue result → (s : Sources) → Feeds s net.now → node_value s net.now id ≡ op.not (node_value s net.now a) }
{
    let first = op_at(net, a);
    let second = op_at(net, id);
    is_opposite(&first, &second)
}
