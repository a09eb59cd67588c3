//! Circuits: the simplest form of an operator over nodes that are simplified already.

// The simplest form of an operator in a net whose operators are simplified.
ghost use Rattle.std.specs.Prelude.{◌≡◌, ◌≢◌, ◌<◌, length, IfSome, IsTrue};
ghost use Rattle.kw_bits.specs.Operators as op;
ghost use Rattle.net_graph.specs.Nets.{IsNet, Stands, widths_of};
ghost use Rattle.net_graph.specs.declared.node.NetOne.TheVariants.{Not};
ghost use Rattle.net_graph.specs.declared.node.NetOp.TheVariants.{Ite, One, Two};
ghost use Rattle.circuit_eval.specs.Tidy.{IsNeeded};
ghost use Rattle.net_simplify.specs.inner.Forms.{Equals, IsForm, IsLean, IsReduction, IsUnit};
ghost use Rattle.net_simplify.specs.declared.form.Form.TheVariants.{Constant, Node};

use crate::choices::{Choice, choice_of};
use crate::factors::factor_of;
use crate::fold::folded;
use crate::identities::{Identity, identity_of};
use crate::implied::value_where;
use crate::nodes::{
    are_opposite, known_at, known_if_clear, known_if_set, node_if_clear, node_if_set, not_of, op_at,
};
use crate::opposites::{of_opposites, opposite_of};
use kw_bits::Bits;
use net_graph::{Net, NetId, NetOne, NetOp, NetTwo};

/// What a node can be in place of an operator: a node that is there already, a constant, or an operator.
#[derive(Clone, Copy)]
pub(crate) enum Form {
    Node(NetId),
    Constant(Bits),
    Operator(NetOp),
}

/// The simplest form of an operator.
pub(crate) fn simplest(net: &Net, op: NetOp) -> Form
    requires stands { Stands (widths_of net.now) op }
    requires lean { IsLean net.now }
    ensures { IsForm net.now op result }
{
    match op {
        NetOp::One(operator, a) => one_form(net, operator, a),
        NetOp::Two(operator, a, b) => two_form(net, operator, a, b),
        NetOp::Ite(condition, a, b) => ite_form(net, condition, a, b),
        _ => other_form(net, op),
    }
}

fn one_form(net: &Net, operator: NetOne, a: NetId) -> Form
    requires stands { Stands (widths_of net.now) (One operator a) }
    requires lean { IsLean net.now }
    ensures { IsForm net.now (One operator a) result }
{
    match operator {
        NetOne::Not => not_form(net, a),
        _ => other_form(net, NetOp::One(operator, a)),
    }
}

// A `not` of a `not` is the node below both, and one of a comparison is the opposite comparison.
fn not_form(net: &Net, a: NetId) -> Form
    requires stands { Stands (widths_of net.now) (One Not a) }
    requires lean { IsLean net.now }
    ensures { IsForm net.now (One Not a) result }
{
    let op = NetOp::One(NetOne::Not, a);
    if let Some(value) = folded(net, &op) {
        return Form::Constant(value);
    }
    let below = op_at(net, a);
    if let Some(b) = not_of(&below) {
        return Form::Node(b);
    }
    if let Some(other) = opposite_of(&below) {
        return Form::Operator(other);
    }
    Form::Operator(op)
}

fn two_form(net: &Net, operator: NetTwo, a: NetId, b: NetId) -> Form
    requires stands { Stands (widths_of net.now) (Two operator a b) }
    requires lean { IsLean net.now }
    ensures { IsForm net.now (Two operator a b) result }
{
    let op = NetOp::Two(operator, a, b);
    if let Some(value) = folded(net, &op) {
        return Form::Constant(value);
    }
    if let Some(value) = opposites_value(net, operator, a, b) {
        return Form::Constant(value);
    }
    if let Some(id) = factor_of(net, operator, a, b) {
        return Form::Node(id);
    }
    if let Some(form) = decided_form(net, operator, a, b) {
        return form;
    }
    match identity_of(operator, known_at(net, a), known_at(net, b), a == b) {
        Identity::Itself => Form::Operator(op),
        Identity::First => Form::Node(a),
        Identity::Second => Form::Node(b),
        Identity::NotFirst => not_form(net, a),
        Identity::NotSecond => not_form(net, b),
        Identity::Zero => Form::Constant(Bits::zero(net.width(a))),
        Identity::False => Form::Constant(Bits::zero(1)),
        Identity::True => Form::Constant(Bits::zero(1).not()),
    }
}

// The value of an operator on a node and a `not` of it, if it is always the same.
fn opposites_value(net: &Net, operator: NetTwo, a: NetId, b: NetId) -> Option<Bits>
    requires stands { Stands (widths_of net.now) (Two operator a b) }
    requires lean { IsLean net.now }
    ensures { IfSome result (λ value. IsForm net.now (Two operator a b) (Constant value)) }
{
    if are_opposite(net, a, b) {
        of_opposites(operator, net.width(a))
    } else {
        None
    }
}

// The form of an `and` or an `or` of two bits of which one decides the other.
fn decided_form(net: &Net, operator: NetTwo, a: NetId, b: NetId) -> Option<Form>
    requires stands { Stands (widths_of net.now) (Two operator a b) }
    requires lean { IsLean net.now }
    ensures { IfSome result (IsForm net.now (Two operator a b)) }
{
    let unit = unit_of(operator)?;
    if net.width(a) != 1 {
        return None;
    }
    if let Some(known) = value_where(net, a, unit, b) {
        return Some(decided(a, unit, known));
    }
    if let Some(known) = value_where(net, b, unit, a) {
        return Some(decided(b, unit, known));
    }
    None
}

// The bit that leaves the other operand of an operator as it is.
fn unit_of(operator: NetTwo) -> Option<bool>
    ensures { IfSome result (IsUnit operator) }
{
    match operator {
        NetTwo::And => Some(true),
        NetTwo::Or => Some(false),
        _ => None,
    }
}

// The form of an operator on a bit and another that is known wherever the first is the operator's unit.
fn decided(id: NetId, unit: bool, known: bool) -> Form
    ensures same { known ≡ unit → result ≡ Node id }
    ensures other { known ≢ unit → result ≡ Constant (op.flag known) }
{
    if known == unit {
        Form::Node(id)
    } else {
        Form::Constant(bit(known))
    }
}

// One bit.
fn bit(value: bool) -> Bits
    ensures { result ≡ op.flag value }
{
    let clear = Bits::zero(1);
    if value { clear.not() } else { clear }
}

// A choice by a `not` is the other choice.
fn ite_form(net: &Net, condition: NetId, a: NetId, b: NetId) -> Form
    requires stands { Stands (widths_of net.now) (Ite condition a b) }
    requires lean { IsLean net.now }
    ensures { IsForm net.now (Ite condition a b) result }
{
    match not_of(&op_at(net, condition)) {
        Some(turned) => nested_form(net, turned, b, a),
        None => nested_form(net, condition, a, b),
    }
}

// Of a choice by the same condition one part is left.
fn nested_form(net: &Net, condition: NetId, a: NetId, b: NetId) -> Form
    requires stands { Stands (widths_of net.now) (Ite condition a b) }
    requires lean { IsLean net.now }
    ensures { IsForm net.now (Ite condition a b) result }
{
    let first = node_if_set(net, condition, a);
    let second = node_if_clear(net, condition, b);
    choice_form(net, condition, first, second)
}

fn choice_form(net: &Net, condition: NetId, a: NetId, b: NetId) -> Form
    requires stands { Stands (widths_of net.now) (Ite condition a b) }
    requires lean { IsLean net.now }
    ensures { IsForm net.now (Ite condition a b) result }
{
    let op = NetOp::Ite(condition, a, b);
    if let Some(value) = folded(net, &op) {
        return Form::Constant(value);
    }
    let first = known_if_set(net, condition, a);
    let second = known_if_clear(net, condition, b);
    let is_bit = net.width(a) == 1;
    match choice_of(known_at(net, condition), first, second, is_bit, a == b) {
        Choice::Itself => Form::Operator(op),
        Choice::First => Form::Node(a),
        Choice::Second => Form::Node(b),
        Choice::Condition => Form::Node(condition),
        Choice::NotCondition => not_form(net, condition),
        Choice::ConditionOrSecond => two_form(net, NetTwo::Or, condition, b),
        Choice::ConditionAndFirst => two_form(net, NetTwo::And, condition, a),
    }
}

// An operator that is needed on all operands.
fn other_form(net: &Net, op: NetOp) -> Form
    requires stands { Stands (widths_of net.now) op }
    requires net { IsNet net.now }
    requires needed { IsNeeded net.now op }
    ensures { IsForm net.now op result }
{
    if let Some(value) = folded(net, &op) {
        return Form::Constant(value);
    }
    match untouched(net, op) {
        Some(a) => Form::Node(a),
        None => Form::Operator(op),
    }
}

// The operand of an operator that leaves it as it is: a slice of all bits, no bits above, a reduction of one bit.
fn untouched(net: &Net, op: NetOp) -> Option<NetId>
    requires stands { Stands (widths_of net.now) op }
    requires net { IsNet net.now }
    ensures stands { IfSome result (λ a. a < length net.now) }
    ensures equals { IfSome result (λ a. Equals net.now op (Node a)) }
{
    match op {
        NetOp::Slice(a, upper, lower) if lower == 0 && upper == net.width(a) - 1 => Some(a),
        NetOp::Uext(a, added) if added == 0 => Some(a),
        NetOp::Sext(a, added) if added == 0 => Some(a),
        NetOp::One(operator, a) if is_reduction(operator) && net.width(a) == 1 => Some(a),
        _ => None,
    }
}

// Whether an operator makes one bit of all.
fn is_reduction(operator: NetOne) -> bool
    ensures { IsTrue result → IsReduction operator }
{
    matches!(operator, NetOne::RedAnd | NetOne::RedOr | NetOne::RedXor)
}
