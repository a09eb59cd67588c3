//! Circuits: what the value of an operator on two nodes is, by what is known of them, in every net.

ghost use Rattle.std.specs.Prelude.{IsTrue};
ghost use Rattle.net_simplify.specs.inner.Identities.{HoldsOf, IsAsWide, IsNeverBelow, LeavesOnly};
ghost use Rattle.net_graph.specs.declared.node.NetTwo.TheVariants.{And, Or, Xor, Add, Sub, Mul, EqBits, Neq};

use crate::known::Known;
use net_graph::NetTwo;

/// What the value of an operator on two nodes is: that of no simpler node, that of an operand, with its bits turned or
/// not, 0 at the operands' width, or a truth value.
#[derive(Clone, Copy)]
pub(crate) enum Identity {
    Itself,
    First,
    Second,
    NotFirst,
    NotSecond,
    Zero,
    False,
    True,
}

/// The value of an operator on operands of which this is known, and which are the same node or not.
pub(crate) fn identity_of(operator: NetTwo, a: Known, b: Known, same: bool) -> Identity
    ensures holds { HoldsOf operator a b same result }
    ensures width { IsAsWide operator result }
    ensures leaves { LeavesOnly operator same result }
{
    match operator {
        NetTwo::And => conjunction(a, b, same),
        NetTwo::Or => disjunction(a, b, same),
        NetTwo::Xor => exclusion(a, b, same),
        NetTwo::Add => sum(a, b, same),
        NetTwo::Sub => difference(a, b, same),
        NetTwo::Mul => product(a, b, same),
        _ => comparison(operator, a, b, same),
    }
}

// The value of a comparison.
#[tactic(auto, unfolding(net_graph::specs::Operators::two_width, net_graph::specs::Operators::TakesTwo))]
fn comparison(operator: NetTwo, a: Known, b: Known, same: bool) -> Identity
    ensures holds { HoldsOf operator a b same result }
    ensures width { IsAsWide operator result }
{
    match operator {
        NetTwo::EqBits if same => Identity::True,
        NetTwo::Neq if same => Identity::False,
        NetTwo::Ult if is_never_below(a, b, same) => Identity::False,
        NetTwo::Ugt if is_never_below(b, a, same) => Identity::False,
        NetTwo::Ulte if is_never_below(b, a, same) => Identity::True,
        NetTwo::Ugte if is_never_below(a, b, same) => Identity::True,
        NetTwo::Slt if same => Identity::False,
        NetTwo::Sgt if same => Identity::False,
        NetTwo::Slte if same => Identity::True,
        NetTwo::Sgte if same => Identity::True,
        _ => Identity::Itself,
    }
}

#[tactic(auto, unfolding(net_graph::specs::Operators::two_width, net_graph::specs::Operators::TakesTwo))]
fn conjunction(a: Known, b: Known, same: bool) -> Identity
    ensures holds { HoldsOf And a b same result }
    ensures width { IsAsWide And result }
    ensures leaves { LeavesOnly And same result }
{
    match (a, b) {
        (Known::Zero, _) => Identity::First,
        (Known::Ones, _) => Identity::Second,
        (_, Known::Zero) => Identity::Second,
        (_, Known::Ones) => Identity::First,
        _ if same => Identity::First,
        _ => Identity::Itself,
    }
}

#[tactic(auto, unfolding(net_graph::specs::Operators::two_width, net_graph::specs::Operators::TakesTwo))]
fn disjunction(a: Known, b: Known, same: bool) -> Identity
    ensures holds { HoldsOf Or a b same result }
    ensures width { IsAsWide Or result }
    ensures leaves { LeavesOnly Or same result }
{
    match (a, b) {
        (Known::Zero, _) => Identity::Second,
        (Known::Ones, _) => Identity::First,
        (_, Known::Zero) => Identity::First,
        (_, Known::Ones) => Identity::Second,
        _ if same => Identity::First,
        _ => Identity::Itself,
    }
}

#[tactic(auto, unfolding(net_graph::specs::Operators::two_width, net_graph::specs::Operators::TakesTwo))]
fn exclusion(a: Known, b: Known, same: bool) -> Identity
    ensures holds { HoldsOf Xor a b same result }
    ensures width { IsAsWide Xor result }
{
    match (a, b) {
        (Known::Zero, _) => Identity::Second,
        (Known::Ones, _) => Identity::NotSecond,
        (_, Known::Zero) => Identity::First,
        (_, Known::Ones) => Identity::NotFirst,
        _ if same => Identity::Zero,
        _ => Identity::Itself,
    }
}

#[tactic(auto, unfolding(net_graph::specs::Operators::two_width, net_graph::specs::Operators::TakesTwo))]
fn sum(a: Known, b: Known, same: bool) -> Identity
    ensures holds { HoldsOf Add a b same result }
    ensures width { IsAsWide Add result }
{
    match (a, b) {
        (Known::Zero, _) => Identity::Second,
        (_, Known::Zero) => Identity::First,
        _ => Identity::Itself,
    }
}

#[tactic(auto, unfolding(net_graph::specs::Operators::two_width, net_graph::specs::Operators::TakesTwo))]
fn difference(a: Known, b: Known, same: bool) -> Identity
    ensures holds { HoldsOf Sub a b same result }
    ensures width { IsAsWide Sub result }
{
    match b {
        Known::Zero => Identity::First,
        _ if same => Identity::Zero,
        _ => Identity::Itself,
    }
}

#[tactic(auto, unfolding(net_graph::specs::Operators::two_width, net_graph::specs::Operators::TakesTwo))]
fn product(a: Known, b: Known, same: bool) -> Identity
    ensures holds { HoldsOf Mul a b same result }
    ensures width { IsAsWide Mul result }
{
    match (a, b) {
        (Known::Zero, _) => Identity::First,
        (Known::One, _) => Identity::Second,
        (_, Known::Zero) => Identity::Second,
        (_, Known::One) => Identity::First,
        _ => Identity::Itself,
    }
}

// Whether the first number is at least the second, for all values.
fn is_never_below(a: Known, b: Known, same: bool) -> bool
    ensures { IsTrue result → IsNeverBelow a b same }
{
    same || matches!(a, Known::Ones) || matches!(b, Known::Zero)
}
