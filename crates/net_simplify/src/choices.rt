//! Circuits: what the value of a choice is, by what is known of its condition and of what is chosen from.

ghost use Rattle.std.specs.Prelude.{true, false};
ghost use Rattle.net_simplify.specs.inner.Identities.{ComesTo, LeavesChoice};
ghost use Rattle.net_simplify.specs.declared.known.Known.TheVariants.{Nothing};

use crate::known::Known;

/// What the value of a choice is: that of no simpler node, of one of its operands, or of an operator on its condition,
/// which is one bit then.
#[derive(Clone, Copy)]
pub(crate) enum Choice {
    Itself,
    First,
    Second,
    Condition,
    NotCondition,
    ConditionOrSecond,
    ConditionAndFirst,
}

/// The value of a choice where this is known of its condition, of what it gives where that is 1, and else.
pub(crate) fn choice_of(condition: Known, a: Known, b: Known, one_bit: bool, same: bool) -> Choice
    ensures comes_to { ComesTo condition a b one_bit same result }
    ensures leaves { LeavesChoice one_bit same result }
{
    match condition {
        Known::Ones => Choice::First,
        Known::Zero => Choice::Second,
        _ if same => Choice::First,
        _ if one_bit => bit_choice(a, b),
        _ => Choice::Itself,
    }
}

// The same where one bit is chosen.
fn bit_choice(a: Known, b: Known) -> Choice
    ensures comes_to { ComesTo Nothing a b true false result }
    ensures leaves { LeavesChoice true false result }
{
    match (a, b) {
        (Known::Ones, Known::Zero) => Choice::Condition,
        (Known::Zero, Known::Ones) => Choice::NotCondition,
        (Known::Ones, _) => Choice::ConditionOrSecond,
        (_, Known::Zero) => Choice::ConditionAndFirst,
        _ => Choice::Itself,
    }
}
