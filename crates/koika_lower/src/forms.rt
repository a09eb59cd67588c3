//! Lowering: operators between two operands as the core has them.

ghost use Rattle.std.specs.Prelude.{◌≡◌, ◌≤◌, ℕ, IfOk, false, true};
ghost use Rattle.kw_bits.specs.BitVector.{BitVector};
ghost use Rattle.koika_check.specs.Meaning.{binary_value, comparison_value};
ghost use Rattle.koika_check.specs.Typing.{Compares, Operates};
ghost use Rattle.koika_lower.specs.inner.Forms.{FormFits, IsFormed, form_value};
ghost use Rattle.typed_core.specs.Valid.{TwoHasWidth};

use crate::lowered::{Lowered, one, two};
use koika_syntax::{BinaryOperator, SignedComparison};
use kw_bits::NoMemory;
use std::alloc::Global;
use typed_core::{OneOp, TwoOp};

/// An operator of the core between two operands, whose bits may be turned after it. So a comparison that the core
/// lacks is the contrary of one that it has, and the operands stay in their order.
#[derive(Clone, Copy)]
pub(crate) struct Form {
    pub operator: TwoOp,
    pub is_turned: bool,
}

/// The form of an operator between two operands.
pub(crate) fn form_of(operator: BinaryOperator) -> Form
    ensures value { (x y : BitVector) → form_value result x y ≡ binary_value operator x y }
    ensures fits { FormFits (Operates operator) result }
{
    match operator {
        BinaryOperator::Or => plain(TwoOp::Or),
        BinaryOperator::Xor => plain(TwoOp::Xor),
        BinaryOperator::And => plain(TwoOp::And),
        BinaryOperator::Equal => plain(TwoOp::EqBits),
        BinaryOperator::NotEqual => turned(TwoOp::EqBits),
        BinaryOperator::Less => plain(TwoOp::Ult),
        BinaryOperator::LessOrEqual => plain(TwoOp::Ulte),
        BinaryOperator::Greater => turned(TwoOp::Ulte),
        BinaryOperator::GreaterOrEqual => turned(TwoOp::Ult),
        BinaryOperator::Concat => plain(TwoOp::Concat),
        BinaryOperator::ShiftLeft => plain(TwoOp::Sll),
        BinaryOperator::ShiftRight => plain(TwoOp::Srl),
        BinaryOperator::ShiftRightSigned => plain(TwoOp::Sra),
        BinaryOperator::Add => plain(TwoOp::Add),
        BinaryOperator::Subtract => plain(TwoOp::Sub),
        BinaryOperator::Multiply => plain(TwoOp::Mul),
    }
}

/// The form of a comparison of signed numbers.
pub(crate) fn form_of_comparison(comparison: SignedComparison) -> Form
    ensures value { (x y : BitVector) → form_value result x y ≡ comparison_value comparison x y }
    ensures fits { FormFits Compares result }
{
    match comparison {
        SignedComparison::Less => plain(TwoOp::Slt),
        SignedComparison::LessOrEqual => plain(TwoOp::Slte),
        SignedComparison::Greater => turned(TwoOp::Slte),
        SignedComparison::GreaterOrEqual => turned(TwoOp::Slt),
    }
}

fn plain(operator: TwoOp) -> Form
    ensures { result ≡ record { operator = operator; is_turned = false } }
{
    Form {
        operator,
        is_turned: false,
    }
}

fn turned(operator: TwoOp) -> Form
    ensures { result ≡ record { operator = operator; is_turned = true } }
{
    Form {
        operator,
        is_turned: true,
    }
}

/// The form on two operands.
pub(crate) fn formed(
    alloc: Global,
    form: Form,
    left: Lowered,
    right: Lowered,
) -> Result<Lowered, NoMemory>
    ensures { IfOk result (IsFormed form left right) }
{
    let width = width_of(form.operator, left.width, right.width);
    let action = two(alloc, form.operator, left.action, right.action)?;
    if form.is_turned {
        let action = one(alloc, OneOp::Not, action)?;
        Ok(Lowered { action, width })
    } else {
        Ok(Lowered { action, width })
    }
}

// The width of an operator's value on operands of these widths.
fn width_of(operator: TwoOp, left: u32, right: u32) -> u32
    ensures { (width : ℕ) → TwoHasWidth operator left right width → width ≤ 128 → result ≡ width }
{
    match operator {
        TwoOp::Concat => left.saturating_add(right),
        TwoOp::EqBits | TwoOp::Ult | TwoOp::Ulte | TwoOp::Slt | TwoOp::Slte => 1,
        _ => left,
    }
}
