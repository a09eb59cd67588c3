//! Checker: the types of operators.

ghost use Rattle.std.specs.Prelude.{◌≡◌, List, [], ◌∷◌, Some};
ghost use Rattle.koika_check.specs.Operators as types;
ghost use Rattle.koika_check.specs.Outcomes.{found};
ghost use Rattle.koika_check.specs.inner.Outcomes.{Tells};
ghost use Rattle.koika_check.specs.inner.Shapes.{AreArrays, Denotes, IsShapeIf, part_of};
ghost use Rattle.koika_check.specs.Types.{as_bits, bits, each, is_bits, is_value, wrong_type};
ghost use Rattle.koika_check.specs.declared.typed.ValueType.{ValueType};

use crate::agreement::{Part, agrees, wrong_type};
use crate::shapes::Shape;
use crate::stop::{Stop, Wrong, least, refuse, unless};
use koika_syntax::BinaryOperator;
use kw_base::fault_number;
use kw_bits::{Bits, Failure};

/// The type of an operator between two operands.
pub(crate) fn joined(operator: BinaryOperator, left: Part, right: Part) -> Result<Shape, Stop>
    ensures { (arrays : List ValueType) → AreArrays arrays → IsShapeIf arrays left.of → IsShapeIf arrays right.of
        → Tells (Denotes arrays) (types.operated operator (part_of arrays left) (part_of arrays right)) result }
{
    match operator {
        BinaryOperator::Or
        | BinaryOperator::Xor
        | BinaryOperator::And
        | BinaryOperator::ShiftLeft
        | BinaryOperator::ShiftRight
        | BinaryOperator::ShiftRightSigned
        | BinaryOperator::Add
        | BinaryOperator::Subtract
        | BinaryOperator::Multiply => Ok(Shape::Bits(common_width(left, right)?)),
        BinaryOperator::Less
        | BinaryOperator::LessOrEqual
        | BinaryOperator::Greater
        | BinaryOperator::GreaterOrEqual => compared(left, right),
        BinaryOperator::Equal | BinaryOperator::NotEqual => equated(left, right),
        BinaryOperator::Concat => concatenated(left, right),
    }
}

/// The type of a comparison of numbers.
pub(crate) fn compared(left: Part, right: Part) -> Result<Shape, Stop>
    ensures { (arrays : List ValueType) → AreArrays arrays → IsShapeIf arrays left.of → IsShapeIf arrays right.of
        → Tells (Denotes arrays) (types.compared (part_of arrays left) (part_of arrays right)) result }
{
    common_width(left, right)?;
    Ok(Shape::Bits(1))
}

/// The width of a part that is bits.
pub(crate) fn width_of_bits(part: Part) -> Result<u32, Stop>
    ensures { (arrays : List ValueType) → AreArrays arrays → IsShapeIf arrays part.of
        → Tells (λ width found. width ≡ found) (found (as_bits (part_of arrays part).of) (wrong_type (part_of arrays part))) result }
{
    match part.as_bits() {
        Some(width) => Ok(width),
        None => Err(Failure::Why(wrong_type(part))),
    }
}

// The width of two parts that are bits of one width.
fn common_width(left: Part, right: Part) -> Result<u32, Stop>
    ensures { (arrays : List ValueType) → AreArrays arrays → IsShapeIf arrays left.of → IsShapeIf arrays right.of
        → Tells (λ width of. of ≡ Some (bits width)) (types.calculated (part_of arrays left) (part_of arrays right)) result }
{
    refuse(least(are_bits(left, right), agrees(left.of, right)))?;
    width_of_bits(left)
}

// The type of a test of two values of one type.
fn equated(left: Part, right: Part) -> Result<Shape, Stop>
    ensures { (arrays : List ValueType) → AreArrays arrays → IsShapeIf arrays left.of → IsShapeIf arrays right.of
        → Tells (Denotes arrays) (types.equated (part_of arrays left) (part_of arrays right)) result }
{
    refuse(least(is_value(left, right), agrees(left.of, right)))?;
    Ok(Shape::Bits(1))
}

// The type of two vectors of bits, one above the other.
fn concatenated(left: Part, right: Part) -> Result<Shape, Stop>
    ensures { (arrays : List ValueType) → AreArrays arrays → IsShapeIf arrays left.of → IsShapeIf arrays right.of
        → Tells (Denotes arrays) (types.concatenated (part_of arrays left) (part_of arrays right)) result }
{
    let width = width_of_bits(left)?.saturating_add(width_of_bits(right)?);
    refuse(unless(
        width <= Bits::MAX_WIDTH,
        fault_number::WRONG_WIDTH,
        left.place,
    ))?;
    Ok(Shape::Bits(width))
}

// What is wrong with the first of two parts that isn't bits.
fn are_bits(left: Part, right: Part) -> Option<Wrong>
    ensures { (arrays : List ValueType) → AreArrays arrays → IsShapeIf arrays left.of → IsShapeIf arrays right.of
        → result ≡ each is_bits (part_of arrays left ∷ part_of arrays right ∷ []) }
{
    match (left.as_bits(), right.as_bits()) {
        (Some(_), Some(_)) => None,
        (Some(_), None) => Some(wrong_type(right)),
        (None, _) => Some(wrong_type(left)),
    }
}

// What is wrong with the first of two parts that is unit.
fn is_value(left: Part, right: Part) -> Option<Wrong>
    ensures { (arrays : List ValueType) → result ≡ each is_value (part_of arrays left ∷ part_of arrays right ∷ []) }
{
    match (left.of, right.of) {
        (Some(_), Some(_)) => None,
        (Some(_), None) => Some(wrong_type(right)),
        (None, _) => Some(wrong_type(left)),
    }
}
