//! Checker: whether types agree, and which fault comes where they don't.

ghost use Rattle.std.specs.Prelude.{◌≡◌, List, map, All, Some, None, IfSome};
ghost use Rattle.koika_check.specs.Outcomes.{wrong};
ghost use Rattle.koika_check.specs.Selections as selections;
ghost use Rattle.koika_check.specs.inner.Shapes.{AreArrays, IsShapeIf, part_of, type_if};
ghost use Rattle.koika_check.specs.Types as types;
ghost use Rattle.kw_base.specs.declared.fault_number.TheConstants.{WRONG_TYPE};
ghost use Rattle.koika_check.specs.declared.shapes.Shape.TheVariants as shape;
ghost use Rattle.koika_check.specs.declared.typed.ValueType.{ValueType};

use crate::shapes::Shape;
use crate::stop::Wrong;
use kw_base::fault_number;

/// A part's type, if it isn't unit, and the place of its first token.
#[derive(Clone, Copy, Debug, PartialEq, Eq)]
pub(crate) struct Part {
    pub of: Option<Shape>,
    pub place: u32,
}

impl Part {
    /// How many bits the part has, where it is bits.
    pub(crate) fn as_bits(&self) -> Option<u32>
        ensures width { (arrays : List ValueType) → AreArrays arrays → IsShapeIf arrays self.now.of → result ≡ types.as_bits (type_if arrays self.now.of) }
        ensures shape { IfSome result (λ width. self.now.of ≡ Some (shape.Bits width)) }
    {
        match self.of {
            Some(Shape::Bits(width)) => Some(width),
            _ => None,
        }
    }

    /// The number of the part's struct, where it is one.
    pub(crate) fn as_struct(&self) -> Option<u32>
        ensures number { (arrays : List ValueType) → AreArrays arrays → IsShapeIf arrays self.now.of → result ≡ types.as_struct (type_if arrays self.now.of) }
        ensures shape { IfSome result (λ number. self.now.of ≡ Some (shape.Struct number)) }
    {
        match self.of {
            Some(Shape::Struct(number)) => Some(number),
            _ => None,
        }
    }

    /// The number of the part's array type, where it is an array.
    pub(crate) fn as_array(&self) -> Option<u32>
        ensures some { IfSome result (λ number. self.now.of ≡ Some (shape.Array number)) }
        ensures none { (arrays : List ValueType) → result ≡ None → selections.as_array (type_if arrays self.now.of) ≡ None }
    {
        match self.of {
            Some(Shape::Array(number)) => Some(number),
            _ => None,
        }
    }
}

/// What is wrong where a part isn't of the wanted type.
pub(crate) fn agrees(wanted: Option<Shape>, part: Part) -> Option<Wrong>
    ensures { (arrays : List ValueType) → AreArrays arrays → IsShapeIf arrays wanted → IsShapeIf arrays part.of
        → result ≡ types.agrees (type_if arrays wanted) (part_of arrays part) }
{
    if wanted == part.of {
        return None;
    }
    let number = match (wanted, part.of) {
        (Some(Shape::Bits(_)), Some(Shape::Bits(_))) => fault_number::WRONG_WIDTH,
        _ => fault_number::WRONG_TYPE,
    };
    Some(Wrong::new(number, part.place))
}

/// What is wrong with the first of the parts that isn't of the wanted type.
pub(crate) fn all_agree(wanted: Option<Shape>, parts: &[Part]) -> Option<Wrong>
    ensures { (arrays : List ValueType) → AreArrays arrays → IsShapeIf arrays wanted → All (λ (p : Part). IsShapeIf arrays p.of) parts.now
        → result ≡ types.each (types.agrees (type_if arrays wanted)) (map (part_of arrays) parts.now) }
{
    for part in parts {
        let wrong = agrees(wanted, *part);
        if wrong.is_some() {
            return wrong;
        }
    }
    None
}

/// What is wrong with the first of the parts that is unit.
pub(crate) fn none_is_unit(parts: &[Part]) -> Option<Wrong>
    ensures { (arrays : List ValueType) → result ≡ types.each types.is_value (map (part_of arrays) parts.now) }
{
    for part in parts {
        if part.of.is_none() {
            return Some(Wrong::new(fault_number::WRONG_TYPE, part.place));
        }
    }
    None
}

/// The fault of a part of the wrong type.
pub(crate) fn wrong_type(part: Part) -> Wrong
    ensures { result ≡ wrong WRONG_TYPE part.place }
{
    Wrong::new(fault_number::WRONG_TYPE, part.place)
}
