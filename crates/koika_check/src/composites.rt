//! Checker: struct and array literals.

ghost use Rattle.std.specs.Prelude.{◌≡◌, ◌∷◌, [], ◌<◌, ◌≤◌, All, List, Some, drop, length, map, IfOk};
ghost use Rattle.kw_base.specs.declared.fault_number.TheConstants.{WRONG_FIELD, WRONG_TYPE};
ghost use Rattle.koika_check.specs.inner.Checking.{AreGiven, Checks, IsChecker, IsGiven, IsPart, IsPartIn, IsType, IsTypeOrUnit, StandsFor, arrays_of, is_next, of_first, scope_of};
ghost use Rattle.koika_check.specs.Composites as types;
ghost use Rattle.koika_check.specs.Outcomes.{earlier, holds, wrong};
ghost use Rattle.koika_check.specs.inner.Outcomes.{Tells};
ghost use Rattle.koika_check.specs.inner.Shapes.{AreArrays, IsShapeIf, part_of, type_if};
ghost use Rattle.koika_check.specs.Types.{each};
ghost use Rattle.koika_check.specs.declared.composites.Given.{Given as Giving};
ghost use Rattle.koika_check.specs.declared.typed.ValueType.{ValueType};
ghost use Rattle.std.specs.Prelude.{nat_le};

use crate::agreement::{Part, agrees, all_agree, none_is_unit};
use crate::checker::Checker;
use crate::shapes::{ArrayShape, Shape};
use crate::stop::{Stop, Wrong, least, refuse, unless};
use crate::types::is_width;
use koika_syntax::Name;
use kw_base::fault_number;
use kw_bits::{Bits, NoMemory};

/// A field that is given: where its name stands, whether this is the declared name at its place, the type of the
/// field of this name, and the value.
#[derive(Clone, Copy)]
pub(crate) struct Given {
    pub place: u32,
    pub is_in_order: bool,
    pub wanted: Option<Shape>,
    pub part: Part,
}

impl Checker {
    /// The struct of these fields, in front of this closing bracket.
    pub(crate) fn struct_of(
        &self,
        number: u32,
        place: u32,
        given: &[Given],
        close: u32,
    ) -> Result<Part, Stop>
        requires checker { IsChecker self.now }
        requires declared { number < length self.now.design.structs }
        ensures { (fields : List types.Given) → AreGiven self.now (types.fields_of self.now.design number) (types.fields_of self.now.design number) given.now fields
            → Tells (StandsFor self.now) (types.struct_of self.now.design number place fields close) result }
    {
        let shape = Shape::Struct(number);
        let declared = self.design.structs[number as usize].fields.len();
        let fits = unless(
            is_width(self.width(shape)),
            fault_number::WRONG_WIDTH,
            place,
        );
        let values = least(wrong_value(given), fits);
        refuse(least(wrong_name(given, declared, close), values))?;
        Ok(Part {
            of: Some(shape),
            place,
        })
    }

    /// A value that the field of this name is given, after that many others.
    pub(crate) fn given(
        &self,
        number: u32,
        name: &Name,
        index: usize,
        part: Part,
    ) -> Result<Given, NoMemory>
        requires checker { IsChecker self.now }
        requires declared { number < length self.now.design.structs }
        requires part { IsPart self.now part }
        ensures { IfOk result (λ given. IsGiven self.now (types.fields_of self.now.design number) (drop index (types.fields_of self.now.design number)) given (record { name = name.now; part = part_of (arrays_of self.now) part })) }
    {
        Ok(Given {
            place: name.place,
            is_in_order: self.is_next(number, name, index),
            wanted: self.type_of_field(number, name)?,
            part,
        })
    }

    // Whether the field after that many others has this name.
    fn is_next(&self, number: u32, name: &Name, index: usize) -> bool
        requires declared { number < length self.now.design.structs }
        ensures { result ≡ is_next (drop index (types.fields_of self.now.design number)) name.now.text }
    {
        let fields = self.design.structs[number as usize].fields.as_slice();
        match fields.get(index) {
            Some(field) => field.name.as_slice() == name.text.as_slice(),
            None => false,
        }
    }

    // The type of the field of this name, if there is one.
    fn type_of_field(&self, number: u32, name: &Name) -> Result<Option<Shape>, NoMemory>
        requires checker { IsChecker self.now }
        requires declared { number < length self.now.design.structs }
        ensures { IfOk result (λ of. (type_if (arrays_of self.now) of ≡ types.type_at (types.fields_of self.now.design number) (types.field_named (types.fields_of self.now.design number) name.now.text)) × IsTypeOrUnit self.now of) }
    {
        match self.field_of(number, name)? {
            Some(field) => Ok(Some(self.fields[number as usize][field as usize])),
            None => Ok(None),
        }
    }

    /// The array of these elements, whose opening bracket is at this place.
    pub(crate) fn array_of(&mut self, place: u32, parts: &[Part]) -> Result<Part, Stop>
        requires checker { IsChecker self.old }
        requires each { All (IsPart self.old) parts.now }
        ensures { Checks (IsPartIn (scope_of self.old)) self.old (types.array_of self.old.design place (map (part_of (arrays_of self.old)) parts.now)) self.new result }
    {
        match type_of_first(parts) {
            Some(element) => self.array_of_items(place, element, parts),
            None => {
                let wrong = Some(Wrong::new(fault_number::WRONG_TYPE, place));
                refuse(least(none_is_unit(parts), wrong))?;
                Ok(Part { of: None, place })
            }
        }
    }

    // The array of these elements, the first of which has this type.
    fn array_of_items(&mut self, place: u32, element: Shape, parts: &[Part]) -> Result<Part, Stop>
        requires checker { IsChecker self.old }
        requires element { IsType self.old element }
        requires each { All (IsPart self.old) parts.now }
        requires some { 1 ≤ length parts.now }
        ensures { Checks (IsPartIn (scope_of self.old)) self.old (types.array_by self.old.design place (type_if (arrays_of self.old) (Some element)) (map (part_of (arrays_of self.old)) parts.now)) self.new result }
    {
        let length = parts.len().min(Bits::MAX_WIDTH as usize + 1) as u32;
        let width = self.width(element) * length;
        let fits = unless(is_width(width), fault_number::WRONG_WIDTH, place);
        let items = least(all_agree(Some(element), parts), fits);
        refuse(least(none_is_unit(parts), items))?;
        let array = ArrayShape {
            element,
            length,
            width,
        };
        Ok(Part {
            of: Some(self.shapes.array_of(array)?),
            place,
        })
    }
}

/// The type of the first part.
pub(crate) fn type_of_first(parts: &[Part]) -> Option<Shape>
    ensures of { (arrays : List ValueType) → type_if arrays result ≡ types.type_of_first (map (part_of arrays) parts.now) }
    ensures first { result ≡ of_first parts.now }
{
    match parts.first() {
        Some(first) => first.of,
        None => None,
    }
}

// What is wrong with the first value that isn't of the type of the field of its name.
fn wrong_value(given: &[Given]) -> Option<Wrong>
    ensures { (arrays : List ValueType) → AreArrays arrays → All (λ (g : Giving). IsShapeIf arrays g.wanted × IsShapeIf arrays g.part.of) given.now
        → result ≡ each (λ (g : Giving). types.agrees_if (type_if arrays g.wanted) (part_of arrays g.part)) given.now }
{
    for field in given {
        let wrong = field_value(*field);
        if wrong.is_some() {
            return wrong;
        }
    }
    None
}

// What is wrong with a value that isn't of the type of the field of its name.
fn field_value(given: Given) -> Option<Wrong>
    ensures { (arrays : List ValueType) → AreArrays arrays → IsShapeIf arrays given.wanted → IsShapeIf arrays given.part.of
        → result ≡ types.agrees_if (type_if arrays given.wanted) (part_of arrays given.part) }
{
    match given.wanted {
        None => None,
        Some(wanted) => agrees(Some(wanted), given.part),
    }
}

// What is wrong with the names of the given fields, of which there are to be that many.
fn wrong_name(given: &[Given], declared: usize, close: u32) -> Option<Wrong>
    ensures { result ≡ earlier (each (λ (g : Giving). holds g.is_in_order (wrong WRONG_FIELD g.place)) given.now) (holds (nat_le declared (length given.now)) (wrong WRONG_FIELD close)) }
{
    for field in given {
        if !field.is_in_order {
            return Some(Wrong::new(fault_number::WRONG_FIELD, field.place));
        }
    }
    unless(declared <= given.len(), fault_number::WRONG_FIELD, close)
}
