//! Checker: suffixes, which select a part of a value.

ghost use Rattle.std.specs.Prelude.{◌≡◌, ◌+◌, ◌^◌, ◌<◌, ◌≤◌, length, All, drop, sum_by, IfOk, Some, None};
ghost use Rattle.koika_check.specs.inner.Checking.{IsChecker, IsPart, IsType, Takes, arrays_of};
ghost use Rattle.koika_check.specs.Composites.{field_named, fields_of, type_at};
ghost use Rattle.koika_check.specs.inner.Outcomes.{Tells};
ghost use Rattle.koika_check.specs.Selections as types;
ghost use Rattle.koika_check.specs.inner.Shapes.{part_of, type_of_shape};
ghost use Rattle.koika_check.specs.Types.{as_bits, width_of};
ghost use Rattle.koika_syntax.specs.declared.tree.Suffix.TheVariants as suffixes;
ghost use Rattle.koika_check.specs.declared.checker.Checker.{Checker as Checking};
ghost use Rattle.koika_check.specs.declared.shapes.Shape.{Shape as Shaped};
ghost use Rattle.koika_check.specs.declared.shapes.Shape.TheVariants as shape;

use crate::agreement::{Part, agrees, wrong_type};
use crate::checker::Checker;
use crate::shapes::Shape;
use crate::stop::{Stop, Wrong, least, refuse, stop_at, unless};
use crate::things::{Kind, Thing};
use crate::typed::Selection;
use koika_syntax::{Name, Number, Suffix};
use kw_base::fault_number;
use kw_bits::{Failure, NoMemory};

/// A part of a value, and its type.
#[derive(Clone, Copy)]
pub(crate) struct Selected {
    pub selection: Selection,
    pub of: Shape,
}

impl Checker {
    /// What a suffix takes of a value.
    pub(crate) fn selected(&self, whole: Part, suffix: &Suffix) -> Result<Selected, Stop>
        requires checker { IsChecker self.now }
        requires whole { IsPart self.now whole }
        ensures { Tells (Takes self.now) (types.select self.now.design (part_of (arrays_of self.now) whole) suffix.now) result }
    {
        match suffix {
            Suffix::Field(name) => self.field(whole, name),
            Suffix::Index(index) => self.index(whole, *index),
            Suffix::Slice { high, low } => slice(whole, *high, *low),
        }
    }

    /// The field of this name.
    pub(crate) fn field(&self, whole: Part, name: &Name) -> Result<Selected, Stop>
        requires checker { IsChecker self.now }
        requires whole { IsPart self.now whole }
        ensures { Tells (Takes self.now) (types.select_field self.now.design (part_of (arrays_of self.now) whole) name.now) result }
    {
        match whole.as_struct() {
            None => Err(Failure::Why(wrong_type(whole))),
            Some(of) => match self.field_of(of, name)? {
                Some(number) => Ok(self.field_at(of, number)),
                None => Err(stop_at(fault_number::WRONG_FIELD, name.place)),
            },
        }
    }

    /// The field of this name in an update, with a new part.
    pub(crate) fn new_field(&self, whole: Part, name: &Name, new: Part) -> Result<Selected, Stop>
        requires checker { IsChecker self.now }
        requires whole { IsPart self.now whole }
        requires new { IsPart self.now new }
        ensures { Tells (Takes self.now) (types.replace_field self.now.design (part_of (arrays_of self.now) whole) name.now (part_of (arrays_of self.now) new)) result }
    {
        let field = self.field(whole, name)?;
        refuse(agrees(Some(field.of), new))?;
        Ok(field)
    }

    /// The item at an index in an update, with a new part.
    pub(crate) fn new_item(&self, whole: Part, index: Number, new: Part) -> Result<Selected, Stop>
        requires checker { IsChecker self.now }
        requires whole { IsPart self.now whole }
        requires new { IsPart self.now new }
        ensures { Tells (Takes self.now) (types.replace_item self.now.design (part_of (arrays_of self.now) whole) index (part_of (arrays_of self.now) new)) result }
    {
        match whole.as_array() {
            None => Err(Failure::Why(wrong_type(whole))),
            Some(number) => {
                let array = self.shapes.array(number);
                let wrong = agrees(Some(array.element), new);
                refuse(least(in_range(index, array.length), wrong))?;
                Ok(self.item_at(array.element, index.value))
            }
        }
    }

    /// The number of the field of this name.
    pub(crate) fn field_of(&self, of: u32, name: &Name) -> Result<Option<u32>, NoMemory>
        requires checker { IsChecker self.now }
        requires declared { of < length self.now.design.structs }
        ensures { IfOk result (λ found. found ≡ field_named (fields_of self.now.design of) name.now.text) }
    {
        let name = name.text.as_slice();
        self.parts.find(
            self.alloc,
            Thing {
                kind: Kind::Struct,
                number: of,
            },
            name,
        )
    }

    // The item of an array, or the bit of bits, at an index.
    fn index(&self, whole: Part, index: Number) -> Result<Selected, Stop>
        requires checker { IsChecker self.now }
        requires whole { IsPart self.now whole }
        ensures { Tells (Takes self.now) (types.select self.now.design (part_of (arrays_of self.now) whole) (suffixes.Index index)) result }
    {
        match whole.as_array() {
            None => bit(whole, index),
            Some(number) => {
                let array = self.shapes.array(number);
                refuse(in_range(index, array.length))?;
                Ok(self.item_at(array.element, index.value))
            }
        }
    }

    // The field of this number. The bits of the later fields are below it.
    fn field_at(&self, of: u32, number: u32) -> Selected
        requires checker { IsChecker self.now }
        requires whole { IsType self.now (shape.Struct of) }
        requires number { number < length (fields_of self.now.design of) }
        ensures { (one : types.Selected) × (types.field_if self.now.design (fields_of self.now.design of) (Some number) (type_at (fields_of self.now.design of) (Some number)) ≡ Some one) × Takes self.now result one }
    {
        let fields = self.fields[of as usize].as_slice();
        let field = fields[number as usize];
        Selected {
            selection: Selection::Field {
                number,
                lowest: self.widths_behind(fields, number as usize),
                width: self.width(field),
            },
            of: field,
        }
    }

    // The widths of the types after one of them together.
    fn widths_behind(&self, shapes: &[Shape], number: usize) -> u32
        requires checker { IsChecker self.now }
        requires each { All (IsType self.now) shapes.now }
        requires within { number < length shapes.now }
        requires few { sum_by (λ (s : Shaped). width_of self.now.design (type_of_shape (arrays_of self.now) s)) (drop (number + 1) shapes.now) ≤ 128 }
        ensures { result ≡ sum_by (λ (s : Shaped). width_of self.now.design (type_of_shape (arrays_of self.now) s)) (drop (number + 1) shapes.now) }
    {
        let mut sum = 0;
        for index in number + 1..shapes.len() {
            sum += self.width(shapes[index]);
        }
        sum
    }

    // The item of this type at an index.
    fn item_at(&self, element: Shape, index: u32) -> Selected
        requires checker { IsChecker self.now }
        requires element { IsType self.now element }
        ensures { Takes self.now result (types.item_at self.now.design index (type_of_shape (arrays_of self.now) element)) }
    {
        Selected {
            selection: Selection::Item {
                index,
                width: self.width(element),
            },
            of: element,
        }
    }
}

/// The bits from the upper bound down to the lower.
pub(crate) fn slice(whole: Part, high: Number, low: Number) -> Result<Selected, Stop>
    ensures { (c : Checking) → IsChecker c → IsPart c whole → Tells (Takes c) (types.select_slice (part_of (arrays_of c) whole) high low) result }
{
    match whole.as_bits() {
        None => Err(Failure::Why(wrong_type(whole))),
        Some(width) => {
            let is_within = low.value <= high.value && high.value < width;
            refuse(unless(is_within, fault_number::WRONG_WIDTH, high.place))?;
            Ok(bits_at(high.value, low.value))
        }
    }
}

// The bit at an index, where the part isn't an array.
fn bit(whole: Part, index: Number) -> Result<Selected, Stop>
    ensures { (c : Checking) → IsChecker c → IsPart c whole → Tells (Takes c) (types.index_of c.design (part_of (arrays_of c) whole) index None (as_bits (part_of (arrays_of c) whole).of)) result }
{
    match whole.as_bits() {
        None => Err(Failure::Why(wrong_type(whole))),
        Some(width) => {
            refuse(in_range(index, width))?;
            Ok(bits_at(index.value, index.value))
        }
    }
}

// The bits from one place down to another.
fn bits_at(high: u32, low: u32) -> Selected
    requires below { low ≤ high }
    requires few { high + 1 < 2 ^ 32 }
    ensures { (c : Checking) → high < 128 → Takes c result (types.bits_at high low) }
{
    Selected {
        selection: Selection::Bits { high, low },
        of: Shape::Bits(high - low + 1),
    }
}

/// What is wrong with an index into that many.
pub(crate) fn in_range(index: Number, length: u32) -> Option<Wrong>
    ensures { result ≡ types.in_range index length }
{
    unless(index.value < length, fault_number::WRONG_WIDTH, index.place)
}
