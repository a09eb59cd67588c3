//! Checker: types as a text names them.

ghost use Rattle.std.specs.Prelude.{◌≡◌, ◌++◌, ◌∷◌, [], ◌&&◌, OnOk};
ghost use Rattle.kw_base.specs.declared.fault_number.TheConstants.{WRONG_WIDTH};
ghost use Rattle.koika_check.specs.inner.Checking.{Grows, IsChecker, IsType, Stands, arrays_of, shape_of, type_by_thing};
ghost use Rattle.koika_check.specs.inner.Outcomes.{Tells};
ghost use Rattle.koika_check.specs.inner.Shapes.{type_of_shape};
ghost use Rattle.koika_check.specs.Types as types;

use crate::checker::Checker;
use crate::shapes::{ArrayShape, Shape};
use crate::stop::{Stop, stop_at};
use crate::things::{Kind, Thing};
use crate::typed::{BaseType, ValueType};
use koika_syntax::{Name, TypeExpression};
use kw_base::fault_number;
use kw_bits::{Bits, Sequence};

/// The longest array has this many items.
const MAX_LENGTH: u32 = 128;

/// A type that a text names.
#[derive(Drop)]
pub(crate) struct NamedType {
    pub of: ValueType,
    pub shape: Shape,
}

// The same without the lengths.
#[derive(Clone, Copy)]
struct Inner {
    base: BaseType,
    shape: Shape,
}

impl Checker {
    /// The type that is written so.
    pub(crate) fn named_type(&mut self, of: &TypeExpression) -> Result<NamedType, Stop>
        requires { IsChecker self.old }
        ensures kept { OnOk result (IsChecker self.new) }
        ensures grows { OnOk result (Grows self.old self.new) }
        ensures locals { OnOk result (self.new.locals ≡ self.old.locals) }
        ensures tells { Tells (λ named of. (named.of ≡ of) × Stands self.new named.shape of) (types.type_of self.old.design of.now) result }
    {
        let mut lengths = Sequence::new(self.alloc);
        let inner = self.inner(of, &mut lengths)?;
        Ok(NamedType {
            of: ValueType {
                base: inner.base,
                lengths,
            },
            shape: inner.shape,
        })
    }

    // The same, whose lengths are put after those of the arrays round it.
    fn inner(&mut self, of: &TypeExpression, lengths: &mut Sequence<u32>) -> Result<Inner, Stop>
        requires { IsChecker self.old }
        ensures kept { OnOk result (IsChecker self.new) }
        ensures grows { OnOk result (Grows self.old self.new) }
        ensures locals { OnOk result (self.new.locals ≡ self.old.locals) }
        ensures tells { Tells (λ inner of. (inner.base ≡ of.base) × (lengths.new ≡ lengths.old ++ of.lengths) × Stands self.new inner.shape of) (types.type_of self.old.design of.now) result }
    {
        match of {
            TypeExpression::Bits(width) => {
                if !is_width(width.number.value) {
                    return Err(stop_at(fault_number::WRONG_WIDTH, width.place));
                }
                Ok(Inner {
                    base: BaseType::Bits(width.number.value),
                    shape: Shape::Bits(width.number.value),
                })
            }
            TypeExpression::Named(name) => self.declared_type(name),
            TypeExpression::Array {
                place,
                element,
                length,
            } => {
                lengths.push(length.value)?;
                let inner = self.inner(element.get(), lengths)?;
                let shape = self.array_type(inner.shape, length.value, *place)?;
                Ok(Inner {
                    base: inner.base,
                    shape,
                })
            }
        }
    }

    // The enum or struct that a name is declared as.
    fn type_of_name(&self, name: &[u8]) -> Option<BaseType>
        requires { IsChecker self.now }
        ensures { result ≡ types.type_named self.now.design name.now }
    {
        base_of(self.things.named(name))
    }

    // The enum or struct of this name.
    fn declared_type(&self, name: &Name) -> Result<Inner, Stop>
        requires { IsChecker self.now }
        ensures { Tells (λ inner of. (inner.base ≡ of.base) × (of.lengths ≡ []) × Stands self.now inner.shape of) (types.named_type self.now.design name.now) result }
    {
        match self.type_of_name(name.text.as_slice()) {
            None => Err(stop_at(fault_number::UNKNOWN_NAME, name.place)),
            Some(base) => {
                let shape = shape_of(base);
                if !is_width(self.width(shape)) {
                    return Err(stop_at(fault_number::WRONG_WIDTH, name.place));
                }
                Ok(Inner { base, shape })
            }
        }
    }

    // The type of this many items of a type.
    fn array_type(&mut self, element: Shape, length: u32, place: u32) -> Result<Shape, Stop>
        requires checker { IsChecker self.old }
        requires element { IsType self.old element }
        ensures kept { OnOk result (IsChecker self.new) }
        ensures grows { OnOk result (Grows self.old self.new) }
        ensures locals { OnOk result (self.new.locals ≡ self.old.locals) }
        ensures tells { Tells (Stands self.new) (types.array_type self.old.design length place (type_of_shape (arrays_of self.old) element)) result }
    {
        if length < 1 || length > MAX_LENGTH {
            return Err(stop_at(fault_number::WRONG_WIDTH, place));
        }
        let width = self.width(element) * length;
        if !is_width(width) {
            return Err(stop_at(fault_number::WRONG_WIDTH, place));
        }
        Ok(
            self.shapes.array_of(ArrayShape {
                element,
                length,
                width,
            })?,
        )
    }
}

// The type that a thing is, if it is one.
fn base_of(thing: Option<Thing>) -> Option<BaseType>
    ensures { result ≡ type_by_thing thing }
{
    let Thing { kind, number } = thing?;
    match kind {
        Kind::Enum => Some(BaseType::Enum(number)),
        Kind::Struct => Some(BaseType::Struct(number)),
        _ => None,
    }
}

// The same type as a shape.
fn shape_of(base: BaseType) -> Shape
    ensures { result ≡ shape_of base }
{
    match base {
        BaseType::Bits(width) => Shape::Bits(width),
        BaseType::Enum(number) => Shape::Enum(number),
        BaseType::Struct(number) => Shape::Struct(number),
    }
}

/// Whether values may have that many bits.
pub(crate) fn is_width(width: u32) -> bool
    ensures { result ≡ types.is_width width }
{
    width >= 1 && width <= Bits::MAX_WIDTH
}
