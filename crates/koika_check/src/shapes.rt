//! Checker: types as numbers.

ghost use Rattle.std.specs.Prelude.{◌≡◌, ◌<◌, ◌^◌, length, [], slice_index_or, IfOk, OnOk, Some};
ghost use Rattle.koika_check.specs.inner.Shapes.{AreShapes, Denotes, Grows, IsShape, array_types, key_of, number_in, type_of_shape};
ghost use Rattle.koika_check.specs.Types as types;

use kw_base::{Added, Names};
use kw_bits::{NoMemory, Sequence};
use std::alloc::Global;

/// A type, told by a number, so that equal types are compared and copied in one step.
#[derive(Clone, Copy, Debug, PartialEq, Eq)]
pub(crate) enum Shape {
    Bits(u32),
    Enum(u32),
    Struct(u32),
    /// The array type of this number.
    Array(u32),
}

/// An array type.
#[derive(Clone, Copy, Debug, PartialEq, Eq)]
pub(crate) struct ArrayShape {
    pub element: Shape,
    pub length: u32,
    pub width: u32,
}

/// The array types that were met, each once.
#[derive(Drop)]
pub(crate) struct Shapes {
    keys: Names,
    arrays: Sequence<ArrayShape>,
}

impl Shapes {
    /// No array types. Those to come are in this text.
    pub(crate) fn new(alloc: Global, text: &[u8]) -> Shapes
        ensures kept { AreShapes result }
        ensures none { result.arrays ≡ [] }
    {
        Shapes {
            keys: Names::of_text(alloc, text),
            arrays: Sequence::new(alloc),
        }
    }

    /// The array type of this number.
    pub(crate) fn array(&self, number: u32) -> ArrayShape
        requires { number < length self.now.arrays }
        ensures { result ≡ slice_index_or self.now.arrays number result }
    {
        self.arrays[number as usize]
    }

    /// The type of this many items of a type. Numbers run out as memory does.
    pub(crate) fn array_of(&mut self, array: ArrayShape) -> Result<Shape, NoMemory>
        requires kept { AreShapes self.old }
        requires known { IsShape (length (array_types [] self.old.arrays)) array.element }
        ensures kept { OnOk result (AreShapes self.new) }
        ensures grows { OnOk result (Grows self.old.arrays array self.new.arrays) }
        ensures denotes { IfOk result (λ shape. Denotes (array_types [] self.new.arrays) shape (Some (types.array array.length (type_of_shape (array_types [] self.old.arrays) array.element)))) }
    {
        if self.keys.len() > u32::MAX as usize {
            return Err(NoMemory);
        }
        match self.keys.add(&key_of(array))? {
            Added::There(number) => Ok(Shape::Array(number)),
            Added::New(number) => {
                self.arrays.push(array)?;
                Ok(Shape::Array(number))
            }
        }
    }
}

// What tells the array type from others.
fn key_of(array: ArrayShape) -> [u8; 9]
    ensures key { result ≡ key_of array }
    ensures fits { (number_in array.element < 2 ^ 32) × (array.length < 2 ^ 32) }
{
    let (tag, number) = match array.element {
        Shape::Bits(width) => (0, width),
        Shape::Enum(number) => (1, number),
        Shape::Struct(number) => (2, number),
        Shape::Array(number) => (3, number),
    };
    let [a, b, c, d] = number.to_le_bytes();
    let [e, f, g, h] = array.length.to_le_bytes();
    [tag, a, b, c, d, e, f, g, h]
}
