//! Checker: what is known while a design is checked.

ghost use Rattle.std.specs.Prelude.{◌≡◌, [], All, length};
ghost use Rattle.kw_bits.specs.Host.{TakesWidth};
ghost use Rattle.koika_check.specs.inner.Checking.{IsChecker, IsNamed, IsTypeOrUnit, arrays_of};
ghost use Rattle.koika_check.specs.Declarations.{nothing};
ghost use Rattle.koika_check.specs.inner.Settled.{IsSettled};
ghost use Rattle.koika_check.specs.inner.Shapes.{IsShape, type_if, type_of_shape};
ghost use Rattle.koika_check.specs.Types.{width_if, width_of};
ghost use Rattle.kw_bits.specs.declared.host.HostSpec.{HostSpec as Spec};

use crate::agreement::Part;
use crate::checked::Checked;
use crate::locals::Locals;
use crate::parts::Parts;
use crate::shapes::{Shape, Shapes};
use crate::things::Things;
use crate::typed::Typed;
use koika_types::Value;
use kw_bits::Sequence;
use std::alloc::Global;
use typed_core::HostSpec;

/// An expression that is well typed.
#[derive(Drop)]
pub(crate) struct Typing {
    pub part: Part,
    pub typed: Typed,
}

/// Expressions that are well typed, in order.
#[derive(Drop)]
pub(crate) struct Typings {
    pub parts: Sequence<Part>,
    pub typed: Sequence<Typed>,
}

/// A constant that is well typed.
#[derive(Drop)]
pub(crate) struct Known {
    pub part: Part,
    pub value: Value,
}

/// What callers of a function see of it.
#[derive(Drop)]
pub(crate) struct Signature {
    pub parameters: Sequence<Shape>,
    pub result: Option<Shape>,
}

/// A design as far as it is checked.
#[derive(Drop)]
pub(crate) struct Checker {
    pub alloc: Global,
    /// The host functions that are handed in.
    pub hosts: Sequence<HostSpec>,
    pub design: Checked,
    pub things: Things,
    pub parts: Parts,
    pub locals: Locals,
    pub shapes: Shapes,
    /// The types of registers and inputs, and those of the fields of structs, by their numbers.
    pub registers: Sequence<Shape>,
    pub inputs: Sequence<Shape>,
    pub fields: Sequence<Sequence<Shape>>,
    pub functions: Sequence<Signature>,
    /// For each rule whether it must not fire.
    pub asserted: Sequence<bool>,
}

impl Checker {
    /// Nothing is declared. The names are those of a text.
    pub(crate) fn new(alloc: Global, text: &[u8], hosts: Sequence<HostSpec>) -> Checker
        requires { All (λ (h : Spec). TakesWidth h.kind h.in_width) hosts }
        ensures settled { IsSettled result }
        ensures design { result.design ≡ nothing }
        ensures hosts { result.hosts ≡ hosts }
    {
        Checker {
            alloc,
            hosts,
            design: Checked {
                enums: Sequence::new(alloc),
                structs: Sequence::new(alloc),
                registers: Sequence::new(alloc),
                inputs: Sequence::new(alloc),
                tables: Sequence::new(alloc),
                hosts: Sequence::new(alloc),
                functions: Sequence::new(alloc),
                rules: Sequence::new(alloc),
                asserts: Sequence::new(alloc),
                nodes: Sequence::new(alloc),
                weight: 0,
            },
            things: Things::new(alloc, text),
            parts: Parts::new(alloc, text),
            locals: Locals::new(alloc, text),
            shapes: Shapes::new(alloc, text),
            registers: Sequence::new(alloc),
            inputs: Sequence::new(alloc),
            fields: Sequence::new(alloc),
            functions: Sequence::new(alloc),
            asserted: Sequence::new(alloc),
        }
    }

    /// How many bits a value of the type has: a struct that is too wide has 129.
    pub(crate) fn width(&self, shape: Shape) -> u32
        requires checker { IsChecker self.now }
        requires known { IsShape (length (arrays_of self.now)) shape }
        requires named { IsNamed self.now.design shape }
        ensures { result ≡ width_of self.now.design (type_of_shape (arrays_of self.now) shape) }
    {
        match shape {
            Shape::Bits(width) => width,
            Shape::Enum(number) => self.design.enums[number as usize].width,
            Shape::Struct(number) => self.design.structs[number as usize].width,
            Shape::Array(number) => self.shapes.array(number).width,
        }
    }

    /// How many bits a value of the type has, 0 where it is unit.
    pub(crate) fn width_if(&self, of: Option<Shape>) -> u32
        requires checker { IsChecker self.now }
        requires known { IsTypeOrUnit self.now of }
        ensures { result ≡ width_if self.now.design (type_if (arrays_of self.now) of) }
    {
        match of {
            Some(shape) => self.width(shape),
            None => 0,
        }
    }
}
