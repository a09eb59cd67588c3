//! Checker: local names.

ghost use Rattle.std.specs.Prelude.{◌≡◌, ◌+◌, ◌-◌, ◌<◌, ◌≤◌, List, [], ◌∷◌, ◌++◌, Contains, drop, take, length, None, Some, MatchOption, IfSome, IfOk, OnOk, slice_get};
ghost use Rattle.kw_base.specs.Names.{number_of};
ghost use Rattle.koika_check.specs.inner.Locals.{AreLocals, locals_of, shapes_of};
ghost use Rattle.koika_check.specs.Scopes.{local_named};
ghost use Rattle.koika_check.specs.inner.Shapes.{type_of_shape};
ghost use Rattle.koika_check.specs.declared.typed.ValueType.{ValueType};

use crate::shapes::Shape;
use kw_base::{Added, Names};
use kw_bits::{NoMemory, Sequence};
use std::alloc::Global;

// A name that is bound: its number, its type and the place of the local that it hides.
#[derive(Clone, Copy)]
struct Bound {
    name: u32,
    shape: Shape,
    hides: Option<u32>,
}

/// A local that a name stands for: how many were bound further inside, and its type.
#[derive(Clone, Copy)]
pub(crate) struct Local {
    pub index: u32,
    pub shape: Shape,
}

/// The names that are bound at one place of a design.
#[derive(Drop)]
pub(crate) struct Locals {
    names: Names,
    // For each name, by its number, the place of the innermost local of this name.
    innermost: Sequence<Option<u32>>,
    // The innermost last.
    bound: Sequence<Bound>,
}

impl Locals {
    /// No name is bound. The names are those of a text.
    pub(crate) fn new(alloc: Global, text: &[u8]) -> Locals
        ensures kept { AreLocals result }
        ensures none { result.bound ≡ [] }
    {
        Locals {
            names: Names::of_text(alloc, text),
            innermost: Sequence::new(alloc),
            bound: Sequence::new(alloc),
        }
    }

    /// The innermost local of this name.
    pub(crate) fn named(&self, name: &[u8]) -> Option<Local>
        requires { AreLocals self.now }
        ensures local { (arrays : List ValueType) → MatchOption result (local_named (locals_of arrays self.now) name.now ≡ None)
            (λ local. (local_named (locals_of arrays self.now) name.now ≡ Some local.index)
            × (slice_get (locals_of arrays self.now) local.index ≡ Some (record { name = name.now; of = type_of_shape arrays local.shape }))) }
        ensures shape { IfSome result (λ local. Contains (shapes_of self.now) local.shape) }
    {
        let number = self.names.find(name)?;
        let place = self.innermost[number as usize]?;
        Some(Local {
            index: (self.bound.len() - 1) as u32 - place,
            shape: self.bound[place as usize].shape,
        })
    }

    /// Binds a name inside all others. Numbers run out as memory does.
    pub(crate) fn bind(&mut self, name: &[u8], shape: Shape) -> Result<(), NoMemory>
        requires { AreLocals self.old }
        ensures kept { OnOk result (AreLocals self.new) }
        ensures bound { OnOk result ((arrays : List ValueType) → locals_of arrays self.new ≡ record { name = name.now; of = type_of_shape arrays shape } ∷ locals_of arrays self.old) }
        ensures shapes { OnOk result (shapes_of self.new ≡ shapes_of self.old ++ shape ∷ []) }
    {
        let number = self.number_of(name)?;
        let place = self.bound.len();
        if place > u32::MAX as usize {
            return Err(NoMemory);
        }
        let hides = self.innermost[number as usize];
        self.bound.push(Bound {
            name: number,
            shape,
            hides,
        })?;
        self.innermost.set(number as usize, Some(place as u32));
        Ok(())
    }

    /// How many names are bound.
    pub(crate) fn bound(&self) -> usize
        ensures { result ≡ length self.now.bound }
    {
        self.bound.len()
    }

    /// Unbinds the innermost names but for that many.
    pub(crate) fn leave(&mut self, bound: usize)
        requires kept { AreLocals self.old }
        requires bound { bound ≤ length self.old.bound }
        ensures kept { AreLocals self.new }
        ensures left { (arrays : List ValueType) → locals_of arrays self.new ≡ drop (length self.old.bound - bound) (locals_of arrays self.old) }
        ensures shapes { shapes_of self.new ≡ take bound (shapes_of self.old) }
        ensures count { length self.new.bound ≡ bound }
    {
        while self.bound.len() > bound {
            self.unbind();
        }
    }

    // Unbinds the innermost name.
    fn unbind(&mut self)
        requires kept { AreLocals self.old }
        requires bound { 0 < length self.old.bound }
        ensures kept { AreLocals self.new }
        ensures left { (arrays : List ValueType) → locals_of arrays self.new ≡ drop 1 (locals_of arrays self.old) }
        ensures shapes { shapes_of self.new ≡ take (length self.new.bound) (shapes_of self.old) }
        ensures count { length self.old.bound ≡ length self.new.bound + 1 }
    {
        if let Some(local) = self.bound.pop() {
            self.innermost.set(local.name as usize, local.hides);
        }
    }

    // The number of a name, which is given one if it has none. Numbers run out as memory does.
    fn number_of(&mut self, name: &[u8]) -> Result<u32, NoMemory>
        requires { AreLocals self.old }
        ensures kept { OnOk result (AreLocals self.new) }
        ensures number { IfOk result (λ number. number_of self.new.names name.now ≡ Some number) }
        ensures bound { OnOk result (self.new.bound ≡ self.old.bound) }
        ensures same { OnOk result ((arrays : List ValueType) → locals_of arrays self.new ≡ locals_of arrays self.old) }
    {
        if self.names.len() > u32::MAX as usize {
            return Err(NoMemory);
        }
        match self.names.add(name)? {
            Added::There(number) => Ok(number),
            Added::New(number) => {
                self.innermost.push(None)?;
                Ok(number)
            }
        }
    }
}
