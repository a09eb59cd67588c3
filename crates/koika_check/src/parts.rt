//! Checker: members of enums and fields of structs.

ghost use Rattle.std.specs.Prelude.{◌≡◌, List, ℕ, None, Some, IfOk, OnOk, IsTrue, ◌↔◌, if◌then◌else◌};
ghost use Rattle.std.specs.Str.{bytes_eq};
ghost use Rattle.koika_check.specs.inner.Things.{AreParts, key_of_part, position_of};
ghost use Rattle.koika_check.specs.declared.things.Thing.{Thing};

use crate::things::Thing;
use kw_base::{Added, Names};
use kw_bits::{NoMemory, Sequence, Text};
use std::alloc::Global;

/// The members of enums and the fields of structs, by the declaration and the name.
#[derive(Drop)]
pub(crate) struct Parts {
    keys: Names,
    // One for each key, by its number.
    positions: Sequence<u32>,
}

impl Parts {
    /// No part. The names are those of a text.
    pub(crate) fn new(alloc: Global, text: &[u8]) -> Parts
        ensures kept { AreParts result }
        ensures none { (of : Thing) (name : List ℕ) → position_of result of name ≡ None }
    {
        Parts {
            keys: Names::of_text(alloc, text),
            positions: Sequence::new(alloc),
        }
    }

    /// Adds the part of this name at a position of a declaration, and tells whether it is the first of this name. Numbers
    /// run out as memory does.
    pub(crate) fn add(
        &mut self,
        alloc: Global,
        of: Thing,
        name: &[u8],
        position: u32,
    ) -> Result<bool, NoMemory>
        requires { AreParts self.old }
        ensures kept { OnOk result (AreParts self.new) }
        ensures first { IfOk result (λ is_first. IsTrue is_first ↔ (position_of self.old of name.now ≡ None)) }
        ensures added { IfOk result (λ is_first. (other : Thing) (part : List ℕ) → position_of self.new other part
            ≡ (if is_first then if bytes_eq (key_of_part other part) (key_of_part of name.now) then Some position else position_of self.old other part else position_of self.old other part)) }
    {
        let key = key_of_part(alloc, of, name)?;
        if self.keys.len() > u32::MAX as usize {
            return Err(NoMemory);
        }
        match self.keys.add(key.as_slice())? {
            Added::There(_) => Ok(false),
            Added::New(_) => {
                self.positions.push(position)?;
                Ok(true)
            }
        }
    }

    /// The position of the part of this name.
    pub(crate) fn find(
        &self,
        alloc: Global,
        of: Thing,
        name: &[u8],
    ) -> Result<Option<u32>, NoMemory>
        requires { AreParts self.now }
        ensures { IfOk result (λ found. found ≡ position_of self.now of name.now) }
    {
        let key = key_of_part(alloc, of, name)?;
        match self.keys.find(key.as_slice()) {
            Some(number) => Ok(Some(self.positions[number as usize])),
            None => Ok(None),
        }
    }
}

// What tells a part from those of other declarations and names.
fn key_of_part(alloc: Global, of: Thing, name: &[u8]) -> Result<Text, NoMemory>
    ensures { IfOk result (λ key. key ≡ key_of_part of name.now) }
{
    let [a, b, c, d] = of.number.to_le_bytes();
    let mut key = Text::from_slice(alloc, &[of.kind as u8, a, b, c, d])?;
    key.extend_from_slice(name)?;
    Ok(key)
}
