//! Texts: names numbered in order of first sight, found by a hash that the text decides.

ghost use Rattle.std.specs.Prelude.{◌≡◌, ◌↔◌, ◌<◌, ◌^◌, IsTrue, length, [], Some, slice_get, IfOk, OnErr};
ghost use Rattle.kw_base.specs.Names.{AreNumbered, number_of, Adds};

use crate::hash::HashOfText;
use indexmap::IndexSet;
use kw_bits::NoMemory;
use std::alloc::Global;
use std::marker::Model;

/// Names, numbered from 0 in order of first sight and seen by contracts as the list of them in that order.
#[derive(Drop)]
pub struct Names {
    seen: IndexSet<Vec<u8>, HashOfText>,
}

impl Model for Names {
    ghost use Rattle.std.specs.Prelude.{List, ℕ, map};
    ghost use Rattle.kw_base.specs.Names.{AreNumbered};

    ghost Value = { List (List ℕ) };

    ghost view = { λ n. map (λ name. name.items) n.seen.keys };

    ghost invariant = { λ n. AreNumbered (map (λ name. name.items) n.seen.keys) };
}

/// The number that a name has after it was added.
#[derive(Clone, Copy, Debug, PartialEq, Eq)]
pub enum Added {
    /// The name was not seen before.
    New(u32),
    /// The name was there already.
    There(u32),
}

impl Names {
    /// No names, which allocates nothing. All such have one hash, so names can be chosen that make it slow:
    /// `of_text` is for names that others choose.
    pub fn new(alloc: Global) -> Names
        ensures { result ≡ [] }
    {
        Names::of_text(alloc, b"")
    }

    /// No names, which allocates nothing, for those of this text. Each text has a hash of its own, so
    /// names can't be chosen that make it slow.
    pub fn of_text(alloc: Global, text: &[u8]) -> Names
        ensures { result ≡ [] }
    {
        Names {
            seen: IndexSet::with_hasher(alloc, HashOfText::new(text)),
        }
    }

    /// Sees a name. One that was there already allocates nothing, and an `Err` leaves the names as they were.
    pub fn add(&mut self, name: &[u8]) -> Result<Added, NoMemory>
        requires { length self.old < 2 ^ 32 }
        ensures numbered { AreNumbered self.new }
        ensures adds { IfOk result (λ added. Adds self.old name.now added self.new) }
        ensures err { OnErr result (self.new ≡ self.old) }
    {
        if let Some(number) = self.find(name) {
            return Ok(Added::There(number));
        }
        let alloc = *self.seen.allocator();
        let number = self.seen.len() as u32;
        self.seen.insert(Vec::from_slice(alloc, name)?)?;
        Ok(Added::New(number))
    }

    /// The number of a name, if it was seen.
    pub fn find(&self, name: &[u8]) -> Option<u32>
        ensures number { result ≡ number_of self.now name.now }
        ensures numbered { AreNumbered self.now }
    {
        match self.seen.get_index_of(name) {
            Some(number) => Some(number as u32),
            None => None,
        }
    }

    /// The name with this number, which was seen.
    pub fn name(&self, number: u32) -> &[u8]
        requires { number < length self.now }
        ensures { slice_get self.now number ≡ Some result.now }
    {
        self.seen.as_slice()[number as usize].as_slice()
    }

    /// How many names there are.
    pub fn len(&self) -> usize
        ensures { result ≡ length self.now }
    {
        self.seen.len()
    }

    /// Whether there are no names.
    pub fn is_empty(&self) -> bool
        ensures { IsTrue result ↔ (self.now ≡ []) }
    {
        self.seen.is_empty()
    }
}
