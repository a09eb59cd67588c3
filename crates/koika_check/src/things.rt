//! Checker: what names are declared as.

ghost use Rattle.std.specs.Prelude.{◌≡◌, List, ℕ, None, Some, OnOk, if◌then◌else◌};
ghost use Rattle.std.specs.Str.{bytes_eq};
ghost use Rattle.koika_check.specs.inner.Things.{AreThings, number_if, thing_named};

use kw_base::{Added, Names};
use kw_bits::{NoMemory, Sequence};
use std::alloc::Global;

/// The kinds of what a design declares by a name.
#[derive(Clone, Copy, Debug, PartialEq, Eq)]
pub enum Kind {
    Enum,
    Struct,
    Register,
    Input,
    Table,
    Host,
    Function,
    Rule,
}

/// What a declared name stands for: its kind, and its number among those of the kind.
#[derive(Clone, Copy, Debug, PartialEq, Eq)]
pub(crate) struct Thing {
    pub kind: Kind,
    pub number: u32,
}

/// What the names of a design are declared as.
#[derive(Drop)]
pub(crate) struct Things {
    names: Names,
    // One for each name, by its number.
    things: Sequence<Thing>,
}

impl Things {
    /// Nothing is declared. The names are those of a text.
    pub(crate) fn new(alloc: Global, text: &[u8]) -> Things
        ensures kept { AreThings result }
        ensures none { (name : List ℕ) → thing_named result name ≡ None }
    {
        Things {
            names: Names::of_text(alloc, text),
            things: Sequence::new(alloc),
        }
    }

    /// What the name is declared as.
    pub(crate) fn named(&self, name: &[u8]) -> Option<Thing>
        requires { AreThings self.now }
        ensures { result ≡ thing_named self.now name.now }
    {
        let number = self.names.find(name)?;
        Some(self.things[number as usize])
    }

    /// Declares a name that isn't declared yet. Numbers run out as memory does.
    pub(crate) fn declare(&mut self, name: &[u8], thing: Thing) -> Result<(), NoMemory>
        requires kept { AreThings self.old }
        requires new { thing_named self.old name.now ≡ None }
        ensures kept { OnOk result (AreThings self.new) }
        ensures declares { OnOk result ((other : List ℕ) → thing_named self.new other ≡ (if bytes_eq other name.now then Some thing else thing_named self.old other)) }
    {
        if self.names.len() > u32::MAX as usize {
            return Err(NoMemory);
        }
        match self.names.add(name)? {
            Added::There(_) => Ok(()),
            Added::New(_) => Ok(self.things.push(thing)?),
        }
    }
}

/// The number of what is declared, if it is of this kind.
pub(crate) fn number_if(kind: Kind, thing: Option<Thing>) -> Option<u32>
    ensures { result ≡ number_if kind thing }
{
    match thing {
        Some(thing) if thing.kind == kind => Some(thing.number),
        _ => None,
    }
}
