//! The variables that the lines of an AIGER text define, in order.

ghost use Rattle.std.specs.Prelude.{◌≡◌, ◌≤◌, ◌^◌, ◌++◌, ◌∷◌, [], false, length, OnOk};
ghost use Rattle.aiger_text.specs.Places as places;
ghost use Rattle.aiger_text.specs.Places.{is_defined};

use indexmap::IndexSet;
use kw_base::HashOfText;
use kw_bits::NoMemory;
use std::alloc::Global;
use std::marker::Model;

/// Variables, each once, seen by contracts as the list of them in the order in which they were defined. The text
/// decides their hash, so that no text can be made slow by its choice of variables.
#[derive(Drop)]
pub(crate) struct Variables {
    seen: IndexSet<u64, HashOfText>,
}

impl Model for Variables {
    ghost use Rattle.std.specs.Prelude.{List, ℕ};

    ghost Value = { List ℕ };

    ghost view = { λ v. v.seen.keys };
}

impl Variables {
    /// No variables, for those of this text. It takes no memory.
    pub(crate) fn of_text(alloc: Global, text: &[u8]) -> Variables
        ensures { result ≡ [] }
    {
        Variables {
            seen: IndexSet::with_hasher(alloc, HashOfText::new(text)),
        }
    }

    /// How many there are.
    pub(crate) fn len(&self) -> usize
        ensures { result ≡ length self.now }
    {
        self.seen.len()
    }

    /// Whether a variable is defined.
    pub(crate) fn has(&self, variable: u64) -> bool
        ensures { result ≡ is_defined self.now variable }
    {
        self.seen.contains(&variable)
    }

    /// Takes a variable that isn't defined.
    pub(crate) fn add(&mut self, variable: u64) -> Result<(), NoMemory>
        requires { is_defined self.old variable ≡ false }
        ensures { OnOk result (self.new ≡ self.old ++ variable ∷ []) }
    {
        self.seen.insert(variable)?;
        Ok(())
    }

    /// The place of a variable, counted from 1, if it is defined. Variable 0 has place 0.
    pub(crate) fn place_of(&self, variable: u64) -> Option<u64>
        requires { length self.now ≤ 2 ^ 60 }
        ensures { result ≡ places.place_of self.now variable }
    {
        if variable == 0 {
            return Some(0);
        }
        let place = self.seen.get_index_of(&variable)?;
        Some(place as u64 + 1)
    }
}
