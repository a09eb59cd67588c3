//! Circuits: the values of ids within a step.

ghost use Rattle.std.specs.Prelude.{◌≡◌, OnOk, None, nat_eq};
ghost use Rattle.std.specs.Map.{update};
ghost use Rattle.btor2_model.specs.inner.SlowRun.{known_value};

use kw_bits::{Bits, NoMemory};
use std::alloc::Global;
use std::collections::BTreeMap;

/// The values that ids have, as far as they are known.
#[derive(Drop)]
pub(crate) struct KnownValues {
    entries: BTreeMap<u64, Option<Bits>>,
}

impl KnownValues {
    /// No value, which allocates nothing.
    pub(crate) fn new(alloc: Global) -> KnownValues
        ensures { known_value result ≡ (λ _. None) }
    {
        KnownValues {
            entries: BTreeMap::new(alloc),
        }
    }

    /// The value of an id, if it is known.
    pub(crate) fn get(&self, id: u64) -> Option<Bits>
        ensures { result ≡ known_value self.now id }
    {
        match self.entries.get(&id) {
            Some(value) => *value,
            None => None,
        }
    }

    /// Takes the value of an id, or that it isn't known.
    pub(crate) fn set(&mut self, id: u64, value: Option<Bits>) -> Result<(), NoMemory>
        ensures { OnOk result (known_value self.new ≡ update nat_eq (known_value self.old) id value) }
    {
        self.entries.insert(id, value)?;
        Ok(())
    }
}
