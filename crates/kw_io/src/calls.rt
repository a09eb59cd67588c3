//! Streams: the numbered calls of a source or a sink in memory, and which of them are listed to fail.

ghost use Rattle.std.specs.Prelude.{◌≡◌, ◌≤◌, ◌↔◌, IsErr, OnOk, OnErr};
ghost use Rattle.kw_io.specs.InMemory.{IsNextListed, after_success};
ghost use Rattle.kw_io.specs.inner.InMemory.{after_failure};
ghost use Rattle.kw_bits.specs.Faults.{one_more};

use crate::failed::Failed;
use std::marker::Model;

// The calls of a source or a sink in memory, numbered from 1 as far as a `u64` counts.
#[derive(Debug, Drop)]
pub(crate) struct Calls {
    made: u64,
    failed: u64,
    failing: Vec<u64>,
}

impl Model for Calls {
    ghost use Rattle.kw_io.specs.InMemory as memory;

    ghost Value = { memory.Calls };

    ghost view = { λ c. record { made = c.made; failed = c.failed; failing = c.failing.items } };
}

impl Calls {
    pub(crate) fn new(failing: Vec<u64>) -> Calls
        ensures { result ≡ record { made = 0; failed = 0; failing = failing.items } }
    {
        Calls {
            made: 0,
            failed: 0,
            failing,
        }
    }

    // Counts a call, and fails where it is listed.
    pub(crate) fn begin(&mut self) -> Result<(), Failed>
        ensures listed { IsErr result ↔ IsNextListed self.old }
        ensures ok { OnOk result (self.new ≡ after_success self.old) }
        ensures err { OnErr result (self.new ≡ after_failure self.old) }
        ensures never_falls { self.old.failed ≤ self.new.failed }
    {
        self.made = self.made.saturating_add(1);
        if self.failing.contains(&self.made) {
            return Err(self.fail());
        }
        Ok(())
    }

    // Counts the failure of a call that was counted.
    pub(crate) fn fail(&mut self) -> Failed
        ensures counted { self.new ≡ record self.old { failed = one_more self.old.failed } }
        ensures never_falls { self.old.failed ≤ self.new.failed }
    {
        self.failed = self.failed.saturating_add(1);
        Failed
    }

    pub(crate) fn made(&self) -> u64
        ensures { result ≡ self.now.made }
    {
        self.made
    }

    pub(crate) fn failed(&self) -> u64
        ensures { result ≡ self.now.failed }
    {
        self.failed
    }
}
