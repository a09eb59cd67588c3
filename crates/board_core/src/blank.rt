//! Engines: rows whose memory is allocated when a board begins.

ghost use Rattle.std.specs.Prelude.{◌≡◌, [], length, IfOk};
ghost use Rattle.board_core.specs.inner.Kept.{IsBlank};

use kw_bits::{Bits, NoMemory, Reserved};
use one_rule::{Regs, Row};
use std::alloc::Global;
use typed_core::Design;

// Room for a row.
#[derive(Drop)]
pub(crate) struct Blank {
    regs: Reserved<Bits>,
    fired: Reserved<bool>,
}

impl Blank {
    // Room for a row of the design.
    pub(crate) fn new(alloc: Global, design: &Design) -> Result<Blank, NoMemory>
        ensures { IfOk result (λ blank. IsBlank design.now blank) }
    {
        Ok(Blank {
            regs: Reserved::with_capacity(alloc, design.regs.len())?,
            fired: Reserved::with_capacity(alloc, design.rules.len())?,
        })
    }

    // The row of these registers and flags.
    pub(crate) fn filled(mut self, regs: &Regs, fired: &[bool]) -> Row
        requires registers { self.regs ≡ record { items = []; capacity = length regs.now } }
        requires flags { self.fired ≡ record { items = []; capacity = length fired.now } }
        ensures { result ≡ record { regs = regs.now; fired = fired.now } }
    {
        self.regs.extend_from_slice(regs.as_slice());
        self.fired.extend_from_slice(fired);
        Row {
            regs: self.regs.into_sequence(),
            fired: self.fired.into_sequence(),
        }
    }
}
