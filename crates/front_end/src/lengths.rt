//! Programs: the limits on runs.

ghost use Rattle.std.specs.Prelude.{◌≡◌};
ghost use Rattle.front_end.specs.Lengths as lengths;

use koika_check::Checked;

// A run may have this many cycles, and this many register values and rule flags in the cycles of a batch.
const MOST_CYCLES: u64 = 16_777_216;

const MOST_VALUES: usize = 4_194_304;

/// The rows of that many cycles are written together, and then dropped.
pub const BATCH: u32 = 256;

/// Whether a run for these cycles, of a system with that many registers and rules, is longer than runs may be.
pub fn is_too_long(cycles: u64, registers: usize, rules: usize) -> bool
    ensures { result ≡ lengths.is_too_long cycles registers rules }
{
    let kept = cycles.min(BATCH as u64) as usize;
    cycles > MOST_CYCLES
        || kept.saturating_mul(registers) > MOST_VALUES
        || kept.saturating_mul(rules) > MOST_VALUES
}

/// Whether a run of the design for these cycles is longer than runs may be.
pub fn is_too_long_for(cycles: u64, design: &Checked) -> bool
    ensures { result ≡ lengths.is_too_long_for cycles design.now }
{
    is_too_long(cycles, design.registers.len(), design.rules.len())
}
