//! Engines: the row up to which an engine that runs rule by rule has run.

ghost use Rattle.std.specs.Prelude.{◌≡◌, ◌-◌, ◌<◌, IfOk, OnOk, length, slice_index_or, slice_set};
ghost use Rattle.one_rule.specs.Stimulus.{InputVectors};
ghost use Rattle.koika_top.specs.inner.Engines.{HasRun};

use kw_bits::NoMemory;
use one_rule::{FiredSet, Regs, Row, Rows, first_values, opening};
use std::alloc::Global;
use typed_core::Design;

/// The row before all cycles.
pub(crate) fn first_row(alloc: Global, design: &Design) -> Result<Row, NoMemory>
    ensures { IfOk result (λ last. (stimulus : InputVectors) → HasRun design.now stimulus 0 last) }
{
    design.recall();
    let regs = first_values(alloc, design)?;
    let last = opening(alloc, design, regs)?;
    Ok(last)
}

/// A row of no registers and no rules. It takes no memory.
pub(crate) fn no_row(alloc: Global) -> Row {
    Row {
        regs: Regs::new(alloc),
        fired: FiredSet::new(alloc),
    }
}

/// Puts the row that a batch goes on from first, and returns a copy of the last one.
pub(crate) fn go_on(alloc: Global, rows: &mut Rows, first: Row) -> Result<Row, NoMemory>
    requires { 0 < length rows.old }
    ensures rows { OnOk result (rows.new ≡ slice_set rows.old 0 first) }
    ensures last { IfOk result (λ last. last ≡ slice_index_or rows.new (length rows.old - 1) last) }
{
    rows.set(0, first);
    let last = rows.get(rows.len() - 1);
    Ok(Row {
        regs: Regs::from_slice(alloc, last.regs.as_slice())?,
        fired: FiredSet::from_slice(alloc, last.fired.as_slice())?,
    })
}
