//! Engines: the runs of the plain engine.

ghost use Rattle.std.specs.Prelude.{◌≡◌, ◌≤◌, IfOk};
ghost use Rattle.typed_core.specs.Valid.{externs_of};
ghost use Rattle.typed_core.specs.Widths.{HaveWidths, register_widths};
ghost use Rattle.one_rule.specs.Cycle.{system_of};
ghost use Rattle.one_rule.specs.Externs.{kept};
ghost use Rattle.one_rule.specs.Rows.{RowsFit};
ghost use Rattle.one_rule.specs.Run.{run, run_of};
ghost use Rattle.one_rule.specs.Stimulus.{StimulusFits, inputs_of};

use crate::cycles::{Logs, next_row};
use kw_bits::{NoMemory, Reserved};
use one_rule::{Externs, Regs, Rows, Stimulus, first_values, opening};
use std::alloc::Global;
use std::mem;
use typed_core::Design;

/// The rows of the first n cycles, from the first values of the registers.
pub fn run(
    alloc: Global,
    design: &Design,
    externs: &Externs,
    stimulus: &Stimulus,
    n: u32,
) -> Result<Rows, NoMemory>
    requires externs { kept externs.now ≡ externs_of design.now }
    requires stimulus { StimulusFits design.now stimulus.now }
    ensures run { IfOk result (λ rows. rows ≡ run_of design.now (inputs_of stimulus.now) n) }
    ensures fit { IfOk result (λ rows. RowsFit design.now rows) }
{
    let regs = first_values(alloc, design)?;
    run_from(alloc, design, externs, stimulus, &regs, 0, n)
}

/// The rows from one cycle to another: these registers, which the first one left, and the rows of those after it.
pub fn run_from(
    alloc: Global,
    design: &Design,
    externs: &Externs,
    stimulus: &Stimulus,
    regs: &Regs,
    from: u32,
    to: u32,
) -> Result<Rows, NoMemory>
    requires externs { kept externs.now ≡ externs_of design.now }
    requires stimulus { StimulusFits design.now stimulus.now }
    requires registers { HaveWidths (register_widths design.now) regs.now }
    requires order { from ≤ to }
    ensures run { IfOk result (λ rows. rows ≡ run (system_of design.now) (inputs_of stimulus.now) regs.now from to) }
    ensures fit { IfOk result (λ rows. RowsFit design.now rows) }
{
    let mut rows = Reserved::with_capacity(alloc, (to - from) as usize + 1)?;
    let mut logs = Logs::new(alloc, design)?;
    let mut last = opening(alloc, design, Regs::from_slice(alloc, regs.as_slice())?)?;
    for before in from..to {
        let inputs = stimulus.inputs(before + 1)?;
        let next = next_row(alloc, design, externs, &inputs, &last.regs, logs)?;
        logs = next.logs;
        rows.push(mem::replace(&mut last, next.row));
    }
    rows.push(last);
    Ok(rows.into_sequence())
}
