//! Engines: the cycles of the plain engine, and the logs that they use.

ghost use Rattle.std.specs.Prelude.{◌≡◌, IfOk};
ghost use Rattle.typed_core.specs.Valid.{externs_of};
ghost use Rattle.typed_core.specs.Widths.{HaveWidths, input_widths, register_widths};
ghost use Rattle.one_rule.specs.Cycle.{cycle, system_of};
ghost use Rattle.one_rule.specs.Externs.{kept};
ghost use Rattle.one_rule.specs.Rows.{RowFits};
ghost use Rattle.plain_run.specs.inner.Walking.{AreEmpty};

use crate::walk::{Walking, walk};
use kw_bits::NoMemory;
use one_rule::{Environment, Externs, Inputs, Regs, Row, opening};
use rule_log::Log;
use std::alloc::Global;
use typed_core::Design;

// The logs of a run: that of the rules that fired in a cycle, and that of the rule that is tried, in a box since it is
// handed from call to call. Between cycles they are of no access.
#[derive(Debug, Drop)]
pub(crate) struct Logs {
    pub(crate) sched: Log,
    pub(crate) rule: Box<Log>,
}

impl Logs {
    pub(crate) fn new(alloc: Global, design: &Design) -> Result<Logs, NoMemory>
        ensures { IfOk result (λ logs. AreEmpty design.now logs) }
    {
        Ok(Logs {
            sched: Log::new(alloc, design)?,
            rule: Box::new(alloc, Log::new(alloc, design)?)?,
        })
    }
}

// A row, and the logs of its run.
#[derive(Debug, Drop)]
pub(crate) struct NextRow {
    pub(crate) row: Row,
    pub(crate) logs: Logs,
}

/// The row that a cycle leaves.
pub fn cycle(
    alloc: Global,
    design: &Design,
    externs: &Externs,
    inputs: &Inputs,
    regs: &Regs,
) -> Result<Row, NoMemory>
    requires externs { kept externs.now ≡ externs_of design.now }
    requires inputs { HaveWidths (input_widths design.now) inputs.now }
    requires registers { HaveWidths (register_widths design.now) regs.now }
    ensures cycle { IfOk result (λ row. row ≡ cycle (system_of design.now) inputs.now regs.now) }
    ensures fits { IfOk result (λ row. RowFits design.now row) }
{
    let logs = Logs::new(alloc, design)?;
    let next = next_row(alloc, design, externs, inputs, regs, logs)?;
    Ok(next.row)
}

// The same with the logs of a run, which are handed back. It takes memory for the row alone.
pub(crate) fn next_row(
    alloc: Global,
    design: &Design,
    externs: &Externs,
    inputs: &Inputs,
    regs: &Regs,
    logs: Logs,
) -> Result<NextRow, NoMemory>
    requires externs { kept externs.now ≡ externs_of design.now }
    requires inputs { HaveWidths (input_widths design.now) inputs.now }
    requires registers { HaveWidths (register_widths design.now) regs.now }
    requires logs { AreEmpty design.now logs }
    ensures cycle { IfOk result (λ next. next.row ≡ cycle (system_of design.now) inputs.now regs.now) }
    ensures fits { IfOk result (λ next. RowFits design.now next.row) }
    ensures logs { IfOk result (λ next. AreEmpty design.now next.logs) }
{
    design.recall();
    let Row {
        regs: mut after,
        fired,
    } = opening(alloc, design, Regs::from_slice(alloc, regs.as_slice())?)?;
    let mut walking = Walking {
        sched: logs.sched,
        fired,
        at: design.root(),
    };
    let env = Environment {
        design,
        externs,
        inputs,
    };
    let rule = walk(&env, regs, &mut walking, logs.rule)?;
    let Walking {
        mut sched,
        fired,
        ..
    } = walking;
    sched.apply(&mut after);
    sched.clear();
    Ok(NextRow {
        row: Row { regs: after, fired },
        logs: Logs { sched, rule },
    })
}
