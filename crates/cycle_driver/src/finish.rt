//! Engines: a core that workers left at any position is finished by its own calls.

ghost use Rattle.std.specs.Prelude.{◌≡◌, ◌<◌, true, false, IfOk, OnOk};
ghost use Rattle.one_rule.specs.Cycle.{system_of};
ghost use Rattle.one_rule.specs.Rows.{RowsFit};
ghost use Rattle.one_rule.specs.Run.{run};
ghost use Rattle.one_rule.specs.Stimulus.{inputs_of};
ghost use Rattle.board_core.specs.Kept.{left};
ghost use Rattle.cycle_driver.specs.inner.Heads.{AwaitsHead};

use attempt_log::{JobAnswer, Settled, attempt};
use board_core::Core;
use kw_bits::NoMemory;
use one_rule::Rows;
use std::alloc::Global;

/// The rows of a core, which is finished first.
pub(crate) fn finished_rows(alloc: Global, core: Core) -> Result<Rows, NoMemory>
    ensures run { IfOk result (λ rows. let o = core.opening in
        rows ≡ run (system_of o.design) (inputs_of o.stimulus) o.regs o.from o.to) }
    ensures fit { IfOk result (λ rows. RowsFit core.opening.design rows) }
{
    let done = finish(alloc, core)?;
    Ok(done.into_rows())
}

// Settles until the last cycle is closed, and does the job of each head for which no attempt stands.
fn finish(alloc: Global, mut core: Core) -> Result<Core, NoMemory>
    ensures opening { IfOk result (λ done. done.opening ≡ core.opening) }
    ensures finished { IfOk result (λ done. done.opening.to < done.cycle) }
{
    'cycles: while goes_on(alloc, &mut core)? {}
    Ok(core)
}

// Settles a rule, or closes a cycle, and returns whether there was one to close.
fn goes_on(alloc: Global, core: &mut Core) -> Result<bool, NoMemory>
    ensures opening { core.new.opening ≡ core.old.opening }
    ensures less { IfOk result (λ more. more ≡ true → left core.new < left core.old) }
    ensures finished { IfOk result (λ more. more ≡ false → core.new.opening.to < core.new.cycle) }
{
    core.recall();
    match core.settle() {
        Settled::Committed { .. } | Settled::Skipped { .. } | Settled::CycleClosed { .. } => {
            Ok(true)
        }
        Settled::Stale { .. } | Settled::Waiting { .. } => {
            settle_head(alloc, core)?;
            Ok(true)
        }
        Settled::Finished => Ok(false),
    }
}

// Does the job of the head, submits its attempt and settles it.
fn settle_head(alloc: Global, core: &mut Core) -> Result<(), NoMemory>
    requires { AwaitsHead core.old }
    ensures opening { core.new.opening ≡ core.old.opening }
    ensures less { OnOk result (left core.new < left core.old) }
{
    match core.job(0)? {
        JobAnswer::Job(job) => {
            let made = attempt(alloc, &job)?;
            let _ = core.submit(made);
            core.settle();
            Ok(())
        }
        JobAnswer::Idle | JobAnswer::Finished => unreachable!(),
    }
}
