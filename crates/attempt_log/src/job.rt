//! Engines: jobs, and the attempt that does one.

ghost use Rattle.std.specs.Prelude.{◌≡◌, IfOk};
ghost use Rattle.attempt_log.specs.Setting.{FitsItself, attempt_of};

use crate::sources::sources_of;
use crate::traced::Attempt;
use kw_bits::{NoMemory, Sequence};
use one_rule::{Externs, Inputs, Regs, alone};
use std::alloc::Global;
use std::sync::Arc;
use typed_core::Design;

/// A rule to run alone in a cycle, on registers that are a guess.
#[derive(Drop)]
pub struct Job {
    pub design: Arc<Design>,
    pub externs: Arc<Externs>,
    pub cycle: u32,
    pub rule: u32,
    pub inputs: Inputs,
    pub regs: Regs,
}

/// What a board answers to a worker that asks for work.
#[derive(Drop)]
pub enum JobAnswer {
    Job(Job),
    /// There is nothing to do now.
    Idle,
    /// The last cycle is closed.
    Finished,
}

/// The attempt that does the job: its rule runs alone on its registers.
pub fn attempt(alloc: Global, job: &Job) -> Result<Attempt, NoMemory>
    requires { FitsItself job.now }
    ensures { IfOk result (λ a. a ≡ attempt_of job.now) }
{
    let run = alone(
        alloc,
        &job.design,
        &job.externs,
        job.rule,
        &job.inputs,
        &job.regs,
    )?;
    let sources = sources_of(alloc, &job.design, &run.events)?;
    Ok(Attempt {
        design: Arc::try_clone(&job.design)?,
        cycle: job.cycle,
        rule: job.rule,
        inputs: Sequence::from_slice(alloc, job.inputs.as_slice())?,
        run,
        sources,
    })
}
