//! Engines: what a worker reports.

ghost use Rattle.std.specs.Prelude.{◌≡◌};
ghost use Rattle.attempt_log.specs.declared.report.Ending.TheVariants as ending;

/// Why a worker ended.
#[derive(Clone, Copy, Debug, PartialEq, Eq)]
pub enum Ending {
    /// It took all its turns.
    Turns,
    /// Its seat answered that the board has finished.
    Finished,
    /// It was out of memory.
    NoMemory,
}

/// What a worker did.
#[derive(Clone, Copy, Debug, PartialEq, Eq)]
pub struct Report {
    pub worker: u32,
    /// The turns whose settle was made.
    pub turns: u64,
    /// The attempts that were stored.
    pub submitted: u64,
    /// The settles that committed or skipped a rule, or closed a cycle.
    pub settled: u64,
    pub ending: Ending,
}

impl Report {
    /// Of a worker that hasn't begun.
    pub fn new(worker: u32) -> Report
        ensures { result ≡ record { worker = worker; turns = 0; submitted = 0; settled = 0; ending = ending.Turns } }
    {
        Report {
            worker,
            turns: 0,
            submitted: 0,
            settled: 0,
            ending: Ending::Turns,
        }
    }
}
