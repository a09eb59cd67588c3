//! The plain engine: cycles and runs on one thread.
//!
//! Its cycles are made of port runs, each log of a rule that fires joining the scheduler log, and are the cycles and
//! runs of `one_rule` (specs/Cycle.antt and specs/Run.antt), in which rules run whole. The command that simulates
//! calls it.
#![tactic(auto)]

mod cycles;
mod runs;
mod walk;

pub use cycles::cycle;
pub use runs::{run, run_from};
