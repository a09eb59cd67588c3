//! Runs that workers make: the driver begins a core, hands it to a board that workers share, and finishes by itself
//! what they left.
//!
//! Its contracts cite the run of `one_rule` (specs/Run.antt). `specs/inner/Heads.antt` says at which boards it does the job
//! of the head itself. `sim --workers` of `koika_top` calls it for each batch.
#![tactic(auto)]

mod finish;
mod runs;

pub use runs::{WINDOW, run_batch, run_threaded, turns_for};

#[cfg(test)]
mod tests;
