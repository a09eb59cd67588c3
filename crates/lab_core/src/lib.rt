//! The lab: why rules fire or don't, cycle by cycle, and what is counted of it over a run.
//!
//! `specs/Trials.antt` says what a trial is and which trials a cycle has, `specs/Why.antt` how they are written.
//! `specs/Numbers.antt` says what is counted of the trials of a run, and `specs/Profiles.antt` how that is written.
//! `slow_trials` is a plain program for the trials. `trials` is the one that the lab's commands use, through `why_cycle`
//! and `Profile`: it takes the registers through the cycle on its way.
#![tactic(auto)]

mod counts;
mod judge;
mod laws;
mod profile;
mod refusal;
mod shown;
mod table;
mod trial;
mod tried;
mod walk;
mod why;

pub use laws::{
    a_run_is_shown_cycle_by_cycle, a_verdict_is_that_on_the_attempt,
    a_verdict_says_whether_the_rule_fires, each_cycle_finds_what_was_left,
};
pub use profile::Profile;
pub use trial::{Trial, TrialVerdict};
pub use walk::{slow_trials, trials};
pub use why::{rule_named, why_cycle};
