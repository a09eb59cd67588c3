//! A rule's run by the port rules: each of its reads and writes is let through, answered or refused as it is made, by
//! the logs of the rules that fired before.
//!
//! `run_rule` is the port run of `one_rule`, after every list of events that the scheduler log stands for.
//! `run_logged` is the same in the caller's log and takes no memory of its own; the plain engine calls it.
#![tactic(auto)]

mod ports;
mod run;

pub use run::{LoggedRun, RuleEnd, RuleRun, run_logged, run_rule};
