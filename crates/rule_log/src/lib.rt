//! Logs of the reads and writes of a rule, or of the rules that fired so far in a cycle, as flags and values.
//!
//! `specs/StandsFor.antt` says which lists of events a log stands for. What may be read and written after a log, and
//! what a read sees, is as of every such list, in the words of `typed_core`. The plain engine evaluates rules by it.
#![tactic(auto)]

mod flags;
mod log;

pub use log::{Log, may_read, may_write, seen};
