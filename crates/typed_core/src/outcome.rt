//! Core: how a rule ends.

use crate::access::{Access, Events};

/// What stops a rule before its end.
#[derive(Clone, Copy, Debug, PartialEq, Eq)]
pub enum Stopped {
    /// It aborted.
    Abort,
    /// This access was refused. It isn't among the events.
    Refused(Access),
}

/// How a rule that runs alone ends.
#[derive(Clone, Copy, Debug, PartialEq, Eq)]
pub enum Outcome {
    /// It reached its end.
    Done,
    /// It aborted.
    Abort,
    /// It made a write that its own earlier events refuse. The write isn't among the events.
    OwnClash(Access),
}

/// What a rule does on one register state, with no other rule in the cycle.
#[derive(Debug, Drop)]
pub struct Alone {
    pub events: Events,
    pub outcome: Outcome,
}
