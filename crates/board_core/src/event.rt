//! Engines: the events of a board, and what it returns.

use attempt_log::{Attempt, Settled, Submitted};

/// What may be done to a board, one at a time.
#[derive(Drop)]
pub enum BoardEvent {
    /// An attempt comes.
    Submit(Attempt),
    /// The head is to be settled.
    Settle,
}

/// What a board answers to an event.
#[derive(Drop)]
pub enum BoardAnswer {
    Submit(Submitted),
    Settle(Settled),
}
