//! What a shared board answers to an attempt.

use attempt_log::Attempt;

/// What a shared board answers to an attempt. All but `Stored` hand it back.
#[derive(Drop)]
pub enum SharedSubmitted {
    Stored,
    /// Its cycle is closed, or its rule is settled in it.
    Late(Attempt),
    /// Its cycle is past the window, or past the last one.
    Ahead(Attempt),
    /// Another attempt stands for its cycle and rule.
    Twice(Attempt),
    /// As many attempts as may be were stored.
    Full(Attempt),
    /// It is for another design than the board's, or on other inputs than the stimulus's for its cycle.
    Stranger(Attempt),
}
