//! What a call of a board is entered as, and its receipt.

/// The worker that made an event, and the event's place in the history of its board, modulo 2^64.
#[derive(Clone, Copy, Debug, PartialEq, Eq)]
pub struct Receipt {
    pub worker: u32,
    pub place: u64,
}
