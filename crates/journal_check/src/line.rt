//! Journals: what a line says.

use attempt_log::Entry;

/// What a line of a journal says.
#[derive(Debug, Drop)]
pub(crate) enum JournalLine {
    /// How many workers there were.
    Begins { workers: u32 },
    /// The cycles of a batch.
    Batch { from: u32, to: u32 },
    /// A call and its answer.
    Entry(Entry),
}
