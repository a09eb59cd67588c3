//! Journals: a run in batches of entries, with the lines of its text.

use attempt_log::Entry;
use kw_bits::Sequence;

/// The calls of a board for the cycles after `from` up to `to`, with their answers, and the line of each in the
/// source.
#[derive(Debug, Drop)]
pub struct Batch {
    pub from: u32,
    pub to: u32,
    /// The line of the batch itself.
    pub line: u32,
    pub entries: Sequence<Entry>,
    /// The lines of the entries.
    pub lines: Sequence<u32>,
}

/// A run: how many workers it had, and its batches in order.
#[derive(Debug, Drop)]
pub struct Journal {
    pub workers: u32,
    /// The line that says how many workers there were.
    pub line: u32,
    pub batches: Sequence<Batch>,
}
