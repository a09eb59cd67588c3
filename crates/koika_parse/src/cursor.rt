//! Trees: how far the tokens have been read.

/// How far the tokens of a text have been read.
#[derive(Clone, Copy, Debug)]
pub(crate) struct Cursor {
    /// How many tokens have been read.
    pub at: usize,
    /// How many brackets are open.
    pub depth: u32,
}
