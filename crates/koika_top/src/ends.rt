//! Engines: the two ends of a batch.

/// The two ends of a batch, which goes on from one cycle and has those after it up to another.
#[derive(Clone, Copy)]
pub(crate) struct Ends {
    pub(crate) from: u32,
    pub(crate) to: u32,
}
