//! Values: what a table is.

use crate::bit_vector::Bits;
use crate::sequence::Sequence;

/// A table from numbers below 2 to its input width to bit vectors of its output width.
#[derive(Debug, PartialEq, Eq, Drop)]
pub struct TableSpec {
    pub in_width: u32,
    pub out_width: u32,
    pub entries: Sequence<Bits>,
}

impl TableSpec {
    /// An input has at most this many bits.
    pub const MAX_IN_WIDTH: u32 = 12;
}
