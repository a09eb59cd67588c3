//! Circuits: a line of BTOR2 and its arguments.

use crate::Keyword;
use kw_bits::{Sequence, Text};

/// What comes after a line's keyword.
#[derive(Debug, Drop)]
pub enum Argument {
    /// The word `bitvec`.
    Bitvec,
    /// The id of a sort or a value, from 1.
    Id(u64),
    /// A width, a bound or a count.
    Number(u32),
    /// The digits of a constant, as they were written.
    Numeral(Text),
}

/// A line: its id, its form, what it names, its symbol, and its number in the text, from 1 to 4,294,967,295, which all
/// lines after keep.
#[derive(Debug, Drop)]
pub struct Line {
    pub id: u64,
    pub keyword: Keyword,
    pub arguments: Sequence<Argument>,
    pub symbol: Option<Text>,
    pub number: u32,
}

/// Lines in order.
pub type Lines = Sequence<Line>;
