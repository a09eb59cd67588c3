//! Refutations: what is left of a clause.

use crate::literal::Literal;

/// What is left of a clause without the literals that are false: no literal, one, which may be there several times, or
/// more.
#[derive(Clone, Copy, Debug, PartialEq, Eq)]
pub enum Left {
    Nothing,
    One(Literal),
    Several,
}
