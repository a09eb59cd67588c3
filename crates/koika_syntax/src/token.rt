//! Tokens: a token, its kind and its span.

use crate::{Keyword, Symbol};
use kw_bits::Bits;

/// What a token is. The text of a name is its span of the source.
#[derive(Clone, Copy, Debug, PartialEq, Eq)]
pub enum TokenKind {
    Name,
    Number(u32),
    Literal(Bits),
    Keyword(Keyword),
    Symbol(Symbol),
}

/// A token, and the offsets of its first byte and of the byte after its last.
#[derive(Clone, Copy, Debug, PartialEq, Eq)]
pub struct Token {
    pub kind: TokenKind,
    pub start: u32,
    pub end: u32,
}
