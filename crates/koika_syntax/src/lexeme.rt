//! Tokens: what the readers of one lexeme return.

ghost use Rattle.koika_syntax.specs.inner.LexemeAnswers.{number_of, offset_of};
ghost use Rattle.std.specs.Prelude.{◌≡◌};

use kw_base::fault_number;

/// What a text begins with, and how many bytes it takes.
#[derive(Clone, Copy, Debug)]
pub(crate) struct Lexeme<K> {
    pub kind: K,
    pub len: usize,
}

/// Why a text begins with no token, no blank and no comment.
#[derive(Clone, Copy, Debug)]
pub(crate) enum Flaw {
    /// The byte at this offset begins or continues no token.
    Byte(usize),
    /// The number or the literal is out of its range.
    Range,
    /// The name is too long.
    LongName,
}

impl Flaw {
    /// The number of the fault.
    pub(crate) fn number(self) -> u32
        ensures { result ≡ number_of self }
    {
        match self {
            Flaw::Byte(_) => fault_number::NO_TOKEN,
            Flaw::Range => fault_number::NUMBER_OUT_OF_RANGE,
            Flaw::LongName => fault_number::NAME_TOO_LONG,
        }
    }

    /// How far after the text's first byte the fault is.
    pub(crate) fn offset(self) -> usize
        ensures { result ≡ offset_of self }
    {
        match self {
            Flaw::Byte(offset) => offset,
            Flaw::Range | Flaw::LongName => 0,
        }
    }
}
