//! Circuits: the kinds of arguments and the bases of numerals.

ghost use Rattle.std.specs.Prelude.{◌≡◌, ◌≤◌};
ghost use Rattle.btor2_text.specs.Forms as forms;

/// The base in which a constant's numeral is written.
#[derive(Clone, Copy, Debug, PartialEq, Eq)]
pub enum Base {
    Binary,
    Decimal,
    Hexadecimal,
}

impl Base {
    /// How many digits the base has.
    pub fn radix(self) -> u32
        ensures value { result ≡ forms.radix_of self }
        ensures least { 2 ≤ result }
        ensures most { result ≤ 36 }
    {
        match self {
            Base::Binary => 2,
            Base::Decimal => 10,
            Base::Hexadecimal => 16,
        }
    }
}

/// What a token after a keyword is.
#[derive(Clone, Copy, Debug, PartialEq, Eq)]
pub enum ArgumentKind {
    /// The word `bitvec`.
    Bitvec,
    /// A width, a bound or a count: decimal digits of a number below 2^32.
    Number,
    /// The id of a sort.
    Sort,
    /// The id of a value.
    Value,
    /// Digits of a base, however many.
    Numeral(Base),
}

impl ArgumentKind {
    /// Whether a minus sign before such a token belongs to a form that is left out.
    pub(crate) fn may_be_negative(self) -> bool
        ensures { result ≡ forms.may_be_negative self }
    {
        matches!(self, ArgumentKind::Value | ArgumentKind::Numeral(_))
    }
}
