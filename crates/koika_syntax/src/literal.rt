//! Tokens: numbers and literals, read digit by digit.

ghost use Rattle.std.specs.Prelude.{◌≡◌, ◌≢◌, ◌<◌, ◌^◌, ◌∷◌, ◌++◌, length, slice_index, IfSome, IfNone, IsTrue};
ghost use Rattle.std.specs.Char.{is_digit};
ghost use Rattle.std.specs.List.{prefix_len};
ghost use Rattle.std.specs.Option.{SomeIff};
ghost use Rattle.std.specs.Str.Parse.{IsNumeral, digits_value};
ghost use Rattle.kw_bits.specs.BitVector.{IsBitVector};
ghost use Rattle.koika_syntax.specs.Lexemes.{letter_of, radix_of};
ghost use Rattle.koika_syntax.specs.Tokens.{IsLiteralOf};
ghost use Rattle.koika_syntax.specs.inner.LexemeAnswers.{IsAnswer};

use crate::TokenKind;
use crate::lexeme::{Flaw, Lexeme};
use kw_base::texts;
use kw_bits::Bits;

/// The base in which digits are written.
#[derive(Clone, Copy, Debug, PartialEq, Eq)]
pub(crate) enum Base {
    Binary,
    Decimal,
    Hexadecimal,
}

impl Base {
    /// The base that a letter names in a literal.
    fn of_letter(letter: u8) -> Option<Base>
        ensures found { IfSome result (λ base. letter ≡ letter_of base) }
        ensures absent { IfNone result ((base : Base) → letter ≢ letter_of base) }
    {
        match letter {
            b'b' => Some(Base::Binary),
            b'd' => Some(Base::Decimal),
            b'h' => Some(Base::Hexadecimal),
            _ => None,
        }
    }

    fn radix(self) -> u32
        ensures { result ≡ radix_of self }
    {
        match self {
            Base::Binary => 2,
            Base::Decimal => 10,
            Base::Hexadecimal => 16,
        }
    }
}

/// What a text begins with whose first byte is a decimal digit: a number, or a literal.
pub(crate) fn numeral(text: &[u8]) -> Result<Lexeme<TokenKind>, Flaw>
    requires some_byte { 0 < length text.now }
    requires digit { IsTrue (is_digit (slice_index text.now 0) 10) }
    ensures { IsAnswer (λ kind. kind) text.now result }
{
    let (digits, behind) = text.split_at(decimal_len(text));
    match behind.strip_prefix(b"'") {
        Some(behind) => literal(digits, behind),
        None => match number_of(digits) {
            Some(number) => Ok(Lexeme {
                kind: TokenKind::Number(number),
                len: digits.len(),
            }),
            None => Err(Flaw::Range),
        },
    }
}

// The literal of this width, whose apostrophe these bytes follow.
fn literal(width: &[u8], behind: &[u8]) -> Result<Lexeme<TokenKind>, Flaw>
    requires { IsNumeral 10 width.now }
    ensures { IsAnswer (λ kind. kind) (width.now ++ 39 ∷ behind.now) result }
{
    let Some((letter, behind)) = behind.split_first() else {
        return Err(Flaw::Byte(width.len() + 1));
    };
    let Some(base) = Base::of_letter(*letter) else {
        return Err(Flaw::Byte(width.len() + 1));
    };
    let len = digits_len(behind, base);
    if len == 0 {
        return Err(Flaw::Byte(width.len() + 2));
    }
    match bits_of(width, base, &behind[..len]) {
        Some(bits) => Ok(Lexeme {
            kind: TokenKind::Literal(bits),
            len: width.len() + 2 + len,
        }),
        None => Err(Flaw::Range),
    }
}

// The number that decimal digits write, if it is below 2^32.
fn number_of(digits: &[u8]) -> Option<u32>
    ensures { SomeIff result (digits_value 10 digits.now < 2 ^ 32) (digits_value 10 digits.now) }
{
    match texts::decimal(digits) {
        Some(number) if number <= u64::from(u32::MAX) => Some(number as u32),
        _ => None,
    }
}

// The bits of a literal of these parts, if they are in range.
fn bits_of(width: &[u8], base: Base, value: &[u8]) -> Option<Bits>
    requires width { IsNumeral 10 width.now }
    requires value { IsNumeral (radix_of base) value.now }
    ensures found { IfSome result (λ bits. IsLiteralOf bits (record { width = width.now; base = base; value = value.now })) }
    ensures absent { IfNone result (¬ IsBitVector (digits_value 10 width.now) (digits_value (radix_of base) value.now)) }
{
    Bits::new(number_of(width)?, texts::number_of(base.radix(), value)?)
}

// How many bytes at the front are decimal digits, of which the first one is.
fn decimal_len(bytes: &[u8]) -> usize
    requires some_byte { 0 < length bytes.now }
    requires digit { IsTrue (is_digit (slice_index bytes.now 0) 10) }
    ensures { result ≡ prefix_len (λ b. is_digit b 10) bytes.now }
{
    let mut len = 1;
    while len < bytes.len() && char::from(bytes[len]).is_digit(10) {
        len += 1;
    }
    len
}

// How many bytes at the front are digits of this base.
fn digits_len(bytes: &[u8], base: Base) -> usize
    ensures { result ≡ prefix_len (λ b. is_digit b (radix_of base)) bytes.now }
{
    let radix = base.radix();
    let mut len = 0;
    while len < bytes.len() && char::from(bytes[len]).is_digit(radix) {
        len += 1;
    }
    len
}
