//! Texts: bytes cut into lines, words and pieces, and the numbers that digits write.
//!
//! `specs/Texts.antt` defines what a line, a word and a numeral is. Every reader of a text calls these functions.

ghost use Rattle.std.specs.Prelude.{◌≡◌, ◌↔◌, ◌*◌, ◌+◌, ◌<◌, ◌≤◌, ◌^◌, ◌++◌, ◌∷◌, [], ℕ, false, length};
ghost use Rattle.std.specs.Prelude.{All, IfSome, IfNone, IsTrue};
ghost use Rattle.std.specs.Char.{digit_value, is_digit};
ghost use Rattle.std.specs.List.{AllPass, before_first, list_all, slice_split};
ghost use Rattle.std.specs.Option.{SomeIff};
ghost use Rattle.std.specs.Str.Parse.{IsNumeral, digits_value};
ghost use Rattle.kw_base.specs.Texts as texts;
ghost use Rattle.kw_base.specs.Texts.{BeginsWith, StopsAt, is_blank, lines_of, pieces_after, rest_of, separates};
ghost use Rattle.kw_base.specs.Texts.{whole_lines, words_from, words_of};

/// The bytes at which a text is cut.
#[derive(Clone, Copy, Debug, PartialEq, Eq)]
pub enum Separator {
    LineFeed,
    Space,
    /// A space or a tab.
    Blank,
    /// A space, a tab or a carriage return.
    BlankOrReturn,
    Semicolon,
}

impl Separator {
    /// Whether a text is cut at this byte.
    pub fn is(self, byte: u8) -> bool
        ensures { result ≡ separates self byte }
    {
        match self {
            Separator::LineFeed => byte == b'\n',
            Separator::Space => byte == b' ',
            Separator::Blank => byte == b' ' || byte == b'\t',
            Separator::BlankOrReturn => byte == b' ' || byte == b'\t' || byte == b'\r',
            Separator::Semicolon => byte == b';',
        }
    }
}

/// The bytes before the first separator, and the rest, which begins with it.
pub fn split_before(bytes: &[u8], at: Separator) -> (&[u8], &[u8])
    ensures parts { bytes.now ≡ result.0.now ++ result.1.now }
    ensures front { All (λ b. separates at b ≡ false) result.0.now }
    ensures rest { BeginsWith (separates at) result.1.now }
{
    let end = bytes.iter().position(|byte| at.is(*byte));
    bytes.split_at(end.unwrap_or(bytes.len()))
}

/// The bytes before the first separator, or all of them.
pub fn before_first(bytes: &[u8], at: Separator) -> &[u8]
    ensures { result.now ≡ before_first (separates at) bytes.now }
{
    split_before(bytes, at).0
}

// The separators that some bytes begin with, and the rest.
fn split_separators(bytes: &[u8], at: Separator) -> (&[u8], &[u8])
    ensures parts { bytes.now ≡ result.0.now ++ result.1.now }
    ensures front { AllPass (separates at) result.0.now }
    ensures rest { StopsAt (separates at) result.1.now }
{
    let end = bytes.iter().position(|byte| !at.is(*byte));
    bytes.split_at(end.unwrap_or(bytes.len()))
}

/// The first piece of some bytes, and what comes after the separator that ends it, if one does.
pub fn cut(bytes: &[u8], at: Separator) -> (&[u8], Option<&[u8]>)
    ensures pieces { slice_split (separates at) bytes.now ≡ result.0.now ∷ pieces_after at result.1 }
    ensures shorter { IfSome result.1 (λ rest. length rest.now < length bytes.now) }
{
    let (piece, after) = split_before(bytes, at);
    match after.split_first() {
        Some((_, rest)) => (piece, Some(rest)),
        None => (piece, None),
    }
}

/// A line of a text, and the bytes after it.
#[derive(Clone, Copy)]
pub struct Line<'a> {
    pub bytes: &'a [u8],
    pub rest: &'a [u8],
}

/// The first line of a text, if it has a byte, without the carriage return at its end.
pub fn next_line(text: &[u8]) -> Option<Line<'_>>
    ensures found { IfSome result (λ line. lines_of text.now ≡ line.bytes.now ∷ lines_of line.rest.now) }
    ensures shorter { IfSome result (λ line. length line.rest.now < length text.now) }
    ensures absent { IfNone result (lines_of text.now ≡ []) }
{
    let Some(line) = next_whole_line(text) else {
        return None;
    };
    Some(Line {
        bytes: without_return(line.bytes),
        rest: line.rest,
    })
}

/// The first line of a text, if it has a byte, with the carriage returns at its end.
pub fn next_whole_line(text: &[u8]) -> Option<Line<'_>>
    ensures found { IfSome result (λ line. whole_lines text.now ≡ line.bytes.now ∷ whole_lines line.rest.now) }
    ensures shorter { IfSome result (λ line. length line.rest.now < length text.now) }
    ensures absent { IfNone result (whole_lines text.now ≡ []) }
{
    if text.is_empty() {
        return None;
    }
    let (bytes, after) = cut(text, Separator::LineFeed);
    let Some(rest) = after else {
        return Some(Line { bytes, rest: &[] });
    };
    Some(Line { bytes, rest })
}

/// A line without the carriage return at its end.
pub fn without_return(line: &[u8]) -> &[u8]
    ensures { result.now ≡ texts.without_return line.now }
{
    match line.split_last() {
        Some((b'\r', front)) => front,
        _ => line,
    }
}

/// A word, how many separators come before it, and the bytes after it.
#[derive(Clone, Copy)]
pub struct Word<'a> {
    pub blanks: usize,
    pub bytes: &'a [u8],
    pub rest: &'a [u8],
}

/// The first word of some bytes that are cut at a separator, if there is one.
pub fn next_word(bytes: &[u8], at: Separator) -> Option<Word<'_>>
    ensures found { IfSome result (λ word. words_of (separates at) bytes.now
        ≡ word.bytes.now ∷ words_of (separates at) word.rest.now) }
    ensures columns { IfSome result (λ word. (column : ℕ) → words_from (separates at) column bytes.now
        ≡ (column + word.blanks, word.bytes.now)
        ∷ words_from (separates at) (column + word.blanks + length word.bytes.now) word.rest.now) }
    ensures length { IfSome result (λ word. length bytes.now
        ≡ word.blanks + length word.bytes.now + length word.rest.now) }
    ensures some { IfSome result (λ word. 0 < length word.bytes.now) }
    ensures absent { IfNone result (words_of (separates at) bytes.now ≡ []) }
    ensures no_columns { IfNone result ((column : ℕ) → words_from (separates at) column bytes.now ≡ []) }
{
    let (blanks, after) = split_separators(bytes, at);
    let (bytes, rest) = split_before(after, at);
    if bytes.is_empty() {
        return None;
    }
    let blanks = blanks.len();
    Some(Word {
        blanks,
        bytes,
        rest,
    })
}

/// Bytes without the spaces and tabs that they begin with.
pub fn without_blanks(bytes: &[u8]) -> &[u8]
    ensures rest { result.now ≡ rest_of is_blank bytes.now }
    ensures within { length result.now ≤ length bytes.now }
{
    split_separators(bytes, Separator::Blank).1
}

/// Whether some bytes are one digit of a base or more.
pub fn is_numeral(radix: u32, bytes: &[u8]) -> bool
    requires least { 2 ≤ radix }
    requires most { radix ≤ 36 }
    ensures test { result ≡ texts.is_numeral radix bytes.now }
    ensures numeral { IsTrue result ↔ IsNumeral radix bytes.now }
{
    !bytes.is_empty() && are_digits(radix, bytes)
}

/// Whether each byte is a digit of a base.
pub fn are_digits(radix: u32, bytes: &[u8]) -> bool
    requires least { 2 ≤ radix }
    requires most { radix ≤ 36 }
    ensures { result ≡ list_all (λ b. is_digit b radix) bytes.now }
{
    bytes.iter().all(|byte| char::from(*byte).is_digit(radix))
}

// A number below it has room for one more digit in 64 bits.
const SMALL: u128 = 1 << 58;

/// The number that digits write, if it is below 2^128.
pub fn number_of(radix: u32, digits: &[u8]) -> Option<u128>
    requires least { 2 ≤ radix }
    requires most { radix ≤ 36 }
    ensures { SomeIff result (digits_value radix digits.now < 2 ^ 128) (digits_value radix digits.now) }
{
    let mut number: u128 = 0;
    for byte in digits {
        number = with_digit(radix, number, digit_of(*byte))?;
    }
    Some(number)
}

// The number with one more digit after it, if it is below 2^128. Most numbers are small, and then 64 bits are faster.
fn with_digit(radix: u32, number: u128, digit: u32) -> Option<u128>
    requires radix { radix ≤ 36 }
    requires digit { digit ≤ 36 }
    ensures { SomeIff result (number * radix + digit < 2 ^ 128) (number * radix + digit) }
{
    if number < SMALL {
        let number = number as u64;
        return Some(u128::from(number * u64::from(radix) + u64::from(digit)));
    }
    number
        .checked_mul(u128::from(radix))?
        .checked_add(u128::from(digit))
}

/// The number that decimal digits write, if it is below 2^64.
pub fn decimal(digits: &[u8]) -> Option<u64>
    ensures { SomeIff result (digits_value 10 digits.now < 2 ^ 64) (digits_value 10 digits.now) }
{
    let mut number: u64 = 0;
    for byte in digits {
        number = with_decimal(number, digit_of(*byte))?;
    }
    Some(number)
}

/// The number with one more decimal digit after it, if it is below 2^64.
pub fn with_decimal(number: u64, digit: u32) -> Option<u64>
    ensures { SomeIff result (number * 10 + digit < 2 ^ 64) (number * 10 + digit) }
{
    number.checked_mul(10)?.checked_add(u64::from(digit))
}

// The number that a byte stands for as a digit, 36 where it is none.
fn digit_of(byte: u8) -> u32
    ensures value { result ≡ digit_value byte }
    ensures most { result ≤ 36 }
{
    char::from(byte).to_digit(36).unwrap_or(36)
}
