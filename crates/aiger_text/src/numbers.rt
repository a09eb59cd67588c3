//! The numbers in a line of an AIGER text.

ghost use Rattle.std.specs.Prelude.{◌≡◌, ◌<◌, ◌^◌, Some};
ghost use Rattle.std.specs.Option.{SomeIff};
ghost use Rattle.std.specs.Str.Parse.{digits_value};
ghost use Rattle.aiger_text.specs.Cuts.{numbers_if_all, decimal_number as number_of_word, numbers_of, words_of};
ghost use Rattle.aiger_text.specs.Headers as headers;
ghost use Rattle.aiger_text.specs.Headers.{numbers_by};
ghost use Rattle.aiger_text.specs.inner.Numerals.{GivesNumber};

use kw_base::texts::{Separator, decimal, is_numeral, next_word};

/// The least number that is too great for an AIGER text.
const TOO_GREAT: u64 = 1 << 63;

/// The numbers of a line: one, two or three of them, or else something other.
#[derive(Clone, Copy, Debug, PartialEq, Eq)]
pub(crate) enum LineNumbers {
    One(u64),
    Two(u64, u64),
    Three(u64, u64, u64),
    Other,
}

/// What comes next in a line: a number and the bytes after it, a word that is no number, or no word.
#[derive(Clone, Copy)]
pub(crate) enum Next<'a> {
    Number(u64, &'a [u8]),
    Malformed,
    End,
}

/// The numbers of a line.
pub(crate) fn numbers_in(line: &[u8]) -> LineNumbers
    ensures { result ≡ headers.line_numbers line.now }
{
    match next_number(line) {
        Next::Number(first, rest) => with_one(first, rest),
        Next::Malformed => LineNumbers::Other,
        Next::End => LineNumbers::Other,
    }
}

fn with_one(first: u64, bytes: &[u8]) -> LineNumbers
    ensures { result ≡ numbers_by (numbers_if_all (Some first) (numbers_of (words_of bytes.now))) }
{
    match next_number(bytes) {
        Next::Number(second, rest) => with_two(first, second, rest),
        Next::Malformed => LineNumbers::Other,
        Next::End => LineNumbers::One(first),
    }
}

fn with_two(first: u64, second: u64, bytes: &[u8]) -> LineNumbers
    ensures { result ≡ numbers_by (numbers_if_all (Some first) (numbers_if_all (Some second) (numbers_of (words_of bytes.now)))) }
{
    match next_number(bytes) {
        Next::Number(third, rest) => with_three(first, second, third, rest),
        Next::Malformed => LineNumbers::Other,
        Next::End => LineNumbers::Two(first, second),
    }
}

fn with_three(first: u64, second: u64, third: u64, bytes: &[u8]) -> LineNumbers
    ensures { result ≡ numbers_by (numbers_if_all (Some first) (numbers_if_all (Some second) (numbers_if_all (Some third) (numbers_of (words_of bytes.now))))) }
{
    match next_number(bytes) {
        Next::Number(_, _) => LineNumbers::Other,
        Next::Malformed => LineNumbers::Other,
        Next::End => LineNumbers::Three(first, second, third),
    }
}

/// What comes next in some bytes.
pub(crate) fn next_number(bytes: &[u8]) -> Next<'_>
    ensures { GivesNumber result (numbers_of (words_of bytes.now)) }
{
    let Some(word) = next_word(bytes, Separator::Blank) else {
        return Next::End;
    };
    match number_of(word.bytes) {
        Some(number) => Next::Number(number, word.rest),
        None => Next::Malformed,
    }
}

/// The number that a word writes, if it has decimal digits alone and the number is below 2^63.
pub(crate) fn number_of(word: &[u8]) -> Option<u64>
    ensures { result ≡ number_of_word word.now }
{
    if !is_numeral(10, word) {
        return None;
    }
    value_of(word)
}

// The number that decimal digits write, if it is below 2^63.
fn value_of(digits: &[u8]) -> Option<u64>
    ensures { SomeIff result (digits_value 10 digits.now < 2 ^ 63) (digits_value 10 digits.now) }
{
    match decimal(digits) {
        Some(number) if number < TOO_GREAT => Some(number),
        _ => None,
    }
}
