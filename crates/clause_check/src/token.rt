//! Refutations: the tokens of a line.

ghost use Rattle.std.specs.Prelude.{◌≡◌, ◌+◌, ◌*◌, ◌<◌, ◌∷◌, [], length, true, false, IfSome, IfNone, None, Some};
ghost use Rattle.kw_base.specs.Texts.{StopsAt, is_blank};
ghost use Rattle.clause_check.specs.Lines.{tokens_of};
ghost use Rattle.clause_check.specs.Steps.{literal_by};
ghost use Rattle.clause_check.specs.inner.Tokens as tokens;
ghost use Rattle.clause_check.specs.inner.Tokens.{GivesLiteral, GivesNumber, IsTokenOf, LiteralIsWithin, LiteralShortens, NotFirst, NotMinus, NumberShortens, digits_from};

use crate::literal::Literal;
use kw_base::texts::{Separator, with_decimal, without_blanks};

/// The least number that is too great for a clause.
const TOO_GREAT: u64 = 1 << 63;

/// Ten times a number below this one is far from the greatest `u64`. Numbers in refutations are mostly below it.
const SMALL: u64 = 1 << 31;

/// What the first token is: a number and the bytes after it, the token that closes a list, or neither.
#[derive(Clone, Copy)]
pub(crate) enum NumberToken<'a> {
    Number(u64, &'a [u8]),
    Closing(&'a [u8]),
    Malformed,
}

/// What the first token is: a literal and the bytes after it, the token that closes a list, or neither.
#[derive(Clone, Copy)]
pub(crate) enum LiteralToken<'a> {
    Literal(Literal, &'a [u8]),
    Closing(&'a [u8]),
    Malformed,
}

// The number that digits write, and the bytes after them.
#[derive(Clone, Copy)]
struct Digits<'a> {
    value: u64,
    rest: &'a [u8],
}

/// What the first token of some bytes is, where a number may come.
pub(crate) fn next_number(bytes: &[u8]) -> NumberToken<'_>
    ensures gives { GivesNumber result (tokens_of bytes.now) }
    ensures shorter { NumberShortens result bytes.now }
{
    let token = without_blanks(bytes);
    if let Some(rest) = letter_here(token, b'0') {
        return NumberToken::Closing(rest);
    }
    number_here(token)
}

/// What the first token of some bytes is, where a literal may come.
pub(crate) fn next_literal(variables: u32, bytes: &[u8]) -> LiteralToken<'_>
    ensures gives { GivesLiteral variables result (tokens_of bytes.now) }
    ensures within { LiteralIsWithin variables result }
    ensures shorter { LiteralShortens result bytes.now }
{
    let token = without_blanks(bytes);
    if let Some(rest) = letter_here(token, b'0') {
        return LiteralToken::Closing(rest);
    }
    literal_here(variables, token)
}

/// The bytes after the first token, where that is this letter.
pub(crate) fn after_letter(bytes: &[u8], letter: u8) -> Option<&[u8]>
    ensures found { IfSome result (λ rest. tokens_of bytes.now ≡ (letter ∷ []) ∷ tokens_of rest.now) }
    ensures absent { IfNone result (NotFirst letter (tokens_of bytes.now)) }
    ensures shorter { IfSome result (λ rest. length rest.now < length bytes.now) }
{
    letter_here(without_blanks(bytes), letter)
}

// The bytes after the token that some bytes begin with, where that is this letter.
fn letter_here(token: &[u8], letter: u8) -> Option<&[u8]>
    requires { StopsAt is_blank token.now }
    ensures found { IfSome result (λ rest. tokens_of token.now ≡ (letter ∷ []) ∷ tokens_of rest.now) }
    ensures absent { IfNone result (NotFirst letter (tokens_of token.now)) }
    ensures shorter { IfSome result (λ rest. length rest.now < length token.now) }
{
    let Some((first, others)) = token.split_first() else {
        return None;
    };
    if *first != letter {
        return None;
    }
    if begins_shown(others) {
        return None;
    }
    Some(others)
}

// Whether some bytes go on with one that isn't blank.
fn begins_shown(bytes: &[u8]) -> bool
    ensures { result ≡ tokens.begins_shown bytes.now }
{
    match bytes.split_first() {
        Some((first, _)) => !Separator::Blank.is(*first),
        None => false,
    }
}

// What the token is that some bytes begin with, if it closes no list.
fn number_here(token: &[u8]) -> NumberToken<'_>
    requires stops { StopsAt is_blank token.now }
    requires open { NotFirst 48 (tokens_of token.now) }
    ensures gives { GivesNumber result (tokens_of token.now) }
    ensures shorter { NumberShortens result token.now }
{
    let Some(digits) = digits_here(token) else {
        return NumberToken::Malformed;
    };
    if digits.value == 0 {
        return NumberToken::Malformed;
    }
    NumberToken::Number(digits.value, digits.rest)
}

fn literal_here(variables: u32, token: &[u8]) -> LiteralToken<'_>
    requires stops { StopsAt is_blank token.now }
    requires open { NotFirst 48 (tokens_of token.now) }
    ensures gives { GivesLiteral variables result (tokens_of token.now) }
    ensures within { LiteralIsWithin variables result }
    ensures shorter { LiteralShortens result token.now }
{
    let Some((first, digits)) = token.split_first() else {
        return LiteralToken::Malformed;
    };
    if *first == b'-' {
        return negated_literal(variables, digits);
    }
    plain_literal(variables, token)
}

// The literal of a token of which the minus is read.
fn negated_literal(variables: u32, token: &[u8]) -> LiteralToken<'_>
    ensures gives { GivesLiteral variables result (tokens_of (45 ∷ token.now)) }
    ensures within { LiteralIsWithin variables result }
    ensures shorter { LiteralShortens result (45 ∷ token.now) }
{
    let Some(digits) = digits_here(token) else {
        return LiteralToken::Malformed;
    };
    if digits.value == 0 {
        return LiteralToken::Malformed;
    }
    literal_of(variables, true, digits.value, digits.rest)
}

// The literal of a token that begins with no minus.
fn plain_literal(variables: u32, token: &[u8]) -> LiteralToken<'_>
    requires stops { StopsAt is_blank token.now }
    requires open { NotFirst 48 (tokens_of token.now) }
    requires plain { NotMinus token.now }
    ensures gives { GivesLiteral variables result (tokens_of token.now) }
    ensures within { LiteralIsWithin variables result }
    ensures shorter { LiteralShortens result token.now }
{
    match number_here(token) {
        NumberToken::Number(number, rest) => literal_of(variables, false, number, rest),
        NumberToken::Closing(rest) => LiteralToken::Closing(rest),
        NumberToken::Malformed => LiteralToken::Malformed,
    }
}

// The literal of a variable's number.
fn literal_of(variables: u32, is_negated: bool, number: u64, rest: &[u8]) -> LiteralToken<'_>
    ensures literal { IsTokenOf (literal_by variables is_negated number) rest.now result }
    ensures within { LiteralIsWithin variables result }
{
    if number > u64::from(variables) {
        return LiteralToken::Malformed;
    }
    let literal = Literal {
        variable: number as u32,
        is_negated,
    };
    LiteralToken::Literal(literal, rest)
}

// The number that the digits write which some bytes begin with, up to a blank or the end, if it is below 2^63.
fn digits_here(bytes: &[u8]) -> Option<Digits<'_>>
    ensures found { IfSome result (λ digits. digits_from 0 bytes.now ≡ Some (digits.value, digits.rest.now)) }
    ensures absent { IfNone result (digits_from 0 bytes.now ≡ None) }
{
    let mut value: u64 = 0;
    let mut rest = bytes;
    while let Some((first, others)) = rest.split_first() {
        let Some(digit) = digit_of(*first) else {
            return end_here(value, rest, *first);
        };
        let Some(more) = digit_after(value, digit) else {
            return None;
        };
        value = more;
        rest = others;
    }
    Some(Digits { value, rest })
}

// The number, where the token ends at a blank.
fn end_here(value: u64, rest: &[u8], byte: u8) -> Option<Digits<'_>>
    ensures found { IfSome result (λ digits. (is_blank byte ≡ true) × (digits.value ≡ value) × (digits.rest.now ≡ rest.now)) }
    ensures absent { IfNone result (is_blank byte ≡ false) }
{
    if Separator::Blank.is(byte) {
        Some(Digits { value, rest })
    } else {
        None
    }
}

// The number with one more digit, if it is below 2^63.
fn digit_after(value: u64, digit: u32) -> Option<u64>
    ensures { result ≡ tokens.if_small (value * 10 + digit) }
{
    let more = if value < SMALL {
        value * 10 + u64::from(digit)
    } else {
        with_decimal(value, digit)?
    };
    if more < TOO_GREAT { Some(more) } else { None }
}

fn digit_of(byte: u8) -> Option<u32>
    ensures { result ≡ tokens.digit_of byte }
{
    char::from(byte).to_digit(10)
}
