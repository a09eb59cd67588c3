//! Circuits: the arguments of a line of BTOR2, token by token.

ghost use Rattle.std.specs.Prelude.{◌≡◌, ◌≤◌, ◌<◌, ◌↔◌, IsTrue, IfSome, IfNone, length, List, ℕ, drop};
ghost use Rattle.std.specs.Option.{option_to_list};
ghost use Rattle.btor2_text.specs.Cut.{words_of};
ghost use Rattle.btor2_text.specs.Lines.{BeginWithArguments, HasMinus, IsArgument, IsId, IsNegative, IsNumber};
ghost use Rattle.btor2_text.specs.inner.Flaws.{IfRead};
ghost use Rattle.btor2_text.specs.declared.line.Argument.{Argument as ArgumentOf};

use crate::cut::next_token;
use crate::numeral::number_of;
use crate::reader::Unread;
use crate::{Argument, ArgumentKind};
use kw_base::texts::is_numeral;
use kw_bits::{Failure, Sequence, Text};
use std::alloc::Global;

/// The id that a token is.
pub(crate) fn read_id(token: &[u8]) -> Result<u64, Failure<Unread>>
    ensures { IfRead result (IsId token.now) ((id : ℕ) → ¬ IsId token.now id) }
{
    match number_of(token) {
        Some(id) if id != 0 => Ok(id),
        _ => Err(Failure::Why(Unread::Malformed)),
    }
}

/// The width, bound or count that a token is.
fn read_number(token: &[u8]) -> Result<u32, Failure<Unread>>
    ensures { IfRead result (IsNumber token.now) ((number : ℕ) → ¬ IsNumber token.now number) }
{
    match number_of(token) {
        Some(number) if number <= u64::from(u32::MAX) => Ok(number as u32),
        _ => Err(Failure::Why(Unread::Malformed)),
    }
}

/// The argument of a kind that a token is.
pub(crate) fn read_argument(
    alloc: Global,
    kind: ArgumentKind,
    token: &[u8],
) -> Result<Argument, Failure<Unread>>
    ensures { IfRead result (IsArgument kind token.now) ((argument : ArgumentOf) → ¬ IsArgument kind token.now argument) }
{
    match kind {
        ArgumentKind::Bitvec if token == b"bitvec".as_slice() => Ok(Argument::Bitvec),
        ArgumentKind::Number => Ok(Argument::Number(read_number(token)?)),
        ArgumentKind::Sort | ArgumentKind::Value => Ok(Argument::Id(read_id(token)?)),
        ArgumentKind::Numeral(base) if is_numeral(base.radix(), token) => {
            Ok(Argument::Numeral(Text::from_slice(alloc, token)?))
        }
        _ => Err(Failure::Why(Unread::Malformed)),
    }
}

/// The arguments of these kinds that the first tokens of some bytes are.
pub(crate) fn read_arguments(
    alloc: Global,
    kinds: &[ArgumentKind],
    bytes: &[u8],
) -> Result<Sequence<Argument>, Failure<Unread>>
    ensures { IfRead result
        (BeginWithArguments kinds.now (words_of bytes.now))
        ((arguments : List ArgumentOf) → ¬ BeginWithArguments kinds.now (words_of bytes.now) arguments) }
{
    let mut arguments = Vec::with_capacity(alloc, kinds.len())?;
    let mut rest = bytes;
    for kind in kinds {
        let Some(token) = next_token(rest) else {
            return Err(Failure::Why(Unread::Malformed));
        };
        arguments.push(read_argument(alloc, *kind, token.bytes)?)?;
        rest = token.rest;
    }
    Ok(Sequence::from_vec(arguments))
}

// Whether a token is an operand or a numeral that begins with a minus sign.
fn is_negative(kind: ArgumentKind, token: &[u8]) -> bool
    ensures { IsTrue result ↔ IsNegative kind token.now }
{
    matches!(token, [b'-', ..]) && kind.may_be_negative()
}

/// Whether one of the first tokens is an operand or a numeral of these kinds that begins with a minus sign.
pub(crate) fn has_minus(kinds: &[ArgumentKind], bytes: &[u8]) -> bool
    ensures { IsTrue result ↔ HasMinus kinds.now (words_of bytes.now) }
{
    let mut rest = bytes;
    for kind in kinds {
        let Some(token) = next_token(rest) else {
            return false;
        };
        if is_negative(*kind, token.bytes) {
            return true;
        }
        rest = token.rest;
    }
    false
}

/// What comes after this many tokens, if there are that many.
pub(crate) fn skip_tokens(count: usize, bytes: &[u8]) -> Option<&[u8]>
    ensures found { IfSome result (λ rest. (count ≤ length (words_of bytes.now)) × (words_of rest.now ≡ drop count (words_of bytes.now))) }
    ensures absent { IfNone result (length (words_of bytes.now) < count) }
{
    let mut rest = bytes;
    for _ in 0..count {
        rest = next_token(rest)?.rest;
    }
    Some(rest)
}

/// The symbol that is the only token of some bytes, if they have any.
pub(crate) fn read_symbol(alloc: Global, bytes: &[u8]) -> Result<Option<Text>, Failure<Unread>>
    ensures { IfRead result (λ symbol. words_of bytes.now ≡ option_to_list symbol) (2 ≤ length (words_of bytes.now)) }
{
    let Some(symbol) = next_token(bytes) else {
        return Ok(None);
    };
    if next_token(symbol.rest).is_some() {
        return Err(Failure::Why(Unread::Malformed));
    }
    Ok(Some(Text::from_slice(alloc, symbol.bytes)?))
}
