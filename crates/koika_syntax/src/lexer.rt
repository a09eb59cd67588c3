//! Tokens: the lexer, from a text to its tokens or its first fault.

ghost use Rattle.std.specs.Prelude.{◌≡◌, ◌+◌, ◌<◌, ◌≤◌, ◌++◌, List, Some, false, length, drop, slice_index, All, IfOk};
ghost use Rattle.koika_syntax.specs.Lexemes as lexemes;
ghost use Rattle.kw_base.specs.Fault.{IfFault, IsOkUnlessNoMemory, IsFaultUnlessNoMemory};
ghost use Rattle.kw_base.specs.declared.fault.Fault.{Fault};
ghost use Rattle.koika_syntax.specs.inner.LexemeAnswers.{HasRead, BeginsFault, tokens_of, number_of, offset_of};
ghost use Rattle.koika_syntax.specs.Tokens.{AreTokensOf, StandsIn, AreAscending};
ghost use Rattle.koika_syntax.specs.TokenFaults.{BeginsFaulty, IsFirstTokenFault};

use crate::front::{line_len, symbol};
use crate::lexeme::Flaw;
use crate::literal::numeral;
use crate::word::{WordKind, begins_word, word};
use crate::{Token, TokenKind};
use kw_base::{Fault, Refusal, place_of};
use std::alloc::Global;

/// The tokens of a text, or its first fault: 10 at a byte that begins or continues no token, 13 at a
/// number or a literal out of its range, 14 at a name of more than 64 bytes.
pub fn lex(alloc: Global, text: &[u8]) -> Result<Vec<Token>, Refusal>
    requires { length text.now ≤ 1048576 }
    ensures tokens { IfOk result (λ found. AreTokensOf found.items text.now) }
    ensures spans { IfOk result (λ found. All (StandsIn text.now) found.items) }
    ensures ascending { IfOk result (λ found. AreAscending found.items) }
    ensures fault { IfFault result (IsFirstTokenFault text.now) }

    // The tokens of a text are one list, its first fault is one, and no text has both.
    ensures accepted { (tokens : List Token) → AreTokensOf tokens text.now → IsOkUnlessNoMemory result (λ found. found.items ≡ tokens) }
    ensures refused { (fault : Fault) → IsFirstTokenFault text.now fault → IsFaultUnlessNoMemory result fault }
{
    let mut tokens = Vec::new(alloc);
    let mut offset = 0;
    while offset < text.len() {
        if is_blank(text[offset]) {
            offset += 1;
            continue;
        }
        offset = read_at(text, offset, &mut tokens)?;
    }
    Ok(tokens)
}

// Whether a byte is a blank: a space, a tab, a carriage return or a line feed.
fn is_blank(byte: u8) -> bool
    ensures { result ≡ lexemes.is_blank byte }
{
    byte == b' ' || byte == b'\t' || byte == b'\r' || byte == b'\n'
}

// Adds the token at an offset, if it is no comment, and gives the offset after it.
fn read_at(text: &[u8], offset: usize, tokens: &mut Vec<Token>) -> Result<usize, Refusal>
    requires short { length text.now ≤ 1048576 }
    requires within { offset < length text.now }
    requires no_blank { lexemes.is_blank (slice_index text.now offset) ≡ false }
    ensures read { IfOk result (HasRead text.now offset tokens.old.items tokens.new.items) }
    ensures fault { IfFault result (BeginsFault text.now offset) }
{
    let behind = behind(text, offset);
    let first = behind[0];
    if first.is_ascii_digit() {
        return match numeral(behind) {
            Ok(lexeme) => match lexeme.kind {
                // On its own, since it leaves the bits of a literal out.
                TokenKind::Number(number) => {
                    add(tokens, TokenKind::Number(number), offset, lexeme.len)
                }
                literal => add(tokens, literal, offset, lexeme.len),
            },
            Err(flaw) => Err(Refusal::Fault(fault_of(text, offset, flaw))),
        };
    }
    if begins_word(first) {
        return match word(behind) {
            Ok(lexeme) => match lexeme.kind {
                WordKind::Keyword(keyword) => {
                    add(tokens, TokenKind::Keyword(keyword), offset, lexeme.len)
                }
                WordKind::Name => add(tokens, TokenKind::Name, offset, lexeme.len),
            },
            Err(flaw) => Err(Refusal::Fault(fault_of(text, offset, flaw))),
        };
    }
    if first == b'/' && behind.starts_with(b"//") {
        return Ok(offset + line_len(behind));
    }
    match symbol(behind) {
        Ok(lexeme) => add(tokens, TokenKind::Symbol(lexeme.kind), offset, lexeme.len),
        Err(flaw) => Err(Refusal::Fault(fault_of(text, offset, flaw))),
    }
}

// The text after an offset.
fn behind(text: &[u8], offset: usize) -> &[u8]
    requires { offset ≤ length text.now }
    ensures { result.now ≡ drop offset text.now }
{
    &text[offset..]
}

// Adds a token of this many bytes at an offset, and gives the offset after it.
fn add(
    tokens: &mut Vec<Token>,
    kind: TokenKind,
    offset: usize,
    len: usize,
) -> Result<usize, Refusal>
    requires { offset + len ≤ 1048576 }
    ensures end { IfOk result (λ end. end ≡ offset + len) }
    ensures token { IfOk result (λ end. tokens.new.items ≡ tokens.old.items ++ tokens_of (Some kind) offset end) }
    ensures no_fault { IfFault result (λ fault. ⊥) }
{
    let end = offset + len;
    tokens.push(Token {
        kind,
        start: offset as u32,
        end: end as u32,
    })?;
    Ok(end)
}

// The fault that a flaw of the text after an offset is.
fn fault_of(text: &[u8], offset: usize, flaw: Flaw) -> Fault
    requires within { offset ≤ length text.now }
    requires faulty { BeginsFaulty (drop offset text.now) (number_of flaw) (offset_of flaw) }
    ensures { BeginsFault text.now offset result }
{
    Fault::new(flaw.number(), place_of(text, offset + flaw.offset()))
}
