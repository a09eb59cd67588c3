//! Tokens: the first bytes of a text, as a symbol or a run of blanks, words, digits or a comment.

ghost use Rattle.std.specs.Prelude.{◌≡◌, ◌<◌, ◌∷◌, [], false, length, slice_index};
ghost use Rattle.std.specs.Char.{is_ascii_digit};
ghost use Rattle.std.specs.List.{prefix_len};
ghost use Rattle.koika_syntax.specs.Lexemes as lexemes;
ghost use Rattle.koika_syntax.specs.inner.LexemeAnswers.{IsAnswer};
ghost use Rattle.koika_syntax.specs.inner.Symbols.{BeginsWith};
ghost use Rattle.koika_syntax.specs.declared.token.TokenKind.TheVariants as kinds;

use crate::Symbol;
use crate::lexeme::{Flaw, Lexeme};

/// The longest symbol that a text begins with, which is no blank, word, number or comment.
pub(crate) fn symbol(text: &[u8]) -> Result<Lexeme<Symbol>, Flaw>
    requires some_byte { 0 < length text.now }
    requires no_blank { lexemes.is_blank (slice_index text.now 0) ≡ false }
    requires no_word { lexemes.begins_word (slice_index text.now 0) ≡ false }
    requires no_digit { is_ascii_digit (slice_index text.now 0) ≡ false }
    requires no_comment { ¬ BeginsWith text.now (47 ∷ 47 ∷ []) }
    ensures { IsAnswer kinds.Symbol text.now result }
{
    if text.len() > 1 {
        if let Some(symbol) = Symbol::of_bytes(text[0], text[1]) {
            if symbol == Symbol::GreaterGreater && text.starts_with(b">>>") {
                return Ok(Lexeme {
                    kind: Symbol::GreaterGreaterGreater,
                    len: 3,
                });
            }
            return Ok(Lexeme {
                kind: symbol,
                len: 2,
            });
        }
    }
    match Symbol::of_byte(text[0]) {
        Some(symbol) => Ok(Lexeme {
            kind: symbol,
            len: 1,
        }),
        None => Err(Flaw::Byte(0)),
    }
}

/// How many bytes come before the first line feed.
pub(crate) fn line_len(bytes: &[u8]) -> usize
    ensures { result ≡ prefix_len lexemes.stays_on_line bytes.now }
{
    let mut len = 0;
    while len < bytes.len() && bytes[len] != b'\n' {
        len += 1;
    }
    len
}
