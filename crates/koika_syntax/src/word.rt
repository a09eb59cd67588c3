//! Tokens: words, each a keyword or a name.

ghost use Rattle.std.specs.Prelude.{◌≡◌, ◌<◌, length, slice_index, IsTrue};
ghost use Rattle.std.specs.List.{prefix_len};
ghost use Rattle.koika_syntax.specs.Lexemes as lexemes;
ghost use Rattle.koika_syntax.specs.inner.LexemeAnswers.{IsAnswer, token_of_word};

use crate::Keyword;
use crate::lexeme::{Flaw, Lexeme};

/// A name has at most this many bytes.
const LONGEST_NAME: usize = 64;

/// What a word is: a keyword, or a name.
#[derive(Clone, Copy, Debug)]
pub(crate) enum WordKind {
    Keyword(Keyword),
    Name,
}

/// Whether a byte can begin a word: a letter or an underscore.
pub(crate) fn begins_word(byte: u8) -> bool
    ensures { result ≡ lexemes.begins_word byte }
{
    byte.is_ascii_alphabetic() || byte == b'_'
}

fn continues_word(byte: u8) -> bool
    ensures { result ≡ lexemes.continues_word byte }
{
    byte.is_ascii_alphanumeric() || byte == b'_'
}

/// What a text begins with whose first byte begins a word: a keyword, or a name.
pub(crate) fn word(text: &[u8]) -> Result<Lexeme<WordKind>, Flaw>
    requires some_byte { 0 < length text.now }
    requires first { IsTrue (lexemes.begins_word (slice_index text.now 0)) }
    ensures { IsAnswer token_of_word text.now result }
{
    let len = word_len(text);
    if let Some(keyword) = Keyword::of_word(&text[..len]) {
        return Ok(Lexeme {
            kind: WordKind::Keyword(keyword),
            len,
        });
    }
    if len > LONGEST_NAME {
        return Err(Flaw::LongName);
    }
    Ok(Lexeme {
        kind: WordKind::Name,
        len,
    })
}

// How many bytes at the front can be in a word, whose first byte begins one.
fn word_len(bytes: &[u8]) -> usize
    requires some_byte { 0 < length bytes.now }
    requires first { IsTrue (lexemes.begins_word (slice_index bytes.now 0)) }
    ensures { result ≡ prefix_len lexemes.continues_word bytes.now }
{
    let mut len = 1;
    while len < bytes.len() && continues_word(bytes[len]) {
        len += 1;
    }
    len
}
