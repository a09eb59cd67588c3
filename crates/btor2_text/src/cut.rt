//! Circuits: the tokens of a line of a BTOR2 file.

ghost use Rattle.std.specs.Prelude.{◌≡◌, ◌∷◌, [], IfSome, IfNone};
ghost use Rattle.btor2_text.specs.Cut.{words_of};

use kw_base::texts::{Separator, Word, next_word};

/// The first token of some bytes, if there is one.
pub(crate) fn next_token(bytes: &[u8]) -> Option<Word<'_>>
    ensures found { IfSome result (λ token. words_of bytes.now ≡ token.bytes.now ∷ words_of token.rest.now) }
    ensures absent { IfNone result (words_of bytes.now ≡ []) }
{
    next_word(bytes, Separator::BlankOrReturn)
}
