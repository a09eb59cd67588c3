//! Journals: the tokens of a line.

ghost use Rattle.journal_check.specs.inner.Tokens.{ReadsToken, token_at, tokens_left};

use kw_base::texts::{Separator, cut};
use kw_bits::Failure;

/// A part of a line is of no form.
#[derive(Clone, Copy, Debug, PartialEq, Eq)]
pub(crate) struct Malformed;

/// The first token at a cursor, and the cursor after it.
pub(crate) fn next_token(rest: Option<&[u8]>) -> Result<(&[u8], Option<&[u8]>), Failure<Malformed>>
    ensures { ReadsToken result (token_at (tokens_left rest.entry)) }
{
    match rest {
        Some(bytes) => Ok(cut(bytes, Separator::Space)),
        None => Err(Failure::Why(Malformed)),
    }
}
