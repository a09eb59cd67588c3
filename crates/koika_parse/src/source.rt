//! Trees: a text with its tokens.

ghost use Rattle.std.specs.Prelude.{◌<◌, ◌≤◌, ◌^◌, All, length};
ghost use Rattle.std.proofs.Props.{props};
ghost use Rattle.koika_parse.specs.inner.Names.{AreNamesIn};

use koika_syntax::Token;
use std::alloc::Global;

/// A text and its tokens.
#[derive(Clone, Copy)]
pub(crate) struct Source<'a> {
    pub alloc: Global,
    pub text: &'a [u8],
    pub tokens: &'a [Token],
    ghost starts: { All (λ token. token.start ≤ length text.now) tokens.now },
    ghost short: { length tokens.now < 2 ^ 62 },
    ghost names: { AreNamesIn text.now tokens.now } by { Prim.hlevel props },
}
