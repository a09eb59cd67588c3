//! Journals: a cycle and a rule.

ghost use Rattle.journal_check.specs.inner.Naming.{Knows};
ghost use Rattle.journal_check.specs.inner.Tokens.{ReadsFront, head_at, number_at, tokens_left};

use crate::names::Vocabulary;
use crate::number::number_read;
use crate::token::{Malformed, next_token};
use kw_bits::Failure;

/// A cycle and a rule.
#[derive(Clone, Copy, Debug, PartialEq, Eq)]
pub(crate) struct Head {
    pub(crate) cycle: u32,
    pub(crate) rule: u32,
}

/// The number at a cursor.
#[tactic(auto, unfolding(crate::specs::inner::Tokens::number_at))]
pub(crate) fn number(rest: Option<&[u8]>) -> Result<(u32, Option<&[u8]>), Failure<Malformed>>
    ensures { ReadsFront result (number_at (tokens_left rest.entry)) }
{
    let (token, rest) = next_token(rest)?;
    Ok((number_read(token), rest))
}

/// The cycle and the rule at a cursor.
#[tactic(auto, unfolding(crate::specs::inner::Tokens::head_at))]
pub(crate) fn read_head<'a>(
    names: &Vocabulary<'_>,
    rest: Option<&'a [u8]>,
) -> Result<(Head, Option<&'a [u8]>), Failure<Malformed>>
    requires { Knows names.now.design.now names.now.registers names.now.rules }
    ensures { ReadsFront result (head_at names.now.design.now (tokens_left rest.entry)) }
{
    let (cycle, rest) = number(rest)?;
    let (rule, rest) = names.rule(rest)?;
    Ok((Head { cycle, rule }, rest))
}
