//! Journals: lines by their tokens.

ghost use Rattle.std.specs.Prelude.{◌≡◌};
ghost use Rattle.journal_check.specs.inner.Naming.{Knows};
ghost use Rattle.journal_check.specs.inner.Tokens.{Reads, batch_at, begin_at, line_at, settle_at, submit_at, tokens_left, tokens_of};

use crate::access::events;
use crate::answer::{after, outcome, settled, taken_read};
use crate::head::{number, read_head};
use crate::line::JournalLine;
use crate::names::Vocabulary;
use crate::number::number_read;
use crate::token::{Malformed, next_token};
use attempt_log::Entry;
use kw_base::texts::{Separator, cut};
use kw_bits::Failure;
use one_rule::Stimulus;
use std::alloc::Global;

/// What a line is read as. Whether it is printed so is another question.
#[tactic(auto, unfolding(crate::specs::inner::Tokens::line_at))]
pub(crate) fn line(
    alloc: Global,
    names: &Vocabulary<'_>,
    stimulus: &Stimulus,
    bytes: &[u8],
) -> Result<JournalLine, Failure<Malformed>>
    requires { Knows names.now.design.now names.now.registers names.now.rules }
    ensures { Reads (λ line. line) result (line_at names.now.design.now stimulus.now (tokens_of bytes.now)) }
{
    let (word, rest) = cut(bytes, Separator::Space);
    if word == b"s".as_slice() {
        return submit(alloc, names, stimulus, rest);
    }
    if word == b"t".as_slice() {
        return settle(names, rest);
    }
    if word == b"batch".as_slice() {
        return batch(rest);
    }
    begin(rest)
}

#[tactic(auto, unfolding(crate::specs::inner::Tokens::submit_at))]
fn submit(
    alloc: Global,
    names: &Vocabulary<'_>,
    stimulus: &Stimulus,
    rest: Option<&[u8]>,
) -> Result<JournalLine, Failure<Malformed>>
    requires { Knows names.now.design.now names.now.registers names.now.rules }
    ensures { Reads (λ line. line) result (submit_at names.now.design.now stimulus.now (tokens_left rest.entry)) }
{
    let (worker, rest) = number(rest)?;
    let (head, rest) = read_head(names, rest)?;
    let (outcome, rest) = outcome(names, rest)?;
    let (events, rest) = events(alloc, names, rest)?;
    let (word, _) = next_token(rest)?;
    Ok(JournalLine::Entry(Entry::Submit {
        worker,
        cycle: head.cycle,
        rule: head.rule,
        inputs: stimulus.inputs(head.cycle)?,
        events,
        outcome,
        answer: taken_read(word),
    }))
}

#[tactic(auto, unfolding(crate::specs::inner::Tokens::settle_at))]
fn settle(names: &Vocabulary<'_>, rest: Option<&[u8]>) -> Result<JournalLine, Failure<Malformed>>
    requires { Knows names.now.design.now names.now.registers names.now.rules }
    ensures { Reads (λ line. line) result (settle_at names.now.design.now (tokens_left rest.entry)) }
{
    let (worker, rest) = number(rest)?;
    let (_, rest) = next_token(rest)?;
    let answer = settled(names, rest)?;
    Ok(JournalLine::Entry(Entry::Settle { worker, answer }))
}

#[tactic(auto, unfolding(crate::specs::inner::Tokens::batch_at))]
fn batch(rest: Option<&[u8]>) -> Result<JournalLine, Failure<Malformed>>
    ensures { Reads (λ line. line) result (batch_at (tokens_left rest.entry)) }
{
    let (from, rest) = number(rest)?;
    let (to, _) = number(rest)?;
    Ok(JournalLine::Batch { from, to })
}

// The number after `workers=`.
#[tactic(auto, unfolding(crate::specs::inner::Tokens::begin_at))]
fn begin(rest: Option<&[u8]>) -> Result<JournalLine, Failure<Malformed>>
    ensures { Reads (λ line. line) result (begin_at (tokens_left rest.entry)) }
{
    let (token, _) = next_token(rest)?;
    Ok(JournalLine::Begins {
        workers: number_read(after(token, 8)),
    })
}
