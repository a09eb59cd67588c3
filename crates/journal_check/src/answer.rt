//! Journals: outcomes and answers by their tokens.

ghost use Rattle.std.specs.Prelude.{◌≡◌, drop};
ghost use Rattle.journal_check.specs.inner.Naming.{Knows};
ghost use Rattle.journal_check.specs.Tokens as tokens;
ghost use Rattle.journal_check.specs.inner.Tokens as inner_tokens;
ghost use Rattle.journal_check.specs.inner.Tokens.{Reads, ReadsFront, cause_at, clash_cause, closed_at, committed_at, outcome_at, outdated_at, own_at, own_cause, settled_at, skipped_at, stale_at, tokens_left, waiting_at};

use crate::access::{access, value_of};
use crate::head::{number, read_head};
use crate::names::Vocabulary;
use crate::token::{Malformed, next_token};
use attempt_log::{Cause, Settled, StaleRead, Taken};
use kw_bits::Failure;
use typed_core::Outcome;

/// How a rule ended, as read at a cursor.
#[tactic(auto, unfolding(crate::specs::inner::Tokens::outcome_at))]
pub(crate) fn outcome<'a>(
    names: &Vocabulary<'_>,
    rest: Option<&'a [u8]>,
) -> Result<(Outcome, Option<&'a [u8]>), Failure<Malformed>>
    requires { Knows names.now.design.now names.now.registers names.now.rules }
    ensures { ReadsFront result (outcome_at names.now.design.now (tokens_left rest.entry)) }
{
    let (word, rest) = next_token(rest)?;
    if word == b"done".as_slice() {
        return Ok((Outcome::Done, rest));
    }
    if word == b"abort".as_slice() {
        return Ok((Outcome::Abort, rest));
    }
    own_clash(names, rest)
}

fn own_clash<'a>(
    names: &Vocabulary<'_>,
    rest: Option<&'a [u8]>,
) -> Result<(Outcome, Option<&'a [u8]>), Failure<Malformed>>
    requires { Knows names.now.design.now names.now.registers names.now.rules }
    ensures { ReadsFront result (own_at names.now.design.now (tokens_left rest.entry)) }
{
    let (access, rest) = access(names, rest)?;
    Ok((Outcome::OwnClash(access), rest))
}

/// What was answered to an attempt, by its word.
pub(crate) fn taken_read(word: &[u8]) -> Taken
    ensures { result ≡ inner_tokens.taken_read word.now }
{
    if word == b"stored".as_slice() {
        return Taken::Stored;
    }
    if word == b"late".as_slice() {
        return Taken::Late;
    }
    if word == b"ahead".as_slice() {
        return Taken::Ahead;
    }
    Taken::Twice
}

/// What was answered when the head was to be settled, as read at a cursor.
#[tactic(auto, unfolding(crate::specs::inner::Tokens::settled_at))]
pub(crate) fn settled(
    names: &Vocabulary<'_>,
    rest: Option<&[u8]>,
) -> Result<Settled, Failure<Malformed>>
    requires { Knows names.now.design.now names.now.registers names.now.rules }
    ensures { Reads (λ answer. answer) result (settled_at names.now.design.now (tokens_left rest.entry)) }
{
    let (word, rest) = next_token(rest)?;
    if word == b"committed".as_slice() {
        return committed(names, rest);
    }
    if word == b"skipped".as_slice() {
        return skipped(names, rest);
    }
    if word == b"stale".as_slice() {
        return outdated(names, rest);
    }
    if word == b"closed".as_slice() {
        return closed(rest);
    }
    if word == b"waiting".as_slice() {
        return waiting(names, rest);
    }
    Ok(Settled::Finished)
}

#[tactic(auto, unfolding(crate::specs::inner::Tokens::committed_at))]
fn committed(names: &Vocabulary<'_>, rest: Option<&[u8]>) -> Result<Settled, Failure<Malformed>>
    requires { Knows names.now.design.now names.now.registers names.now.rules }
    ensures { Reads (λ answer. answer) result (committed_at names.now.design.now (tokens_left rest.entry)) }
{
    let (head, _) = read_head(names, rest)?;
    Ok(Settled::Committed {
        cycle: head.cycle,
        rule: head.rule,
    })
}

#[tactic(auto, unfolding(crate::specs::inner::Tokens::skipped_at))]
fn skipped(names: &Vocabulary<'_>, rest: Option<&[u8]>) -> Result<Settled, Failure<Malformed>>
    requires { Knows names.now.design.now names.now.registers names.now.rules }
    ensures { Reads (λ answer. answer) result (skipped_at names.now.design.now (tokens_left rest.entry)) }
{
    let (head, rest) = read_head(names, rest)?;
    let cause = cause(names, rest)?;
    Ok(Settled::Skipped {
        cycle: head.cycle,
        rule: head.rule,
        cause,
    })
}

#[tactic(auto, unfolding(crate::specs::inner::Tokens::outdated_at))]
fn outdated(names: &Vocabulary<'_>, rest: Option<&[u8]>) -> Result<Settled, Failure<Malformed>>
    requires { Knows names.now.design.now names.now.registers names.now.rules }
    ensures { Reads (λ answer. answer) result (outdated_at names.now.design.now (tokens_left rest.entry)) }
{
    let (head, rest) = read_head(names, rest)?;
    let read = stale(names, rest)?;
    Ok(Settled::Stale {
        cycle: head.cycle,
        rule: head.rule,
        read,
    })
}

#[tactic(auto, unfolding(crate::specs::inner::Tokens::waiting_at))]
fn waiting(names: &Vocabulary<'_>, rest: Option<&[u8]>) -> Result<Settled, Failure<Malformed>>
    requires { Knows names.now.design.now names.now.registers names.now.rules }
    ensures { Reads (λ answer. answer) result (waiting_at names.now.design.now (tokens_left rest.entry)) }
{
    let (head, _) = read_head(names, rest)?;
    Ok(Settled::Waiting {
        cycle: head.cycle,
        rule: head.rule,
    })
}

#[tactic(auto, unfolding(crate::specs::inner::Tokens::closed_at))]
fn closed(rest: Option<&[u8]>) -> Result<Settled, Failure<Malformed>>
    ensures { Reads (λ answer. answer) result (closed_at (tokens_left rest.entry)) }
{
    let (cycle, _) = number(rest)?;
    Ok(Settled::CycleClosed { cycle })
}

// A read, and the values after `held=` and `now=`.
#[tactic(auto, unfolding(crate::specs::inner::Tokens::stale_at))]
fn stale(names: &Vocabulary<'_>, rest: Option<&[u8]>) -> Result<StaleRead, Failure<Malformed>>
    requires { Knows names.now.design.now names.now.registers names.now.rules }
    ensures { Reads (λ read. read) result (stale_at names.now.design.now (tokens_left rest.entry)) }
{
    let (access, rest) = access(names, rest)?;
    let (held, rest) = next_token(rest)?;
    let (now, _) = next_token(rest)?;
    Ok(StaleRead {
        register: access.register,
        port: access.port,
        held: value_of(names, access.register, after(held, 5))?,
        now: value_of(names, access.register, after(now, 4))?,
    })
}

/// The bytes of a token after the first ones.
pub(crate) fn after(token: &[u8], count: usize) -> &[u8]
    ensures { result.now ≡ drop count token.now }
{
    token.get(count..).unwrap_or(&[])
}

// Why a rule was skipped, as read at a cursor.
#[tactic(auto, unfolding(crate::specs::inner::Tokens::cause_at))]
fn cause(names: &Vocabulary<'_>, rest: Option<&[u8]>) -> Result<Cause, Failure<Malformed>>
    requires { Knows names.now.design.now names.now.registers names.now.rules }
    ensures { Reads (λ cause. cause) result (cause_at names.now.design.now (tokens_left rest.entry)) }
{
    let (word, rest) = next_token(rest)?;
    if word == b"abort".as_slice() {
        return Ok(Cause::Abort);
    }
    if word == b"own".as_slice() {
        return own_cause(names, rest);
    }
    clash_cause(names, rest)
}

#[tactic(auto, unfolding(crate::specs::inner::Tokens::own_cause))]
fn own_cause(names: &Vocabulary<'_>, rest: Option<&[u8]>) -> Result<Cause, Failure<Malformed>>
    requires { Knows names.now.design.now names.now.registers names.now.rules }
    ensures { Reads (λ cause. cause) result (own_cause names.now.design.now (tokens_left rest.entry)) }
{
    let (access, _) = access(names, rest)?;
    Ok(Cause::OwnClash(access))
}

#[tactic(auto, unfolding(crate::specs::inner::Tokens::clash_cause))]
fn clash_cause(names: &Vocabulary<'_>, rest: Option<&[u8]>) -> Result<Cause, Failure<Malformed>>
    requires { Knows names.now.design.now names.now.registers names.now.rules }
    ensures { Reads (λ cause. cause) result (clash_cause names.now.design.now (tokens_left rest.entry)) }
{
    let (access, rest) = access(names, rest)?;
    let (rule, rest) = names.rule(rest)?;
    let (earlier, _) = crate::access::access(names, rest)?;
    Ok(Cause::Clash {
        access,
        rule,
        earlier,
    })
}
