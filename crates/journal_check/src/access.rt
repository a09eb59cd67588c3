//! Journals: accesses, values and events by their bytes.

ghost use Rattle.std.specs.Prelude.{◌≡◌, ◌+◌, bytes_eq, codes, length};
ghost use Rattle.journal_check.specs.inner.Naming.{Knows};
ghost use Rattle.journal_check.specs.inner.Tokens.{Reads, ReadsFront, access_at, access_read, event_read, events_at, tokens_left, value_of};
ghost use Rattle.stim_report.specs.Assignments.{behind_equals, name_and_value};

use crate::names::Vocabulary;
use crate::number::value_read;
use crate::token::{Malformed, next_token};
use kw_base::texts::{Separator, cut};
use kw_bits::{Bits, Failure};
use std::alloc::Global;
use typed_core::limits::PORTS;
use typed_core::{Access, Event, Events};

/// The access at a cursor.
#[tactic(auto, unfolding(crate::specs::inner::Tokens::access_at))]
pub(crate) fn access<'a>(
    names: &Vocabulary<'_>,
    rest: Option<&'a [u8]>,
) -> Result<(Access, Option<&'a [u8]>), Failure<Malformed>>
    requires { Knows names.now.design.now names.now.registers names.now.rules }
    ensures { ReadsFront result (access_at names.now.design.now (tokens_left rest.entry)) }
{
    let (token, rest) = next_token(rest)?;
    Ok((access_read(names, token)?, rest))
}

// The access of a token: a byte, the port, a byte and the register's name.
fn access_read(names: &Vocabulary<'_>, token: &[u8]) -> Result<Access, Failure<Malformed>>
    requires { Knows names.now.design.now names.now.registers names.now.rules }
    ensures { Reads (λ access. access) result (access_read names.now.design.now token.now) }
{
    let [kind, port, _, name @ ..] = token else {
        return Err(Failure::Why(Malformed));
    };
    Ok(Access {
        write: *kind == b'w',
        port: u32::from(*port) % PORTS,
        register: names.register(name)?,
    })
}

/// The value of a register that digits write.
pub(crate) fn value_of(
    names: &Vocabulary<'_>,
    register: u32,
    digits: &[u8],
) -> Result<Bits, Failure<Malformed>>
    ensures { Reads (λ value. value) result (value_of names.now.design.now register digits.now) }
{
    let design = names.design;
    let Some(decl) = design.regs.as_slice().get(register as usize) else {
        return Err(Failure::Why(Malformed));
    };
    match Bits::new(decl.width, value_read(digits)) {
        Some(value) => Ok(value),
        None => Err(Failure::Why(Malformed)),
    }
}

// The event of a token.
#[tactic(auto, unfolding(crate::specs::inner::Tokens::event_read))]
fn event_read(names: &Vocabulary<'_>, token: &[u8]) -> Result<Event, Failure<Malformed>>
    requires { Knows names.now.design.now names.now.registers names.now.rules }
    ensures { Reads (λ event. event) result (event_read names.now.design.now token.now) }
{
    let (access, digits) = name_and_value(token)?;
    let access = access_read(names, access)?;
    let value = value_of(names, access.register, digits)?;
    Ok(Event { access, value })
}

/// The events before the first colon at a cursor.
pub(crate) fn events<'a>(
    alloc: Global,
    names: &Vocabulary<'_>,
    rest: Option<&'a [u8]>,
) -> Result<(Events, Option<&'a [u8]>), Failure<Malformed>>
    requires { Knows names.now.design.now names.now.registers names.now.rules }
    ensures { ReadsFront result (events_at names.now.design.now (tokens_left rest.entry)) }
{
    let mut events = Events::new(alloc);
    let mut rest = rest;
    while let Some(bytes) = rest {
        let (token, behind) = cut(bytes, Separator::Space);
        rest = behind;
        if is_colon(token) {
            return Ok((events, rest));
        }
        let event = event_read(names, token)?;
        events.push(event)?;
    }
    Err(Failure::Why(Malformed))
}

fn is_colon(token: &[u8]) -> bool
    ensures { result ≡ bytes_eq token.now (codes ":") }
{
    token == b":".as_slice()
}

// What comes before the last `=` of a token, if anything does, and what comes after it.
fn name_and_value(token: &[u8]) -> Result<(&[u8], &[u8]), Failure<Malformed>>
    ensures { Reads (λ parts. (parts.0.now, parts.1.now)) result (name_and_value token.now) }
{
    let start = start_of_value(token);
    if start < 2 {
        return Err(Failure::Why(Malformed));
    }
    let (name, _) = token.split_at(start - 1);
    let (_, value) = token.split_at(start);
    Ok((name, value))
}

// Where the bytes begin that have no `=` after them.
#[tactic(auto, using(crate::proofs::EventsCut::equals))]
fn start_of_value(token: &[u8]) -> usize
    ensures { result + behind_equals token.now ≡ length token.now }
{
    let mut start = token.len();
    while start > 0 && token[start - 1] != b'=' {
        start -= 1;
    }
    start
}
