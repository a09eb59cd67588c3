//! Journals: lines as text.

ghost use Rattle.std.specs.Prelude.{◌≡◌, ◌++◌, ◌∷◌, [], map, IfOk, OnOk, codes, decimal};
ghost use Rattle.std.specs.List.{flat_map};
ghost use Rattle.journal_check.specs.Journals.{lines_of_batch};
ghost use Rattle.journal_check.specs.Printing.{batch_tokens, begin_tokens, entry_tokens, event_text, joined_tokens, journal_text, line_text, outcome_tokens, rule_name, settled_tokens, spaced, stale_tokens, text_of};
ghost use Rattle.journal_check.specs.Printing as texts;

use crate::journal::{Batch, Journal};
use crate::line::JournalLine;
use crate::words::{
    name_of, push_access, push_cause, push_events, push_number, push_token, push_value,
};
use attempt_log::{Entry, Settled, StaleRead, Taken};
use itoa::Buffer;
use kw_bits::{NoMemory, Text};
use std::alloc::Global;
use typed_core::{Access, Design, Event, Outcome};

/// The text of a journal: its lines in order, each with a line feed at its end.
pub fn print_journal(alloc: Global, design: &Design, journal: &Journal) -> Result<Text, NoMemory>
    ensures { IfOk result (λ text. text ≡ journal_text design.now journal.now) }
{
    let mut text = Text::new(alloc);
    let begins = JournalLine::Begins {
        workers: journal.workers,
    };
    push_line(&mut text, design, &begins)?;
    text.push(b'\n')?;
    for batch in journal.batches.as_slice() {
        push_lines(&mut text, design, batch)?;
    }
    Ok(text)
}

/// The line with which a journal of this many workers begins, with a line feed at its end.
pub fn print_begin(alloc: Global, workers: u32) -> Result<Text, NoMemory>
    ensures { IfOk result (λ text. text ≡ texts.ended (joined_tokens (begin_tokens workers))) }
{
    let mut text = Text::new(alloc);
    push_begin(&mut text, workers)?;
    text.push(b'\n')?;
    Ok(text)
}

/// The lines of a batch, each with a line feed at its end.
pub fn print_batch(alloc: Global, design: &Design, batch: &Batch) -> Result<Text, NoMemory>
    ensures { IfOk result (λ text. text ≡ text_of design.now (lines_of_batch batch.now)) }
{
    let mut text = Text::new(alloc);
    push_lines(&mut text, design, batch)?;
    Ok(text)
}

// Adds the lines of a batch, each with its line feed.
fn push_lines(text: &mut Text, design: &Design, batch: &Batch) -> Result<(), NoMemory>
    ensures { OnOk result (text.new ≡ text.old ++ text_of design.now (lines_of_batch batch.now)) }
{
    let cycles = JournalLine::Batch {
        from: batch.from,
        to: batch.to,
    };
    push_line(text, design, &cycles)?;
    text.push(b'\n')?;
    for entry in batch.entries.as_slice() {
        push_ended(text, design, entry)?;
    }
    Ok(())
}

// Adds an entry and a line feed.
fn push_ended(text: &mut Text, design: &Design, entry: &Entry) -> Result<(), NoMemory>
    ensures { OnOk result (text.new ≡ text.old ++ texts.ended (joined_tokens (entry_tokens design.now entry.now))) }
{
    push_entry(text, design, entry)?;
    text.push(b'\n')
}

/// Adds a line, without its line feed.
pub(crate) fn push_line(
    text: &mut Text,
    design: &Design,
    line: &JournalLine,
) -> Result<(), NoMemory>
    ensures { OnOk result (text.new ≡ text.old ++ line_text design.now line.now) }
{
    match line {
        JournalLine::Begins { workers } => push_begin(text, *workers),
        JournalLine::Batch { from, to } => push_batch(text, *from, *to),
        JournalLine::Entry(entry) => push_entry(text, design, entry),
    }
}

fn push_begin(text: &mut Text, workers: u32) -> Result<(), NoMemory>
    ensures { OnOk result (text.new ≡ text.old ++ joined_tokens (begin_tokens workers)) }
{
    text.extend_from_slice(b"journal")?;
    push_token(text, b"workers=")?;
    text.extend_from_slice(Buffer::new().format(workers).as_bytes())
}

fn push_batch(text: &mut Text, from: u32, to: u32) -> Result<(), NoMemory>
    ensures { OnOk result (text.new ≡ text.old ++ joined_tokens (batch_tokens from to)) }
{
    text.extend_from_slice(b"batch")?;
    push_number(text, from)?;
    push_number(text, to)
}

fn push_entry(text: &mut Text, design: &Design, entry: &Entry) -> Result<(), NoMemory>
    ensures { OnOk result (text.new ≡ text.old ++ joined_tokens (entry_tokens design.now entry.now)) }
{
    match entry {
        Entry::Submit {
            worker,
            cycle,
            rule,
            events,
            outcome,
            answer,
            ..
        } => {
            text.push(b's')?;
            push_number(text, *worker)?;
            push_number(text, *cycle)?;
            push_token(text, name_of(design, *rule as usize))?;
            push_attempt(text, design, outcome, events.as_slice(), *answer)
        }
        Entry::Settle { worker, answer } => {
            text.push(b't')?;
            push_number(text, *worker)?;
            push_token(text, b":")?;
            push_settled(text, design, answer)
        }
    }
}

// Adds how a rule ended, its events, a colon and an answer.
#[tactic(auto, using(crate::proofs::Texts::spaced_in_turn))]
fn push_attempt(
    text: &mut Text,
    design: &Design,
    outcome: &Outcome,
    events: &[Event],
    answer: Taken,
) -> Result<(), NoMemory>
    ensures { OnOk result (text.new ≡ text.old ++ flat_map spaced (outcome_tokens design.now outcome.now ++ (map (event_text design.now) events.now ++ (codes ":" ∷ texts.taken_text answer ∷ [])))) }
{
    push_outcome(text, design, outcome)?;
    push_events(text, design, events)?;
    push_taken(text, answer)?;
    Ok(())
}

fn push_taken(text: &mut Text, answer: Taken) -> Result<(), NoMemory>
    ensures { OnOk result (text.new ≡ text.old ++ flat_map spaced (codes ":" ∷ texts.taken_text answer ∷ [])) }
{
    push_token(text, b":")?;
    push_token(text, taken_text(answer))
}

fn push_outcome(text: &mut Text, design: &Design, outcome: &Outcome) -> Result<(), NoMemory>
    ensures { OnOk result (text.new ≡ text.old ++ flat_map spaced (outcome_tokens design.now outcome.now)) }
{
    match outcome {
        Outcome::Done => push_token(text, b"done"),
        Outcome::Abort => push_token(text, b"abort"),
        Outcome::OwnClash(access) => {
            push_token(text, b"own")?;
            push_access(text, design, access)
        }
    }
}

fn taken_text(taken: Taken) -> &'static [u8]
    ensures { result.now ≡ texts.taken_text taken }
{
    match taken {
        Taken::Stored => b"stored",
        Taken::Late => b"late",
        Taken::Ahead => b"ahead",
        Taken::Twice => b"twice",
    }
}

fn push_settled(text: &mut Text, design: &Design, settled: &Settled) -> Result<(), NoMemory>
    ensures { OnOk result (text.new ≡ text.old ++ flat_map spaced (settled_tokens design.now settled.now)) }
{
    match settled {
        Settled::Committed { cycle, rule } => push_head(text, design, b"committed", *cycle, *rule),
        Settled::Skipped { cycle, rule, cause } => {
            push_head(text, design, b"skipped", *cycle, *rule)?;
            push_cause(text, design, cause)
        }
        Settled::Stale { cycle, rule, read } => {
            push_head(text, design, b"stale", *cycle, *rule)?;
            push_stale(text, design, *read)
        }
        Settled::CycleClosed { cycle } => {
            push_token(text, b"closed")?;
            push_number(text, *cycle)
        }
        Settled::Waiting { cycle, rule } => push_head(text, design, b"waiting", *cycle, *rule),
        Settled::Finished => push_token(text, b"finished"),
    }
}

// Adds a word, a cycle and a rule.
fn push_head(
    text: &mut Text,
    design: &Design,
    word: &[u8],
    cycle: u32,
    rule: u32,
) -> Result<(), NoMemory>
    ensures { OnOk result (text.new ≡ text.old ++ flat_map spaced (word.now ∷ decimal cycle ∷ rule_name design.now rule ∷ [])) }
{
    push_token(text, word)?;
    push_number(text, cycle)?;
    push_token(text, name_of(design, rule as usize))
}

fn push_stale(text: &mut Text, design: &Design, read: StaleRead) -> Result<(), NoMemory>
    ensures { OnOk result (text.new ≡ text.old ++ flat_map spaced (stale_tokens design.now read)) }
{
    let access = Access {
        write: false,
        port: read.port,
        register: read.register,
    };
    push_access(text, design, &access)?;
    push_token(text, b"held=")?;
    push_value(text, read.held)?;
    push_token(text, b"now=")?;
    push_value(text, read.now)
}
