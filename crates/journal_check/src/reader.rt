//! Journals: the reader of texts.

ghost use Rattle.std.specs.Prelude.{◌≡◌, ◌≢◌, ◌<◌, ◌≤◌, ◌^◌, ◌++◌, ◌∷◌, ◌↔◌, [], List, IsTrue, IfOk, OnOk, length, Some, None};
ghost use Rattle.kw_base.specs.Fault.{IfFault};
ghost use Rattle.kw_base.specs.Texts.{lines_of};
ghost use Rattle.journal_check.specs.inner.Allowed.{Differs, IsAllowed};
ghost use Rattle.journal_check.specs.Fitting.{IsSmall, LineFits};
ghost use Rattle.journal_check.specs.inner.Naming.{Knows};
ghost use Rattle.journal_check.specs.Printing.{line_text};
ghost use Rattle.journal_check.specs.Reading.{IsFirstMalformed, IsJournal, MayFollow, NoneFollows, malformed_at};
ghost use Rattle.journal_check.specs.inner.Steps.{Adds, IsMalformed, refusal_of};
ghost use Rattle.journal_check.specs.declared.journal.Batch.{Batch as BatchOf};
ghost use Rattle.journal_check.specs.declared.line.JournalLine.{JournalLine as LineOf};
ghost use Rattle.journal_check.specs.declared.line.JournalLine.TheVariants as lines;

use crate::entry::line;
use crate::journal::{Batch, Journal};
use crate::line::JournalLine;
use crate::names::Vocabulary;
use crate::print::push_line;
use crate::token::Malformed;
use attempt_log::{Entry, Settled};
use board_core::MAX_CYCLES;
use kw_base::fault_number::MALFORMED_JOURNAL;
use kw_base::texts::next_line;
use kw_base::{Fault, Place, Refusal};
use kw_bits::{Failure, NoMemory, Sequence, Text};
use one_rule::Stimulus;
use std::alloc::Global;
use typed_core::Design;

/// A journal is of at most this many workers.
const MAX_JOURNAL_WORKERS: u32 = 8;

/// The journal of a text whose first line has this number in its source, or the fault of the first line that is of no
/// form, at its first column.
pub fn read_journal(
    alloc: Global,
    bytes: &[u8],
    first_line: u32,
    design: &Design,
    stimulus: &Stimulus,
) -> Result<Journal, Refusal>
    ensures journal { IfOk result (IsJournal design.now stimulus.now first_line bytes.now) }
    ensures fault { IfFault result (IsFirstMalformed design.now stimulus.now first_line bytes.now) }
{
    let names = Vocabulary::new(alloc, design)?;
    let reader = LineReader { names, stimulus };
    read_lines(alloc, &reader, bytes, first_line)
}

// What lines are read by: the names of a design, and a stimulus for it.
#[derive(Drop)]
struct LineReader<'a> {
    names: Vocabulary<'a>,
    stimulus: &'a Stimulus,
}

fn read_lines(
    alloc: Global,
    reader: &LineReader<'_>,
    bytes: &[u8],
    first_line: u32,
) -> Result<Journal, Refusal>
    requires { Knows reader.now.names.design.now reader.now.names.registers reader.now.names.rules }
    ensures journal { IfOk result (IsJournal reader.now.names.design.now reader.now.stimulus.now first_line bytes.now) }
    ensures fault { IfFault result (IsFirstMalformed reader.now.names.design.now reader.now.stimulus.now first_line bytes.now) }
{
    let mut page = Text::new(alloc);
    let beginning = read_beginning(alloc, reader, &mut page, bytes, first_line)?;
    let mut journal = Journal {
        workers: beginning.workers,
        line: first_line,
        batches: Sequence::new(alloc),
    };
    let mut number = first_line.saturating_add(1);
    let mut rest = beginning.rest;
    while let Some(line) = next_line(rest) {
        add_line(alloc, reader, &mut page, &mut journal, line.bytes, number)?;
        number = number.saturating_add(1);
        rest = line.rest;
    }
    Ok(journal)
}

// How many workers the first line says there were, and the bytes after it.
#[derive(Clone, Copy)]
struct Beginning<'a> {
    workers: u32,
    rest: &'a [u8],
}

fn read_beginning<'a>(
    alloc: Global,
    reader: &LineReader<'_>,
    page: &mut Text,
    bytes: &'a [u8],
    number: u32,
) -> Result<Beginning<'a>, Refusal>
    requires { Knows reader.now.names.design.now reader.now.names.registers reader.now.names.rules }
    ensures begins { IfOk result (λ begun. LineFits reader.now.names.design.now reader.now.stimulus.now begun.workers (lines.Begins begun.workers)
        × (lines_of bytes.now ≡ line_text reader.now.names.design.now (lines.Begins begun.workers) ∷ lines_of begun.rest.now)) }
    ensures fault { IfFault result (λ fault. (fault ≡ malformed_at number) × NoneFollows reader.now.names.design.now reader.now.stimulus.now None (lines_of bytes.now)) }
{
    let Some(line) = next_line(bytes) else {
        return Err(refusal(Failure::Why(Malformed), number));
    };
    let workers = read_workers(alloc, reader, page, line.bytes, number)?;
    Ok(Beginning {
        workers,
        rest: line.rest,
    })
}

// How many workers a first line says there were.
fn read_workers(
    alloc: Global,
    reader: &LineReader<'_>,
    page: &mut Text,
    bytes: &[u8],
    number: u32,
) -> Result<u32, Refusal>
    requires { Knows reader.now.names.design.now reader.now.names.registers reader.now.names.rules }
    ensures fits { IfOk result (λ workers. LineFits reader.now.names.design.now reader.now.stimulus.now workers (lines.Begins workers)) }
    ensures text { IfOk result (λ workers. bytes.now ≡ line_text reader.now.names.design.now (lines.Begins workers)) }
    ensures fault { IfFault result (IsMalformed reader.now.names.design.now (MayFollow reader.now.names.design.now reader.now.stimulus.now None) bytes.now number) }
{
    let line = read_line(alloc, reader, page, 0, bytes, number)?;
    match line {
        JournalLine::Begins { workers } => Ok(workers),
        JournalLine::Batch { .. } => Err(refusal(Failure::Why(Malformed), number)),
        JournalLine::Entry(_entry) => Err(refusal(Failure::Why(Malformed), number)),
    }
}

// Adds what a later line says.
fn add_line(
    alloc: Global,
    reader: &LineReader<'_>,
    page: &mut Text,
    journal: &mut Journal,
    bytes: &[u8],
    number: u32,
) -> Result<(), Refusal>
    requires knows { Knows reader.now.names.design.now reader.now.names.registers reader.now.names.rules }
    requires few { IsSmall journal.old.workers }
    ensures adds { OnOk result ((l : LineOf) × MayFollow reader.now.names.design.now reader.now.stimulus.now (Some journal.old) l × (bytes.now ≡ line_text reader.now.names.design.now l) × Adds journal.old journal.new number l) }
    ensures fault { IfFault result (IsMalformed reader.now.names.design.now (MayFollow reader.now.names.design.now reader.now.stimulus.now (Some journal.old)) bytes.now number) }
{
    let line = read_line(alloc, reader, page, journal.workers, bytes, number)?;
    match line {
        JournalLine::Begins { .. } => Err(refusal(Failure::Why(Malformed), number)),
        JournalLine::Batch { from, to } => add_batch(alloc, &mut journal.batches, from, to, number),
        JournalLine::Entry(entry) => add_entry(&mut journal.batches, entry, number),
    }
}

// Adds a batch without entries.
fn add_batch(
    alloc: Global,
    batches: &mut Sequence<Batch>,
    from: u32,
    to: u32,
    line: u32,
) -> Result<(), Refusal>
    ensures ok { OnOk result (batches.new ≡ batches.old ++ record { from = from; to = to; line = line; entries = []; lines = [] } ∷ []) }
    ensures fault { IfFault result (λ _. ⊥) }
{
    batches.push(Batch {
        from,
        to,
        line,
        entries: Sequence::new(alloc),
        lines: Sequence::new(alloc),
    })?;
    Ok(())
}

// Adds an entry to the last batch.
fn add_entry(batches: &mut Sequence<Batch>, entry: Entry, number: u32) -> Result<(), Refusal>
    ensures ok { OnOk result ((front : List BatchOf) × (batch : BatchOf) × (batches.old ≡ front ++ batch ∷ [])
        × (batches.new ≡ front ++ record batch { entries = batch.entries ++ entry ∷ []; lines = batch.lines ++ number ∷ [] } ∷ [])) }
    ensures fault { IfFault result (λ fault. (fault ≡ malformed_at number) × (batches.old ≡ [])) }
{
    let Some(mut batch) = batches.pop() else {
        return Err(refusal(Failure::Why(Malformed), number));
    };
    batch.entries.push(entry)?;
    batch.lines.push(number)?;
    batches.push(batch)?;
    Ok(())
}

// What the line of a number says, if it fits and is printed so.
fn read_line(
    alloc: Global,
    reader: &LineReader<'_>,
    page: &mut Text,
    workers: u32,
    bytes: &[u8],
    number: u32,
) -> Result<JournalLine, Refusal>
    requires { Knows reader.now.names.design.now reader.now.names.registers reader.now.names.rules }
    ensures line { IfOk result (λ l. LineFits reader.now.names.design.now reader.now.stimulus.now workers l × (bytes.now ≡ line_text reader.now.names.design.now l)) }
    ensures fault { IfFault result (IsMalformed reader.now.names.design.now (LineFits reader.now.names.design.now reader.now.stimulus.now workers) bytes.now number) }
{
    let line = match line(alloc, &reader.names, reader.stimulus, bytes) {
        Ok(line) => line,
        Err(flaw) => return Err(refusal(flaw, number)),
    };
    reader.names.design.recall();
    if !is_allowed(&line, workers) {
        return Err(refusal(Failure::Why(Malformed), number));
    }
    let printed = is_printed_so(page, reader.names.design, &line, bytes)?;
    if !printed {
        return Err(refusal(Failure::Why(Malformed), number));
    }
    Ok(line)
}

// The refusal of the line of this number.
fn refusal(flaw: Failure<Malformed>, line: u32) -> Refusal
    ensures { result ≡ refusal_of flaw line }
{
    match flaw {
        Failure::Why(_) => {
            Refusal::Fault(Fault::new(MALFORMED_JOURNAL, Place { line, column: 1 }))
        }
        Failure::NoMemory => Refusal::NoMemory,
    }
}

// Whether a line is printed so. The page is for use again.
fn is_printed_so(
    page: &mut Text,
    design: &Design,
    line: &JournalLine,
    bytes: &[u8],
) -> Result<bool, NoMemory>
    ensures { IfOk result (λ is. IsTrue is ↔ (line_text design.now line.now ≡ bytes.now)) }
{
    page.clear();
    push_line(page, design, line)?;
    Ok(page.as_slice() == bytes)
}

// Whether the numbers of a line are in their ranges, and the two values of a stale read differ.
fn is_allowed(line: &JournalLine, workers: u32) -> bool
    ensures { IsTrue result ↔ IsAllowed workers line.now }
{
    match line {
        JournalLine::Begins { workers } => 1 <= *workers && *workers <= MAX_JOURNAL_WORKERS,
        JournalLine::Batch { .. } => true,
        JournalLine::Entry(Entry::Submit { worker, cycle, .. }) => {
            *worker <= workers && 1 <= *cycle && *cycle <= MAX_CYCLES
        }
        JournalLine::Entry(Entry::Settle { worker, answer }) => *worker <= workers
            && differs(answer),
    }
}

fn differs(answer: &Settled) -> bool
    ensures { IsTrue result ↔ Differs answer.now }
{
    match answer {
        Settled::Stale { read, .. } => read.held != read.now,
        Settled::Committed { .. }
        | Settled::Skipped { .. }
        | Settled::CycleClosed { .. }
        | Settled::Waiting { .. }
        | Settled::Finished => true,
    }
}
