//! Journals, beside what `why` writes: whether both have the same verdicts.

use crate::run;
use std::alloc::Global;
use std::{fs, io};

/// Writes the verdicts of `why` on that many cycles of the source in a file, and says whether the journal after the
/// source has them.
pub(crate) fn run_journal(rt: &HostRuntime, cycles: &str, file: &str) -> io::Result<()> {
    let alloc = rt.alloc();
    let text = fs::read_to_string(rt, file)?;
    let (source, journal) = text.as_str().split_once("%%\njournal ").unwrap_or(("", ""));
    let mut words = String::from_str(alloc, "why --cycle 1 --cycles ")?;
    words.push_str(cycles)?;
    let ended = run(alloc, words.as_str(), source.as_bytes(), &[], &[])?;
    let written = str::from_utf8(ended.written.as_slice()).unwrap_or("");
    let found = verdicts_of_why(alloc, written)?;
    let stored = verdicts_of_journal(alloc, journal)?;
    print!(rt; "{found}")?;
    if found.as_str() == stored.as_str() {
        println!(rt; "the same verdicts")
    } else {
        println!(rt; "other verdicts")
    }
}

// The verdicts in a journal, in order: a line for each, of the cycle, the rule, and `fired` or why it didn't.
fn verdicts_of_journal(alloc: Global, journal: &str) -> io::Result<String> {
    let mut verdicts = String::new(alloc);
    for line in journal.lines() {
        let (call, answer) = line.split_once(" : ").unwrap_or(("", ""));
        if call.starts_with("t ") {
            push_answer(&mut verdicts, answer)?;
        }
    }
    Ok(verdicts)
}

// Adds the verdict in an answer, if there is one.
fn push_answer(verdicts: &mut String, answer: &str) -> io::Result<()> {
    if let Some(fired) = answer.strip_prefix("committed ") {
        verdicts.push_str(fired)?;
        verdicts.push_str(" fired\n")?;
    }
    if let Some(refused) = answer.strip_prefix("skipped ") {
        verdicts.push_str(refused)?;
        verdicts.push_str("\n")?;
    }
    Ok(())
}

// Those in what `why` writes, in the same form. A rule that wasn't tried has none.
fn verdicts_of_why(alloc: Global, written: &str) -> io::Result<String> {
    let mut verdicts = String::new(alloc);
    let mut cycle = String::new(alloc);
    for line in written.lines() {
        if let Some(found) = line.strip_prefix("cycle ") {
            let (number, _) = found.split_once(' ').unwrap_or((found, ""));
            cycle = number.to_string(alloc)?;
        } else if let Some((verdict, _)) = line.split_once(" :") {
            push_verdict(&mut verdicts, cycle.as_str(), verdict)?;
        }
    }
    Ok(verdicts)
}

// Adds the line of a verdict in a cycle.
fn push_verdict(verdicts: &mut String, cycle: &str, verdict: &str) -> io::Result<()> {
    verdicts.push_str(cycle)?;
    verdicts.push_str(" ")?;
    verdicts.push_str(verdict)?;
    verdicts.push_str("\n")?;
    Ok(())
}
