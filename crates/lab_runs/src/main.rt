//! Runs the lab on small sources. A line of standard input has the lab's words and, after `: `, a source, in which `/`
//! ends a line. The line is written, then what the lab writes, with its status where the text doesn't say it. After `failing`
//! each read fails in turn, and then each write. After `watching N` a read gives at most N bytes, and it is said after which
//! line the source is read on, where the lab's own lines show what was written before.
//!
//! `slow` and a source write the trials of its first cycle as `slow_trials` finds them, and whether `trials` finds the same.
//! `occurring` and a source write what occurs in the body of each rule, as `all_occurrences` lists it.
//! `journal N` and, after ` < `, a file say whether `why` has on N cycles the verdicts of the journal in the file.
//!
//! It has no definition of its own. The merge gate compares what it writes with `stdout`.
#![tactic(auto)]

mod journals;
mod occurring;
mod slow;
mod watched;

use crate::journals::run_journal;
use crate::occurring::run_occurring;
use crate::slow::run_slow;
use crate::watched::run_watching;
use host_fn::offered::BITS_OF_ONE;
use host_fn::{HostFn, offered};
use kw_bits::{HostKind, NoMemory};
use kw_io::{MemSink, MemSource, print_ended};
use lab_top::lab;
use std::alloc::Global;
use std::io;
use std::io::{ErrorKind, Write};

// Reads and writes are short, so that none has a whole line.
const PIECE: usize = 7;

// How many bytes a source and an answer may have.
pub(crate) const ROOM: usize = 65_536;

// The exit status of a call, and what it wrote.
#[derive(Debug, Drop)]
pub(crate) struct Ended {
    pub(crate) status: u8,
    pub(crate) written: Vec<u8>,
}

fn main(rt: HostRuntime) -> io::Result<()> {
    for case in rt.lines(rt.alloc()) {
        let case = case?;
        println!(rt; "{case}")?;
        run_line(&rt, case.as_str())?;
    }
    Ok(())
}

// Runs the case of a line.
fn run_line(rt: &HostRuntime, case: &str) -> io::Result<()> {
    if let Some(journal) = case.strip_prefix("journal ") {
        let (cycles, file) = journal.split_once(" < ").unwrap_or(("", ""));
        return run_journal(rt, cycles, file);
    }
    let (words, source) = case.split_once(": ").unwrap_or((case, ""));
    let source = source.replace(rt.alloc(), '/', "\n")?;
    if words == "slow" {
        return run_slow(rt, source.as_bytes());
    }
    if words == "occurring" {
        return run_occurring(rt, source.as_bytes());
    }
    if let Some(watching) = words.strip_prefix("watching ") {
        let (piece, words) = watching.split_once(' ').unwrap_or(("", ""));
        return run_watching(rt, words, source.as_bytes(), piece.parse().unwrap_or(PIECE));
    }
    match words.strip_prefix("failing ") {
        Some(words) => run_failing(rt, words, source.as_bytes()),
        None => run_case(rt, words, source.as_bytes()),
    }
}

// Writes what the lab writes, with its status where the text doesn't say it.
fn run_case(rt: &HostRuntime, words: &str, source: &[u8]) -> io::Result<()> {
    let ended = run(rt.alloc(), words, source, &[], &[])?;
    let written = ended.written.as_slice();
    rt.stdout().write_all(written)?;
    if ended.status != status_shown(written) {
        println!(rt; "status {}", ended.status)?;
    }
    Ok(())
}

// The status that goes with an answer.
fn status_shown(answer: &[u8]) -> u8 {
    if answer.starts_with(b"usage: ") {
        1
    } else if answer.starts_with(b"fault ") {
        2
    } else {
        0
    }
}

// Runs the lab with each read failing in turn, and then with each write, until none fails.
fn run_failing(rt: &HostRuntime, words: &str, source: &[u8]) -> io::Result<()> {
    let alloc = rt.alloc();
    let whole = run(alloc, words, source, &[], &[])?;
    for call in 1..u64::MAX {
        let ended = run(alloc, words, source, &[call], &[])?;
        print!(rt; "read {call}: ")?;
        print_ended(
            rt,
            ended.status,
            ended.written.as_slice(),
            whole.written.as_slice(),
        )?;
        if ended.status == whole.status {
            break;
        }
    }
    for call in 1..u64::MAX {
        let ended = run(alloc, words, source, &[], &[call])?;
        print!(rt; "write {call}: ")?;
        print_ended(
            rt,
            ended.status,
            ended.written.as_slice(),
            whole.written.as_slice(),
        )?;
        if ended.status == whole.status {
            break;
        }
    }
    Ok(())
}

// Runs the lab over memory, where these calls of the source and of the sink fail.
#[tactic(auto, unfolding(kw_bits::specs::Host::arity))]
pub(crate) fn run(
    alloc: Global,
    words: &str,
    source: &[u8],
    failing_reads: &[u64],
    failing_writes: &[u64],
) -> io::Result<Ended> {
    let words = words_of(alloc, words)?;
    let source = Vec::from_slice(alloc, source)?;
    let mut source = MemSource::new(source, PIECE, Vec::from_slice(alloc, failing_reads)?);
    let failing = Vec::from_slice(alloc, failing_writes)?;
    let mut sink = MemSink::new(alloc, ROOM, PIECE, failing).map_err(out_of_memory)?;
    let hosts = [HostFn::new(HostKind::Popcount, BITS_OF_ONE, offered::popcount).unwrap()];
    let status = lab(alloc, words.as_slice(), &hosts, &mut source, &mut sink).number();
    Ok(Ended {
        status,
        written: Vec::from_slice(alloc, sink.written())?,
    })
}

fn out_of_memory(_: NoMemory) -> io::Error {
    io::Error::from(ErrorKind::OutOfMemory)
}

// The words of a line, one space apart.
pub(crate) fn words_of(alloc: Global, words: &str) -> io::Result<Vec<String>> {
    let mut all = Vec::new(alloc);
    if !words.is_empty() {
        for word in words.split(' ') {
            all.push(String::from_str(alloc, word)?)?;
        }
    }
    Ok(all)
}
