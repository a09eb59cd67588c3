//! Runs of designs by other engines: by their circuits, of words and of bits, written and read back, by workers, and by
//! workers' journals.

use crate::PIECE;
use crate::runs::{run, words_of};
use std::alloc::Global;
use std::io;
use std::sync::Wait;
use std::thread::Threads;

/// Whether the circuit of a source's design, compiled and read back, shows the same run with these options as the
/// design.
pub(crate) fn shows_the_same_run(
    rt: &HostRuntime,
    threads: &(impl Threads + Wait + Sync),
    options: &str,
    source: &str,
) -> io::Result<bool> {
    converted_shows_the_same_run(rt, threads, "compile", "btorsim", options, source)
}

/// Whether the bit-level circuit of a source's design, written and read back, shows the same run with these options as
/// the design.
pub(crate) fn bits_show_the_same_run(
    rt: &HostRuntime,
    threads: &(impl Threads + Wait + Sync),
    options: &str,
    source: &str,
) -> io::Result<bool> {
    converted_shows_the_same_run(rt, threads, "aiger", "aigsim", options, source)
}

// Whether what one command writes of a source shows, by another command on it and the source's stimulus, the same run
// with these options as the source's design.
fn converted_shows_the_same_run(
    rt: &HostRuntime,
    threads: &(impl Threads + Wait + Sync),
    converting: &str,
    running: &str,
    options: &str,
    source: &str,
) -> io::Result<bool> {
    let report = answer(rt, threads, "sim", options, source.as_bytes())?;
    let mut circuit = answer(rt, threads, converting, "", source.as_bytes())?;
    if let Some((_, stimulus)) = source.split_once("\n%%") {
        circuit.extend_from_slice(b"%%")?;
        circuit.extend_from_slice(stimulus.as_bytes())?;
    }
    let read_back = answer(rt, threads, running, options, circuit.as_slice())?;
    Ok(report.as_slice() == read_back.as_slice())
}

/// Whether that many workers show the same run of a source's design with these options as the plain engine.
pub(crate) fn workers_show_the_same_run(
    rt: &HostRuntime,
    threads: &(impl Threads + Wait + Sync),
    count: &str,
    options: &str,
    source: &str,
) -> io::Result<bool> {
    let report = answer(rt, threads, "sim", options, source.as_bytes())?;
    let mut more = String::from_str(rt.alloc(), options)?;
    more.push_str(" --workers ")?;
    more.push_str(count)?;
    let by_workers = answer(rt, threads, "sim", more.as_str(), source.as_bytes())?;
    Ok(report.as_slice() == by_workers.as_slice())
}

/// Whether the journal of that many workers, rechecked, shows the same run of a source's design with these options as
/// the plain engine.
pub(crate) fn journal_shows_the_same_run(
    rt: &HostRuntime,
    threads: &(impl Threads + Wait + Sync),
    count: &str,
    options: &str,
    source: &str,
) -> io::Result<bool> {
    let report = answer(rt, threads, "sim", options, source.as_bytes())?;
    let journal = journal_of(rt, threads, count, options, source)?;
    let whole = with_journal(rt.alloc(), source, journal.as_slice())?;
    let rechecked = answer(rt, threads, "recheck", options, whole.as_slice())?;
    Ok(report.as_slice() == rechecked.as_slice())
}

/// The journal of that many workers, of a run of a source's design with these options.
pub(crate) fn journal_of(
    rt: &HostRuntime,
    threads: &(impl Threads + Wait + Sync),
    count: &str,
    options: &str,
    source: &str,
) -> io::Result<Vec<u8>> {
    let mut more = String::from_str(rt.alloc(), options)?;
    more.push_str(" --journal --workers ")?;
    more.push_str(count)?;
    answer(rt, threads, "sim", more.as_str(), source.as_bytes())
}

/// A source with a journal after its design and its stimulus.
pub(crate) fn with_journal(alloc: Global, source: &str, journal: &[u8]) -> io::Result<Vec<u8>> {
    let mut whole = Vec::from_slice(alloc, source.as_bytes())?;
    if source.split_once("\n%%").is_none() {
        whole.extend_from_slice(b"\n%%")?;
    }
    whole.extend_from_slice(b"\n%%\n")?;
    whole.extend_from_slice(journal)?;
    Ok(whole)
}

// What the program writes on a command with these options and a source.
fn answer(
    rt: &HostRuntime,
    threads: &(impl Threads + Wait + Sync),
    command: &str,
    options: &str,
    source: &[u8],
) -> io::Result<Vec<u8>> {
    let alloc = rt.alloc();
    let mut words = Vec::new(alloc);
    words.push(String::from_str(alloc, command)?)?;
    for word in words_of(alloc, options)? {
        words.push(word)?;
    }
    let ended = run(rt, threads, words.as_slice(), source, PIECE, &[], &[])?;
    Ok(ended.written)
}
