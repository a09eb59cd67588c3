//! One call of the program on a source, and what it returned and wrote.

use attempt_log::{Gate, NoGate};
use host_fn::offered_functions;
use koika_top::Status;
use kw_bits::NoMemory;
use kw_io::{MemSink, MemSource};
use std::alloc::Global;
use std::io;
use std::io::ErrorKind;
use std::sync::Wait;
use std::thread::Threads;

// How many bytes an answer may have.
const ROOM: usize = 1_048_576;

/// How a run of the program ends.
#[derive(Debug, Drop)]
pub(crate) struct Ended {
    pub(crate) status: Status,
    pub(crate) written: Vec<u8>,
}

/// Runs the program over memory, where a read gives and a write takes at most that many bytes, and these calls of both
/// fail.
pub(crate) fn run(
    rt: &HostRuntime,
    threads: &(impl Threads + Wait + Sync),
    words: &[String],
    source: &[u8],
    piece: usize,
    failing_reads: &[u64],
    failing_writes: &[u64],
) -> io::Result<Ended> {
    run_at_gate(
        rt,
        threads,
        &NoGate,
        words,
        source,
        piece,
        failing_reads,
        failing_writes,
    )
}

/// The same where a gate may hold the workers.
#[tactic(auto, unfolding(kw_bits::specs::Host::arity))]
pub(crate) fn run_at_gate(
    rt: &HostRuntime,
    threads: &(impl Threads + Wait + Sync),
    gate: &(dyn Gate + Sync),
    words: &[String],
    source: &[u8],
    piece: usize,
    failing_reads: &[u64],
    failing_writes: &[u64],
) -> io::Result<Ended> {
    let alloc = rt.alloc();
    let piece = piece.max(1);
    let source = Vec::from_slice(alloc, source)?;
    let mut source = MemSource::new(source, piece, Vec::from_slice(alloc, failing_reads)?);
    let failing = Vec::from_slice(alloc, failing_writes)?;
    let mut sink = MemSink::new(alloc, ROOM, piece, failing).map_err(out_of_memory)?;
    let hosts = offered_functions!();
    let status = koika_top::run(threads, alloc, words, &hosts, gate, &mut source, &mut sink);
    Ok(Ended {
        status,
        written: Vec::from_slice(alloc, sink.written())?,
    })
}

fn out_of_memory(_: NoMemory) -> io::Error {
    io::Error::from(ErrorKind::OutOfMemory)
}

/// The words of a command, one space apart. A `_` in a word is a space.
pub(crate) fn words_of(alloc: Global, command: &str) -> io::Result<Vec<String>> {
    let mut words = Vec::new(alloc);
    if !command.is_empty() {
        for word in command.split(' ') {
            words.push(word.replace(alloc, '_', " ")?)?;
        }
    }
    Ok(words)
}
