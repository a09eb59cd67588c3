//! Calls that no command makes, each of a source that asks no host function: a run by workers in one batch, the run of a
//! bit-level circuit that isn't written, and a journal that is read and printed again.

ghost use Rattle.std.specs.Prelude.{◌≤◌};
ghost use Rattle.std.specs.Arc.{arc_value};
ghost use Rattle.one_rule.specs.Stimulus.{StimulusFits};
ghost use Rattle.board_core.specs.declared.kept.TheConstants.{MAX_CYCLES};

use crate::begins::MOST_WORKERS;
use crate::circuits::journal_of;
use aig_blast::run_aig;
use attempt_log::NoGate;
use board_core::MAX_CYCLES;
use board_lock::LockBoard;
use cycle_driver::run_threaded;
use front_end::{Lowered, aig_of, fault_of_source, read_source};
use host_fn::HostFn;
use journal_check::{print_journal, read_journal};
use kw_base::{Refusal, fault_number};
use kw_bits::NoMemory;
use one_rule::{Externs, Rows, Stimulus};
use plain_run::run;
use std::alloc::Global;
use std::io;
use std::io::ErrorKind;
use std::sync::{Arc, Wait};
use std::thread::Threads;
use typed_core::Design;

// A source of a design has at most this many bytes.
const LONGEST_SOURCE: usize = 1_048_576;

/// Whether that many workers, in one batch of that many cycles, give the rows that the plain engine gives of a source's
/// design. The words are the numbers of both.
pub(crate) fn threads_give_the_run(
    rt: &HostRuntime,
    threads: &(impl Threads + Wait + Sync),
    words: &str,
    source: &[u8],
) -> io::Result<bool> {
    let (workers, cycles) = words.split_once(' ').unwrap_or(("", ""));
    let workers: u32 = workers.parse().unwrap_or(0);
    let cycles: u32 = cycles.parse().unwrap_or(0);
    if workers == 0 || workers > MOST_WORKERS || cycles > MAX_CYCLES {
        return Ok(false);
    }
    told(run_by_threads(threads, rt.alloc(), source, workers, cycles))
}

/// Whether the bit-level circuit of a source's design has in that many cycles the rows that the plain engine gives.
pub(crate) fn gates_give_the_run(
    rt: &HostRuntime,
    cycles: &str,
    source: &[u8],
) -> io::Result<bool> {
    told(run_by_gates(rt.alloc(), source, cycles.parse().unwrap_or(0)))
}

/// Whether the journal of that many workers is printed as it was written, once it is read.
pub(crate) fn journal_is_printed_again(
    rt: &HostRuntime,
    threads: &(impl Threads + Wait + Sync),
    count: &str,
    options: &str,
    source: &str,
) -> io::Result<bool> {
    let journal = journal_of(rt, threads, count, options, source)?;
    told(is_printed_again(rt.alloc(), source.as_bytes(), journal.as_slice()))
}

// What was found of a source that was taken; of one that was refused nothing is so.
fn told(found: Result<bool, Refusal>) -> io::Result<bool> {
    match found {
        Ok(is_so) => Ok(is_so),
        Err(Refusal::Fault(_)) => Ok(false),
        Err(Refusal::NoMemory) => Err(io::Error::from(ErrorKind::OutOfMemory)),
    }
}

// What a source spells, lowered.
fn lowered_of(alloc: Global, source: &[u8]) -> Result<Lowered, Refusal> {
    if source.len() > LONGEST_SOURCE {
        return Err(Refusal::Fault(fault_of_source(fault_number::SOURCE_TOO_LONG)));
    }
    let hosts: &[HostFn] = &[];
    let spelled = read_source(alloc, hosts, source)?;
    let lowered = Lowered::new(alloc, spelled, hosts)?;
    Ok(lowered)
}

// The stimulus of a source is one for its design's inputs.
fn is_for_the_inputs(_lowered: &Lowered)
    ensures { StimulusFits (arc_value _lowered.now.design) (arc_value _lowered.now.stimulus) }
{}

// Whether these are the rows that the plain engine gives of a design.
fn are_plain(alloc: Global, lowered: &Lowered, rows: &Rows, cycles: u32) -> Result<bool, NoMemory> {
    let design: &Design = &lowered.design;
    let externs: &Externs = &lowered.externs;
    let stimulus: &Stimulus = &lowered.stimulus;
    let plain = run(alloc, design, externs, stimulus, cycles)?;
    Ok(are_same(rows, &plain))
}

// Whether rows are the same as others.
fn are_same(rows: &Rows, others: &Rows) -> bool {
    for (number, row) in rows.as_slice().iter().enumerate() {
        match others.as_slice().get(number) {
            Some(other) if row.regs == other.regs && row.fired == other.fired => {}
            _ => return false,
        }
    }
    rows.len() == others.len()
}

fn run_by_threads<R: Threads + Wait + Sync>(
    threads: &R,
    alloc: Global,
    source: &[u8],
    workers: u32,
    cycles: u32,
) -> Result<bool, Refusal>
    requires last { cycles ≤ MAX_CYCLES }
    requires some { 1 ≤ workers }
    requires most { workers ≤ 64 }
{
    let lowered = lowered_of(alloc, source)?;
    let rows = rows_by_threads(threads, alloc, &lowered, workers, cycles)?;
    let is_plain = are_plain(alloc, &lowered, &rows, cycles)?;
    Ok(is_plain)
}

fn rows_by_threads<R: Threads + Wait + Sync>(
    threads: &R,
    alloc: Global,
    lowered: &Lowered,
    workers: u32,
    cycles: u32,
) -> Result<Rows, NoMemory>
    requires last { cycles ≤ MAX_CYCLES }
    requires some { 1 ≤ workers }
    requires most { workers ≤ 64 }
{
    is_for_the_inputs(lowered);
    let design = Arc::try_clone(&lowered.design)?;
    let externs = Arc::try_clone(&lowered.externs)?;
    let stimulus = Arc::try_clone(&lowered.stimulus)?;
    run_threaded::<LockBoard, R>(
        threads, alloc, design, externs, stimulus, cycles, workers, &NoGate,
    )
}

fn run_by_gates(alloc: Global, source: &[u8], cycles: u32) -> Result<bool, Refusal> {
    let lowered = lowered_of(alloc, source)?;
    let rows = rows_by_gates(alloc, &lowered, cycles)?;
    let is_plain = are_plain(alloc, &lowered, &rows, cycles)?;
    Ok(is_plain)
}

fn rows_by_gates(alloc: Global, lowered: &Lowered, cycles: u32) -> Result<Rows, NoMemory> {
    let stimulus: &Stimulus = &lowered.stimulus;
    let aig = aig_of(alloc, lowered)?;
    run_aig(alloc, &aig, stimulus, cycles)
}

fn is_printed_again(alloc: Global, source: &[u8], journal: &[u8]) -> Result<bool, Refusal> {
    let lowered = lowered_of(alloc, source)?;
    let design: &Design = &lowered.design;
    let stimulus: &Stimulus = &lowered.stimulus;
    let read = read_journal(alloc, journal, 1, design, stimulus)?;
    let text = print_journal(alloc, design, &read)?;
    Ok(text.as_slice() == journal)
}
