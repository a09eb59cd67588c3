//! Runs small sources and the designs of `examples/`: the examples of `FAULTS.md`, each after its row's fault and
//! place, and the cases of standard input, each after its line. What the program writes follows.
//!
//! A case is the program's words and a source, after `: ` the source itself and after ` < ` the name of its file. Of
//! words with ` | ` between them each reads what the ones before wrote. After `changed N => LINE in` the file's line N is
//! LINE. After `failing N` each read fails in turn, and then each write, where a call takes at most N bytes.
//! After `seeing` each of two workers looks for the other before its first job, and whether both saw it is said; what
//! they write is a journal where ` | ` and a command that reads it follow. After `counting` it says how often workers
//! began a batch, and how many did.
//!
//! With `circuit` for a command it says whether the circuit of a design, compiled and read back, shows the same run
//! with these options as the design, with `bits` whether its bit-level circuit does, with `workers K` whether K workers
//! show it, and with `journal K` whether their journal does, rechecked. With `threaded K N` it says whether K workers give
//! the run of N cycles in one batch, with `gates N` whether the bit-level circuit does that isn't written, and with
//! `printed K` whether the journal of K workers is printed as it was, once it is read. With ` is ` between commands without
//! a source it says whether both write the same bytes, and with `generated N` how many of the texts of `gen` up to that
//! number are printed as they are. `transcript` and a file say whether the file has what the command in its first line
//! writes.
//!
//! It has no definition of its own. The merge gate compares what it writes with `stdout`.
#![tactic(auto)]

mod begins;
mod called;
mod circuits;
mod flags;
mod runs;
mod spelled;
mod tables;
mod transcripts;

use crate::begins::Begins;
use crate::called::{gates_give_the_run, journal_is_printed_again, threads_give_the_run};
use crate::circuits::{
    bits_show_the_same_run, journal_shows_the_same_run, shows_the_same_run, with_journal,
    workers_show_the_same_run,
};
use crate::flags::Flags;
use crate::runs::{Ended, run, run_at_gate, words_of};
use crate::spelled::spelled;
use crate::tables::{cell, code};
use crate::transcripts::run_transcript;
use koika_top::Status;
use kw_io::print_ended;
use std::io::Write;
use std::sync::Wait;
use std::thread::Threads;
use std::{fs, io};

// Reads and writes are short, so that none has a whole line.
pub(crate) const PIECE: usize = 7;

fn main(rt: HostRuntime) -> io::Result<()> {
    run_examples(&rt, &rt)?;
    for case in rt.lines(rt.alloc()) {
        let case = case?;
        println!(rt; "{case}")?;
        run_line(&rt, &rt, case.as_str())?;
    }
    Ok(())
}

// Runs the case of a line.
fn run_line(
    rt: &HostRuntime,
    threads: &(impl Threads + Wait + Sync),
    case: &str,
) -> io::Result<()> {
    if let Some(change) = case.strip_prefix("changed ") {
        return run_changed(rt, threads, change);
    }
    if let Some((commands, source)) = case.split_once(": ") {
        let source = spelled(rt.alloc(), source)?;
        return run_case(rt, threads, commands, source.as_slice());
    }
    if let Some((commands, file)) = case.split_once(" < ") {
        let source = fs::read_to_string(rt, file)?;
        return run_case(rt, threads, commands, source.as_bytes());
    }
    if let Some((commands, others)) = case.split_once(" is ") {
        return compare(rt, threads, commands, others);
    }
    if let Some(last) = case.strip_prefix("generated ") {
        return run_generated(rt, threads, last.parse().unwrap_or(0));
    }
    match case.strip_prefix("transcript ") {
        Some(file) => run_transcript(rt, threads, file),
        None => Ok(()),
    }
}

// Runs commands on the source in a file where the line of a number is another one.
fn run_changed(
    rt: &HostRuntime,
    threads: &(impl Threads + Wait + Sync),
    change: &str,
) -> io::Result<()> {
    let (number, rest) = change.split_once(" => ").unwrap_or(("", ""));
    let (new, rest) = rest.split_once(" in ").unwrap_or(("", ""));
    let (commands, file) = rest.split_once(" < ").unwrap_or(("", ""));
    let number: usize = number.parse().unwrap_or(0);
    let source = fs::read_to_string(rt, file)?;
    let mut changed = Vec::new(rt.alloc());
    for (place, line) in source.as_str().lines().enumerate() {
        if number.checked_sub(1) == Some(place) {
            changed.extend_from_slice(new.as_bytes())?;
        } else {
            changed.extend_from_slice(line.as_bytes())?;
        }
        changed.push(b'\n')?;
    }
    run_commands(rt, threads, commands, changed.as_slice())
}

// Says whether commands without a source write the same bytes as others.
fn compare(
    rt: &HostRuntime,
    threads: &(impl Threads + Wait + Sync),
    commands: &str,
    others: &str,
) -> io::Result<()> {
    let one = last_of(rt, threads, commands, &[])?;
    let other = last_of(rt, threads, others, &[])?;
    if one.written.as_slice() == other.written.as_slice() {
        println!(rt; "the same bytes")
    } else {
        println!(rt; "other bytes")
    }
}

// Runs commands on a source, or says what a case of another kind asks for.
fn run_case(
    rt: &HostRuntime,
    threads: &(impl Threads + Wait + Sync),
    commands: &str,
    source: &[u8],
) -> io::Result<()> {
    let text = str::from_utf8(source).unwrap_or("");
    if let Some(options) = commands.strip_prefix("circuit ") {
        return say_whether(rt, shows_the_same_run(rt, threads, options, text)?);
    }
    if let Some(options) = commands.strip_prefix("bits ") {
        return say_whether(rt, bits_show_the_same_run(rt, threads, options, text)?);
    }
    if let Some(counted) = commands.strip_prefix("workers ") {
        let (count, options) = counted.split_once(' ').unwrap_or(("", ""));
        let same = workers_show_the_same_run(rt, threads, count, options, text)?;
        return say_whether(rt, same);
    }
    if let Some(counted) = commands.strip_prefix("journal ") {
        let (count, options) = counted.split_once(' ').unwrap_or(("", ""));
        let same = journal_shows_the_same_run(rt, threads, count, options, text)?;
        return say_whether(rt, same);
    }
    if let Some(words) = commands.strip_prefix("threaded ") {
        return say_whether(rt, threads_give_the_run(rt, threads, words, source)?);
    }
    if let Some(cycles) = commands.strip_prefix("gates ") {
        return say_whether(rt, gates_give_the_run(rt, cycles, source)?);
    }
    if let Some(counted) = commands.strip_prefix("printed ") {
        let (count, options) = counted.split_once(' ').unwrap_or(("", ""));
        let same = journal_is_printed_again(rt, threads, count, options, text)?;
        return say_whether(rt, same);
    }
    if let Some(command) = commands.strip_prefix("seeing ") {
        return run_seeing(rt, threads, command, text);
    }
    if let Some(command) = commands.strip_prefix("counting ") {
        return run_counting(rt, threads, command, source);
    }
    if let Some(failing) = commands.strip_prefix("failing ") {
        let (piece, command) = failing.split_once(' ').unwrap_or(("", ""));
        return run_failing(rt, threads, command, source, piece.parse().unwrap_or(PIECE));
    }
    run_commands(rt, threads, commands, source)
}

// Says whether another engine shows the same run.
fn say_whether(rt: &HostRuntime, is_same: bool) -> io::Result<()> {
    if is_same {
        println!(rt; "the same run")
    } else {
        println!(rt; "another run")
    }
}

// Runs the examples of the tables of faults, by the command that each table's head names.
fn run_examples(rt: &HostRuntime, threads: &(impl Threads + Wait + Sync)) -> io::Result<()> {
    let document = fs::read_to_string(rt, "FAULTS.md")?;
    let mut command = String::new(rt.alloc());
    for row in document.as_str().lines() {
        let source = code(cell(row, 3));
        let fault = cell(row, 0);
        if fault == "fault" {
            command = source.to_string(rt.alloc())?;
        } else if !source.is_empty() {
            let place = cell(row, 4);
            print!(rt; "{fault} at {place}: ")?;
            let source = spelled(rt.alloc(), source)?;
            run_commands(rt, threads, command.as_str(), source.as_slice())?;
        }
    }
    Ok(())
}

// Writes what the last of commands writes, with its status where the text doesn't say it.
fn run_commands(
    rt: &HostRuntime,
    threads: &(impl Threads + Wait + Sync),
    commands: &str,
    source: &[u8],
) -> io::Result<()> {
    let last = last_of(rt, threads, commands, source)?;
    let written = last.written.as_slice();
    rt.stdout().write_all(written)?;
    if last.status != status_told(written) {
        println!(rt; "status {}", last.status.number())?;
    }
    Ok(())
}

// Runs the program by commands, of which each reads what the one before wrote, and returns how the last one ended.
fn last_of(
    rt: &HostRuntime,
    threads: &(impl Threads + Wait + Sync),
    commands: &str,
    source: &[u8],
) -> io::Result<Ended> {
    let mut last = Ended {
        status: Status::Done,
        written: Vec::from_slice(rt.alloc(), source)?,
    };
    for command in commands.split(" | ") {
        let words = words_of(rt.alloc(), command)?;
        last = run(
            rt,
            threads,
            words.as_slice(),
            last.written.as_slice(),
            PIECE,
            &[],
            &[],
        )?;
    }
    Ok(last)
}

// The status that goes with an answer.
fn status_told(answer: &[u8]) -> Status {
    if answer.starts_with(b"usage: ") {
        Status::Usage
    } else if answer.starts_with(b"fault ") {
        Status::Refused
    } else {
        Status::Done
    }
}

// Runs the program where each of two workers looks for the other before its first job, and says whether both saw it.
// What was written is a journal where a further command is to read it, after the source.
fn run_seeing(
    rt: &HostRuntime,
    threads: &(impl Threads + Wait + Sync),
    command: &str,
    source: &str,
) -> io::Result<()> {
    let (command, further) = command.split_once(" | ").unwrap_or((command, ""));
    let words = words_of(rt.alloc(), command)?;
    let flags = Flags::new();
    let ended = run_at_gate(
        rt,
        threads,
        &flags,
        words.as_slice(),
        source.as_bytes(),
        PIECE,
        &[],
        &[],
    )?;
    if further.is_empty() {
        rt.stdout().write_all(ended.written.as_slice())?;
    } else {
        let whole = with_journal(rt.alloc(), source, ended.written.as_slice())?;
        run_commands(rt, threads, further, whole.as_slice())?;
    }
    if flags.both_saw() {
        println!(rt; "both workers saw each other")
    } else {
        println!(rt; "a worker saw no other")
    }
}

// Runs the program where each worker's beginnings are counted, and says how it ended and how many they were.
fn run_counting(
    rt: &HostRuntime,
    threads: &(impl Threads + Wait + Sync),
    command: &str,
    source: &[u8],
) -> io::Result<()> {
    let words = words_of(rt.alloc(), command)?;
    let begins = Begins::new(rt.alloc())?;
    let ended = run_at_gate(
        rt,
        threads,
        &begins,
        words.as_slice(),
        source,
        PIECE,
        &[],
        &[],
    )?;
    let status = ended.status.number();
    let calls = begins.calls();
    let workers = begins.workers();
    println!(rt; "status {status}, {calls} calls by {workers} workers")
}

// Says how many of the texts of `gen`, from 1 to a last number of stages, are printed as they are.
fn run_generated(
    rt: &HostRuntime,
    threads: &(impl Threads + Wait + Sync),
    last: u32,
) -> io::Result<()> {
    let mut same: u32 = 0;
    for stages in 0..last {
        if is_printed(rt, threads, stages.wrapping_add(1))? {
            same = same.wrapping_add(1);
        }
    }
    println!(rt; "{same} texts as they are")
}

// Whether the text of `gen` with that many stages is printed as it is.
fn is_printed(
    rt: &HostRuntime,
    threads: &(impl Threads + Wait + Sync),
    stages: u32,
) -> io::Result<bool> {
    let mut command = String::from_str(rt.alloc(), "gen ")?;
    command.push_str(stages.to_string(rt.alloc())?.as_str())?;
    let text = last_of(rt, threads, command.as_str(), &[])?;
    let printed = last_of(rt, threads, "print", text.written.as_slice())?;
    Ok(text.written.as_slice() == printed.written.as_slice())
}

// Runs the program with each read failing in turn, and then with each write, until none fails.
fn run_failing(
    rt: &HostRuntime,
    threads: &(impl Threads + Wait + Sync),
    command: &str,
    source: &[u8],
    piece: usize,
) -> io::Result<()> {
    let alloc = rt.alloc();
    let words = words_of(alloc, command)?;
    let whole = run(rt, threads, words.as_slice(), source, piece, &[], &[])?;
    for call in 1..u64::MAX {
        let ended = run(rt, threads, words.as_slice(), source, piece, &[call], &[])?;
        print!(rt; "read {call}: ")?;
        print_ended(
            rt,
            ended.status.number(),
            ended.written.as_slice(),
            whole.written.as_slice(),
        )?;
        if ended.status == whole.status {
            break;
        }
    }
    for call in 1..u64::MAX {
        let ended = run(rt, threads, words.as_slice(), source, piece, &[], &[call])?;
        print!(rt; "write {call}: ")?;
        print_ended(
            rt,
            ended.status.number(),
            ended.written.as_slice(),
            whole.written.as_slice(),
        )?;
        if ended.status == whole.status {
            break;
        }
    }
    Ok(())
}
