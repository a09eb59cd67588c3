//! Commands: the call of the program, and what each command does.

ghost use Rattle.std.specs.Prelude.{◌≡◌, ◌≤◌, List, [], ℕ, Some, false, true, IfSome, map, string_bytes, length};
ghost use Rattle.kw_bits.specs.Faults.{Rose};
ghost use Rattle.one_rule.specs.Hosts.{host_specs};
ghost use Rattle.front_end.specs.Calls.{call};
ghost use Rattle.front_end.specs.Sources.{longest_source};
ghost use Rattle.front_end.specs.Streams.{stream};
ghost use Rattle.front_end.specs.declared.answer.Answer.TheVariants.{Written};
ghost use Rattle.front_end.specs.inner.Steps.{IsReply, Makes};
ghost use Rattle.koika_top.specs.Aigsim.{AnswersAigsim};
ghost use Rattle.koika_top.specs.Answer.{Answers, is_of_source};
ghost use Rattle.koika_top.specs.inner.Answer.{longest_of};
ghost use Rattle.koika_top.specs.Btorsim.{AnswersBtorsim, longest_circuit};
ghost use Rattle.koika_top.specs.Calls.{IsKept};
ghost use Rattle.koika_top.specs.Generator.{pipeline};
ghost use Rattle.koika_top.specs.Journal.{AnswersJournal};
ghost use Rattle.koika_top.specs.Sim.{AnswersSim};
ghost use Rattle.koika_top.specs.inner.Steps.{AskFor, IsInRange, RunsBy, Tells, TellsRead};
ghost use Rattle.koika_top.specs.Words.{asks_workers};
ghost use Rattle.koika_top.specs.declared.engine_kind.EngineKind.TheVariants.{Workers};

use crate::aig_run::AigRun;
use crate::aiger::convert_source;
use crate::circuit_run::CircuitRun;
use crate::compile::compile_source;
use crate::crew::{Alone, Crew, InThreads, Work};
use crate::design_run::Run;
use crate::engine_kind::EngineKind;
use crate::generator::pipeline;
use crate::journal_run::JournalRun;
use crate::reads::{check_source, print_source};
use crate::recheck::recheck_source;
use crate::shown::Shown;
use crate::usage::write_usage;
use crate::words::{Command, asks_workers, command_of};
use attempt_log::Gate;
use front_end::{Status, fault_of_source, status_by, write_made, write_refusal};
use host_fn::HostFn;
use kw_base::{Refusal, fault_number};
use kw_bits::{NoMemory, Text};
use kw_io::{ReadAll, Sink, Source, read_all};
use std::alloc::Global;
use std::sync::Wait;
use std::thread::Threads;

/// Runs the program on its arguments, without the program's own name: reads the source if the arguments ask for
/// it, and writes the answer to the sink. Designs may declare the host functions. The clauses on content hold where
/// the bytes that the source has left, or that were written to the sink, are known; `specs/Calls.antt` has each clause
/// in words. Where the arguments ask for workers, these make the run in threads, whose turns the gate may hold, and the
/// clauses hold if they return. All other arguments are given to `run_here`, which returns.
pub fn run<S: Source, K: Sink, R: Threads + Wait + Sync>(
    rt: &R,
    alloc: Global,
    words: &[String],
    hosts: &[HostFn],
    gate: &(dyn Gate + Sync),
    source: &mut S,
    sink: &mut K,
) -> Status
    ensures { IsKept (source.new ≡ source.old) (call (map string_bytes words.now) (host_specs hosts.now)
        (stream S.left S.faults source.old source.new) (stream K.written K.faults sink.old sink.new) result) }
{
    if asks_workers(words) {
        let crew = InThreads { rt, gate };
        let host = Host { crew, alloc, hosts };
        host.answer_words(words, source, sink)
    } else {
        run_here(alloc, words, hosts, source, sink)
    }
}

/// The same where no argument asks for workers. It is proved to return.
pub fn run_here<S: Source, K: Sink>(
    alloc: Global,
    words: &[String],
    hosts: &[HostFn],
    source: &mut S,
    sink: &mut K,
) -> Status
    requires alone { asks_workers (map string_bytes words.now) ≡ false }
    ensures { IsKept (source.new ≡ source.old) (call (map string_bytes words.now) (host_specs hosts.now)
        (stream S.left S.faults source.old source.new) (stream K.written K.faults sink.old sink.new) result) }
{
    let crew = Alone;
    let host = Host { crew, alloc, hosts };
    host.answer_words(words, source, sink)
}

// What the program runs on: who makes runs, the allocator, and the host functions that designs may declare.
#[derive(Drop)]
struct Host<'h, C> {
    crew: C,
    alloc: Global,
    hosts: &'h [HostFn],
}

impl<'h, C: Crew> Host<'h, C> {
    // Does what the words ask for, and writes the answer. A crew makes the run, if they ask for one.
    fn answer_words<S: Source, K: Sink>(
        &self,
        words: &[String],
        source: &mut S,
        sink: &mut K,
    ) -> Status
        requires crew { AskFor (C.has self.now.crew) (map string_bytes words.now) }
        ensures { IsKept (source.new ≡ source.old) (call (map string_bytes words.now) (host_specs self.now.hosts.now)
            (stream S.left S.faults source.old source.new) (stream K.written K.faults sink.old sink.new) result) }
    {
        match command_of(self.alloc, words) {
            Ok(None) => write_usage(sink),
            Ok(Some(command)) => {
                if command.reads_source() {
                    self.answer_source(command, source, sink)
                } else {
                    self.answer_bytes(command, &[], sink)
                }
            }
            Err(NoMemory) => Status::NoMemory,
        }
    }

    // Reads the source and does what the command asks for, or writes that the source is too long.
    fn answer_source<S: Source, K: Sink>(
        &self,
        command: Command,
        source: &mut S,
        sink: &mut K,
    ) -> Status
        requires few { IsInRange command }
        requires crew { RunsBy (C.has self.now.crew) command }
        requires reads { is_of_source command ≡ true }
        ensures tells { TellsRead IsReply (S.left source.old) (Answers (host_specs self.now.hosts.now) command)
            (stream K.written K.faults sink.old sink.new) result }
        ensures whole { result ≡ Status.Done → IfSome (S.left source.old) (λ _. S.left source.new ≡ Some []) }
        ensures read_fault { result ≡ Status.ReadFault → Rose (S.faults source.old) (S.faults source.new) }
    {
        match read_all(self.alloc, source, command.longest_source()) {
            Ok(bytes) => self.answer_bytes(command, &bytes, sink),
            Err(ReadAll::TooLong) => {
                let fault = fault_of_source(fault_number::SOURCE_TOO_LONG);
                write_refusal(self.alloc, Refusal::Fault(fault), sink)
            }
            Err(ReadAll::Fault) => Status::ReadFault,
            Err(ReadAll::NoMemory) => Status::NoMemory,
        }
    }

    // Does what the command asks for, given the bytes of the source, if its answer rests on one.
    fn answer_bytes<K: Sink>(&self, command: Command, source: &[u8], sink: &mut K) -> Status
        requires short { length source.now ≤ longest_of command }
        requires few { IsInRange command }
        requires crew { RunsBy (C.has self.now.crew) command }
        ensures { Tells (Answers (host_specs self.now.hosts.now) command source.now)
            (stream K.written K.faults sink.old sink.new) result }
    {
        let alloc = self.alloc;
        let hosts = self.hosts;
        match command {
            Command::Check => write_made(alloc, check_source(alloc, hosts, source), sink),
            Command::Print => write_made(alloc, print_source(alloc, source), sink),
            Command::Sim {
                cycles,
                shown,
                engine,
            } => self.simulate(cycles, shown, engine, source, sink),
            Command::Btorsim { cycles, shown } => {
                simulate_circuit(alloc, cycles, shown, source, sink)
            }
            Command::Compile => write_made(alloc, compile_source(alloc, hosts, source), sink),
            Command::Gen { stages } => write_made(alloc, generate(alloc, stages), sink),
            Command::Aiger => write_made(alloc, convert_source(alloc, hosts, source), sink),
            Command::Aigsim { cycles, shown } => simulate_bits(alloc, cycles, shown, source, sink),
            Command::Journal { cycles, workers } => {
                self.write_journal(cycles, workers, source, sink)
            }
            Command::Recheck { cycles } => {
                write_made(alloc, recheck_source(alloc, hosts, cycles, source), sink)
            }
        }
    }

    // Runs the design of a source by an engine and writes what is shown of the run, or the line of the source's fault.
    fn simulate<K: Sink>(
        &self,
        cycles: u32,
        shown: Shown,
        engine: EngineKind,
        source: &[u8],
        sink: &mut K,
    ) -> Status
        requires short { length source.now ≤ longest_source }
        requires crew { C.has self.now.crew engine }
        ensures { Tells (AnswersSim (host_specs self.now.hosts.now) cycles shown source.now)
            (stream K.written K.faults sink.old sink.new) result }
    {
        match Run::read(self.alloc, cycles, shown, engine, self.hosts, source) {
            Ok(run) => status_by(
                self.crew.write(self.alloc, &Work::Shown(run), sink),
                Status::Done,
            ),
            Err(refusal) => write_refusal(self.alloc, refusal, sink),
        }
    }

    // Has workers run the design of a source and writes the journal of the run, or the line of the source's fault.
    fn write_journal<K: Sink>(
        &self,
        cycles: u32,
        workers: u32,
        source: &[u8],
        sink: &mut K,
    ) -> Status
        requires short { length source.now ≤ longest_source }
        requires some { 1 ≤ workers }
        requires most { workers ≤ 8 }
        requires crew { C.has self.now.crew (Workers workers) }
        ensures { Tells (AnswersJournal (host_specs self.now.hosts.now) cycles workers source.now)
            (stream K.written K.faults sink.old sink.new) result }
    {
        match JournalRun::read(self.alloc, cycles, workers, self.hosts, source) {
            Ok(run) => status_by(
                self.crew.write(self.alloc, &Work::Journal(run), sink),
                Status::Done,
            ),
            Err(refusal) => write_refusal(self.alloc, refusal, sink),
        }
    }
}

// The pipeline design of that many stages.
fn generate(alloc: Global, stages: u32) -> Result<Text, Refusal>
    requires { stages ≤ 100 }
    ensures { Makes (λ answer. answer ≡ Written (pipeline stages)) result }
{
    Ok(pipeline(alloc, stages)?)
}

// Runs the BTOR2 text of a source and writes what is shown of the run, or the line of the source's fault.
fn simulate_circuit<K: Sink>(
    alloc: Global,
    cycles: u32,
    shown: Shown,
    source: &[u8],
    sink: &mut K,
) -> Status
    requires { length source.now ≤ longest_circuit }
    ensures { Tells (AnswersBtorsim cycles shown source.now) (stream K.written K.faults sink.old sink.new) result }
{
    match CircuitRun::read(alloc, cycles, shown, source) {
        Ok(run) => status_by(run.write(alloc, sink), Status::Done),
        Err(refusal) => write_refusal(alloc, refusal, sink),
    }
}

// Runs the bit-level circuit of a source and writes what is shown of the run, or the line of the source's fault.
fn simulate_bits<K: Sink>(
    alloc: Global,
    cycles: u32,
    shown: Shown,
    source: &[u8],
    sink: &mut K,
) -> Status
    requires { length source.now ≤ longest_circuit }
    ensures { Tells (AnswersAigsim cycles shown source.now) (stream K.written K.faults sink.old sink.new) result }
{
    match AigRun::read(alloc, cycles, shown, source) {
        Ok(run) => status_by(run.write(alloc, sink), Status::Done),
        Err(refusal) => write_refusal(alloc, refusal, sink),
    }
}
