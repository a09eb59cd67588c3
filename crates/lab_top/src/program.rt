//! Commands: the call of the lab, and what each command does.

ghost use Rattle.std.specs.Prelude.{◌≡◌, ◌≢◌, ◌≤◌, Some, [], false, true, IfSome, map, string_bytes, length};
ghost use Rattle.kw_bits.specs.Faults.{Rose};
ghost use Rattle.one_rule.specs.Hosts.{host_specs};
ghost use Rattle.aig_blast.specs.Aigs.{AigParts};
ghost use Rattle.front_end.specs.Calls.{call};
ghost use Rattle.front_end.specs.Certified.{longest_certified};
ghost use Rattle.front_end.specs.Sources.{longest_source};
ghost use Rattle.front_end.specs.Streams.{stream};
ghost use Rattle.front_end.specs.inner.Steps.{IsReply, Tells, TellsRead};
ghost use Rattle.lab_top.specs.Answer.{Answers, ends, lab, plain};
ghost use Rattle.lab_top.specs.Calls.{IsKept};
ghost use Rattle.lab_top.specs.Certify.{AnswersCertify, AnswersObligation};
ghost use Rattle.lab_top.specs.Lint.{AnswersLint};
ghost use Rattle.lab_top.specs.Profile.{AnswersProfile};
ghost use Rattle.lab_top.specs.Step.{IsSession, asks_step};
ghost use Rattle.lab_top.specs.Verilog.{AnswersVerilog};
ghost use Rattle.lab_top.specs.Waves.{AnswersWaves};
ghost use Rattle.lab_top.specs.Why.{AnswersWhy};
ghost use Rattle.lab_top.specs.inner.Steps.{FailsBy, HasSomeCycles, longest_of, no_circuit};

use crate::lint::LintRun;
use crate::profile::count_source;
use crate::status::LabStatus;
use crate::verilog::verilog_source;
use crate::waves::WavesRun;
use crate::why::WhyRun;
use crate::words::{Command, command_of};
use front_end::{
    Status, fault_of_source, status_by, write_fault, write_made, write_refusal, write_text,
};
use host_fn::HostFn;
use kw_base::fault_number;
use kw_bits::{NoMemory, Text};
use kw_io::{ReadAll, Sink, Source, read_all};
use lab_certify::{certified_text, obligation_text};
use std::alloc::Global;
use stream_run::step;
use verilog_text::Options as Ports;

// How to call the lab.
const USAGE_LINE: &[u8] =
    b"usage: koika_lab why|profile|lint|waves|step|verilog|obligation|certify\n";

/// Runs the lab on its arguments, without the program's own name: reads the source if the arguments are valid, and
/// writes the answer to the sink. Designs may declare the host functions. The clauses on content hold where the bytes
/// that the source has left, or that were written to the sink, are known; `specs/Calls.antt` has each clause in words,
/// and of `step`, which reads its source line by line, `stream_run`'s `specs/Sessions.antt`. It is proved to return.
pub fn lab<S: Source, K: Sink>(
    alloc: Global,
    words: &[String],
    hosts: &[HostFn],
    source: &mut S,
    sink: &mut K,
) -> LabStatus
    ensures kept { asks_step (map string_bytes words.now) ≡ false → IsKept (source.new ≡ source.old)
        (call (map string_bytes words.now) (host_specs hosts.now) (stream S.left S.faults source.old source.new)
        (stream K.written K.faults sink.old sink.new) result) }
    ensures session { asks_step (map string_bytes words.now) ≡ true → IsSession (host_specs hosts.now)
        (stream S.left S.faults source.old source.new) (stream K.written K.faults sink.old sink.new) result }
{
    if asks_step(words) {
        LabStatus::of(step(alloc, hosts, source, sink), false)
    } else {
        answer_words(alloc, words, hosts, source, sink)
    }
}

// Whether the words ask for `step`.
fn asks_step(words: &[String]) -> bool
    ensures { result ≡ asks_step (map string_bytes words.now) }
{
    match words {
        [word] => word.as_str() == "step",
        _ => false,
    }
}

// Does what the words ask for, and writes the answer.
fn answer_words<S: Source, K: Sink>(
    alloc: Global,
    words: &[String],
    hosts: &[HostFn],
    source: &mut S,
    sink: &mut K,
) -> LabStatus
    ensures { IsKept (source.new ≡ source.old) (call (map string_bytes words.now) (host_specs hosts.now)
        (stream S.left S.faults source.old source.new) (stream K.written K.faults sink.old sink.new) result) }
{
    match command_of(alloc, words) {
        Ok(None) => {
            let ended = status_by(write_text(sink, USAGE_LINE), Status::Usage);
            LabStatus::of(ended, false)
        }
        Ok(Some(command)) => answer_source(alloc, command, hosts, source, sink),
        Err(NoMemory) => LabStatus::NoMemory,
    }
}

// Reads the source and does what the command asks for, or writes that the source is too long.
fn answer_source<S: Source, K: Sink>(
    alloc: Global,
    command: Command,
    hosts: &[HostFn],
    source: &mut S,
    sink: &mut K,
) -> LabStatus
    requires { HasSomeCycles command }
    ensures tells { (circuit : AigParts) × TellsRead (lab circuit) (λ answer. IsReply (plain answer))
        (S.left source.old) (Answers circuit (host_specs hosts.now) command)
        (stream K.written K.faults sink.old sink.new) result }
    ensures whole { ends result ≡ Status.Done → IfSome (S.left source.old) (λ _. S.left source.new ≡ Some []) }
    ensures read_fault { ends result ≡ Status.ReadFault → Rose (S.faults source.old) (S.faults source.new) }
    ensures fails { FailsBy command result }
{
    match read_all(alloc, source, command.longest_source()) {
        Ok(bytes) => answer_bytes(alloc, command, hosts, &bytes, sink),
        Err(ReadAll::TooLong) => {
            let fault = fault_of_source(fault_number::SOURCE_TOO_LONG);
            let ended = status_by(write_fault(alloc, fault, sink), Status::Refused);
            LabStatus::of(ended, false)
        }
        Err(ReadAll::Fault) => LabStatus::ReadFault,
        Err(ReadAll::NoMemory) => LabStatus::NoMemory,
    }
}

// Does what the command asks for, given the bytes of the source.
fn answer_bytes<K: Sink>(
    alloc: Global,
    command: Command,
    hosts: &[HostFn],
    source: &[u8],
    sink: &mut K,
) -> LabStatus
    requires short { length source.now ≤ longest_of command }
    requires some { HasSomeCycles command }
    ensures tells { (circuit : AigParts) × Tells (lab circuit) (Answers circuit (host_specs hosts.now) command source.now)
        (stream K.written K.faults sink.old sink.new) result }
    ensures fails { FailsBy command result }
{
    match command {
        Command::Why {
            cycle,
            cycles,
            rule,
        } => explain(alloc, cycle, cycles, rule, hosts, source, sink),
        Command::Profile { cycles, is_strict } => {
            profile(alloc, cycles, is_strict, hosts, source, sink)
        }
        Command::Waves { cycles } => draw(alloc, cycles, hosts, source, sink),
        Command::Verilog(ports) => translate(alloc, ports, hosts, source, sink),
        Command::Lint => remark(alloc, hosts, source, sink),
        Command::Obligation { rule } => write_obligation(alloc, rule, hosts, source, sink),
        Command::Certify { rule } => write_certified(alloc, rule, hosts, source, sink),
    }
}

// Writes why the rules of the source's run fired or didn't, or the line of the source's fault.
fn explain<K: Sink>(
    alloc: Global,
    cycle: u32,
    cycles: u32,
    name: Option<Text>,
    hosts: &[HostFn],
    source: &[u8],
    sink: &mut K,
) -> LabStatus
    requires short { length source.now ≤ longest_source }
    requires first { 1 ≤ cycle }
    requires some { 1 ≤ cycles }
    ensures tells { Tells (lab no_circuit) (AnswersWhy (host_specs hosts.now) cycle cycles name source.now)
        (stream K.written K.faults sink.old sink.new) result }
    ensures fails { result ≢ LabStatus.Failed }
{
    match WhyRun::read(alloc, cycle, cycles, name, hosts, source) {
        Ok(run) => LabStatus::of(status_by(run.write(alloc, sink), Status::Done), false),
        Err(refusal) => LabStatus::of(write_refusal(alloc, refusal, sink), false),
    }
}

// Writes how often the rules of the source's run fired or didn't, or the line of the source's fault.
fn profile<K: Sink>(
    alloc: Global,
    cycles: u32,
    is_strict: bool,
    hosts: &[HostFn],
    source: &[u8],
    sink: &mut K,
) -> LabStatus
    requires { length source.now ≤ longest_source }
    ensures tells { Tells (lab no_circuit) (AnswersProfile (host_specs hosts.now) cycles is_strict source.now)
        (stream K.written K.faults sink.old sink.new) result }
    ensures fails { result ≡ LabStatus.Failed → is_strict ≡ true }
{
    match count_source(alloc, cycles, hosts, source) {
        Ok(counted) => {
            let ended = status_by(write_text(sink, counted.text.as_slice()), Status::Done);
            LabStatus::of(ended, counted.fails(is_strict))
        }
        Err(refusal) => LabStatus::of(write_refusal(alloc, refusal, sink), false),
    }
}

// Writes the waves of the source's run, or the line of the source's fault.
fn draw<K: Sink>(
    alloc: Global,
    cycles: u32,
    hosts: &[HostFn],
    source: &[u8],
    sink: &mut K,
) -> LabStatus
    requires { length source.now ≤ longest_source }
    ensures tells { Tells (lab no_circuit) (AnswersWaves (host_specs hosts.now) cycles source.now)
        (stream K.written K.faults sink.old sink.new) result }
    ensures fails { result ≢ LabStatus.Failed }
{
    match WavesRun::read(alloc, cycles, hosts, source) {
        Ok(run) => LabStatus::of(status_by(run.write(alloc, sink), Status::Done), false),
        Err(refusal) => LabStatus::of(write_refusal(alloc, refusal, sink), false),
    }
}

// Writes the Verilog module of the source's design, or the line of the source's fault.
fn translate<K: Sink>(
    alloc: Global,
    ports: Ports,
    hosts: &[HostFn],
    source: &[u8],
    sink: &mut K,
) -> LabStatus
    requires { length source.now ≤ longest_source }
    ensures tells { Tells (lab no_circuit) (AnswersVerilog (host_specs hosts.now) ports source.now)
        (stream K.written K.faults sink.old sink.new) result }
    ensures fails { result ≢ LabStatus.Failed }
{
    let made = verilog_source(alloc, ports, hosts, source);
    LabStatus::of(write_made(alloc, made, sink), false)
}

// Writes the clauses to be refuted for the source's claim, or the line of the source's fault.
fn write_obligation<K: Sink>(
    alloc: Global,
    name: Option<Text>,
    hosts: &[HostFn],
    source: &[u8],
    sink: &mut K,
) -> LabStatus
    requires { length source.now ≤ longest_certified }
    ensures tells { (circuit : AigParts) × Tells (lab circuit)
        (AnswersObligation circuit (host_specs hosts.now) name source.now)
        (stream K.written K.faults sink.old sink.new) result }
    ensures fails { result ≢ LabStatus.Failed }
{
    let made = obligation_text(alloc, hosts, name, source);
    LabStatus::of(write_made(alloc, made, sink), false)
}

// Writes what is certified of the source's claim, or the line of the source's fault.
fn write_certified<K: Sink>(
    alloc: Global,
    name: Option<Text>,
    hosts: &[HostFn],
    source: &[u8],
    sink: &mut K,
) -> LabStatus
    requires { length source.now ≤ longest_certified }
    ensures tells { (circuit : AigParts) × Tells (lab circuit)
        (AnswersCertify circuit (host_specs hosts.now) name source.now)
        (stream K.written K.faults sink.old sink.new) result }
    ensures fails { result ≢ LabStatus.Failed }
{
    let made = certified_text(alloc, hosts, name, source);
    LabStatus::of(write_made(alloc, made, sink), false)
}

// Writes what is noted of the source's design, or the line of the source's fault.
fn remark<K: Sink>(alloc: Global, hosts: &[HostFn], source: &[u8], sink: &mut K) -> LabStatus
    requires { length source.now ≤ longest_source }
    ensures tells { Tells (lab no_circuit) (AnswersLint (host_specs hosts.now) source.now)
        (stream K.written K.faults sink.old sink.new) result }
    ensures fails { result ≢ LabStatus.Failed }
{
    match LintRun::read(alloc, hosts, source) {
        Ok(run) => LabStatus::of(status_by(run.write(alloc, sink), Status::Done), false),
        Err(refusal) => LabStatus::of(write_refusal(alloc, refusal, sink), false),
    }
}
