//! Sessions: the call that reads a design from a stream, and then its stimulus line by line.

ghost use Rattle.std.specs.Prelude.{◌≡◌, ◌≤◌, List, ℕ, [], IfOk, IfSome, OnOk, IsErrOf, Some, true, false, length};
ghost use Rattle.std.specs.Arc.{arc_value};
ghost use Rattle.kw_base.specs.Fault.{IfFault};
ghost use Rattle.kw_bits.specs.Faults.{Rose};
ghost use Rattle.koika_check.specs.Typing.{IsTypedDesign};
ghost use Rattle.one_rule.specs.Hosts.{host_specs};
ghost use Rattle.stim_report.specs.Cuts.{parts_of};
ghost use Rattle.typed_core.specs.Widths.{HaveWidths, register_widths};
ghost use Rattle.front_end.specs.Sources.{IsIllTyped, SpellsDesign, longest_source};
ghost use Rattle.front_end.specs.Streams.{stream};
ghost use Rattle.stream_run.specs.Sessions.{CountsReadFault, CountsWriteFault, HasNoWords, HasStatusOfReply, IsKept};
ghost use Rattle.stream_run.specs.Sessions.{ReadsAll, WritesFront, WritesRefusal, WritesReport, WritesSomeFront};
ghost use Rattle.stream_run.specs.Sessions.{session};
ghost use Rattle.stream_run.specs.inner.Reading.{to_come};
ghost use Rattle.stream_run.specs.inner.Telling.{Finishes, FinishesDesign, FinishesSession, place_of};

use crate::head::{Head, LONGEST};
use crate::line_run::LineRun;
use crate::reader::Reader;
use crate::stop::Stop;
use front_end::{Lowered, Status, read_source, status_by, write_fault};
use host_fn::HostFn;
use kw_base::Refusal;
use kw_io::{Sink, Source};
use std::alloc::Global;
use stim_report::source_parts;

/// Reads a design from a source, and then a line of its stimulus for each cycle. Each row of the run is written before
/// the next read. At the end of the source it is written which marked rules fired. The clauses are in
/// `specs/Sessions.antt`, in words. It is proved to return.
pub fn step<S: Source, K: Sink>(
    alloc: Global,
    hosts: &[HostFn],
    source: &mut S,
    sink: &mut K,
) -> Status
    // Status 0.
    ensures done { WritesReport (session (host_specs hosts.now) (stream S.left S.faults source.old source.new)
        (stream K.written K.faults sink.old sink.new) result) }
    ensures whole { ReadsAll (session (host_specs hosts.now) (stream S.left S.faults source.old source.new)
        (stream K.written K.faults sink.old sink.new) result) }

    // Status 2.
    ensures refused { WritesRefusal (session (host_specs hosts.now) (stream S.left S.faults source.old source.new)
        (stream K.written K.faults sink.old sink.new) result) }

    // Every status.
    ensures exact { HasStatusOfReply (session (host_specs hosts.now) (stream S.left S.faults source.old source.new)
        (stream K.written K.faults sink.old sink.new) result) }
    ensures front { WritesFront (session (host_specs hosts.now) (stream S.left S.faults source.old source.new)
        (stream K.written K.faults sink.old sink.new) result) }
    ensures some { WritesSomeFront (session (host_specs hosts.now) (stream S.left S.faults source.old source.new)
        (stream K.written K.faults sink.old sink.new) result) }
    ensures no_words { HasNoWords (session (host_specs hosts.now) (stream S.left S.faults source.old source.new)
        (stream K.written K.faults sink.old sink.new) result) }

    // Status 3 and status 4.
    ensures read_fault { CountsReadFault (session (host_specs hosts.now)
        (stream S.left S.faults source.old source.new) (stream K.written K.faults sink.old sink.new) result) }
    ensures write_fault { CountsWriteFault (session (host_specs hosts.now)
        (stream S.left S.faults source.old source.new) (stream K.written K.faults sink.old sink.new) result) }
{
    answer(alloc, hosts, source, sink)
}

// Does what a session does, and writes the line of the fault that ends it, if there is one.
fn answer<S: Source, K: Sink>(
    alloc: Global,
    hosts: &[HostFn],
    source: &mut S,
    sink: &mut K,
) -> Status
    ensures { IsKept (session (host_specs hosts.now) (stream S.left S.faults source.old source.new)
        (stream K.written K.faults sink.old sink.new) result) }
{
    match answer_source(alloc, hosts, source, sink) {
        Ok(()) => Status::Done,
        Err(Stop::Fault(fault)) => status_by(write_fault(alloc, fault, sink), Status::Refused),
        Err(Stop::ReadFault) => Status::ReadFault,
        Err(Stop::WriteFault) => Status::WriteFault,
        Err(Stop::NoMemory) => Status::NoMemory,
    }
}

// Reads the design of a source and answers its lines, or stops with the fault that there is.
fn answer_source<S: Source, K: Sink>(
    alloc: Global,
    hosts: &[HostFn],
    source: &mut S,
    sink: &mut K,
) -> Result<(), Stop>
    ensures finishes { FinishesSession (host_specs hosts.now) (S.left source.old) (K.written sink.old)
        (K.written sink.new) result }
    ensures whole { OnOk result (IfSome (S.left source.old) (λ _. S.left source.new ≡ Some [])) }
    ensures read_fault { IsErrOf result Stop.ReadFault → Rose (S.faults source.old) (S.faults source.new) }
    ensures write_fault { IsErrOf result Stop.WriteFault → Rose (K.faults sink.old) (K.faults sink.new) }
    ensures never_falls { K.faults sink.old ≤ K.faults sink.new }
{
    let mut reader = Reader::new(alloc)?;
    let head = Head::read(alloc, &mut reader, source)?;
    let lowered = lowered_of(alloc, hosts, &head.bytes)?;
    let line = source_parts(&head.bytes).first_line;
    answer_design(
        alloc,
        &lowered,
        line,
        head.is_open,
        &mut reader,
        source,
        sink,
    )
}

// The design that a head spells, lowered, or the head's fault.
fn lowered_of(alloc: Global, hosts: &[HostFn], head: &[u8]) -> Result<Lowered, Refusal>
    requires short { length head.now ≤ longest_source }
    requires alone { (parts_of head.now).stimulus ≡ [] }
    ensures spelled { IfOk result (λ lowered. SpellsDesign (host_specs hosts.now) head.now lowered.checked) }
    ensures typed { IfOk result (λ lowered. IsTypedDesign lowered.checked) }
    ensures refused { IfFault result (IsIllTyped (host_specs hosts.now) head.now) }
{
    let spelled = read_source(alloc, hosts, head)?;
    let lowered = Lowered::new(alloc, spelled, hosts)?;
    Ok(lowered)
}

// Writes the first row of a design, and answers its lines, of which the first has this number in the source. There is
// none where its line `%%` didn't come.
fn answer_design<S: Source, K: Sink>(
    alloc: Global,
    lowered: &Lowered,
    line: u32,
    is_open: bool,
    reader: &mut Reader,
    source: &mut S,
    sink: &mut K,
) -> Result<(), Stop>
    requires { IsTypedDesign lowered.now.checked }
    ensures finishes { FinishesDesign lowered.now.checked line is_open (to_come reader.old (S.left source.old))
        (K.written sink.old) (K.written sink.new) result }
    ensures whole { is_open ≡ true
        → OnOk result (IfSome (to_come reader.old (S.left source.old)) (λ _. S.left source.new ≡ Some [])) }
    ensures unread { is_open ≡ false → source.new ≡ source.old }
    ensures read_fault { IsErrOf result Stop.ReadFault → Rose (S.faults source.old) (S.faults source.new) }
    ensures write_fault { IsErrOf result Stop.WriteFault → Rose (K.faults sink.old) (K.faults sink.new) }
    ensures source_never_falls { S.faults source.old ≤ S.faults source.new }
    ensures never_falls { K.faults sink.old ≤ K.faults sink.new }
{
    let mut line_run = LineRun::first(alloc, lowered, line)?;
    line_run.write_opening(alloc, lowered, sink)?;
    if is_open {
        answer_lines(alloc, lowered, &mut line_run, reader, source, sink)
    } else {
        line_run.finish(alloc, lowered, &[], sink)
    }
}

// Answers the lines that are left, each before the next is read.
fn answer_lines<S: Source, K: Sink>(
    alloc: Global,
    lowered: &Lowered,
    line_run: &mut LineRun,
    reader: &mut Reader,
    source: &mut S,
    sink: &mut K,
) -> Result<(), Stop>
    requires typed { IsTypedDesign lowered.now.checked }
    requires fits { HaveWidths (register_widths (arc_value lowered.now.design)) line_run.old.regs }
    ensures finishes { Finishes lowered.now.checked (place_of line_run.old) (to_come reader.old (S.left source.old))
        (K.written sink.old) (K.written sink.new) result }
    ensures whole { OnOk result (IfSome (to_come reader.old (S.left source.old)) (λ _. S.left source.new ≡ Some [])) }
    ensures read_fault { IsErrOf result Stop.ReadFault → Rose (S.faults source.old) (S.faults source.new) }
    ensures write_fault { IsErrOf result Stop.WriteFault → Rose (K.faults sink.old) (K.faults sink.new) }
    ensures source_never_falls { S.faults source.old ≤ S.faults source.new }
    ensures never_falls { K.faults sink.old ≤ K.faults sink.new }
{
    'lines: loop {
        let line = reader.read_line(alloc, source, LONGEST)?;
        if !line.is_whole {
            return line_run.finish(alloc, lowered, &line.bytes, sink);
        }
        line_run.answer(alloc, lowered, &line.bytes, sink)?;
    }
}
