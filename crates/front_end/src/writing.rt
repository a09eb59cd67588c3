//! Answers: the calls that write a text to a sink.

ghost use Rattle.std.specs.Prelude.{◌≡◌};
ghost use Rattle.kw_base.specs.FaultLine.{line_of_fault};
ghost use Rattle.front_end.specs.Streams.{stream};
ghost use Rattle.front_end.specs.Told.{TellsMade, TellsText, TellsWhy, Told};

use crate::status::Status;
use crate::untold::{Untold, status_by};
use kw_base::{Fault, Refusal, fault_line};
use kw_bits::Text;
use kw_io::{Sink, write_all};
use std::alloc::Global;

/// Writes a text, or its first bytes where a write fails.
pub fn write_text<K: Sink>(sink: &mut K, text: &[u8]) -> Result<(), Untold>
    ensures { Told text.now (stream K.written K.faults sink.old sink.new) result }
{
    match write_all(sink, text) {
        Ok(()) => Ok(()),
        Err(_) => Err(Untold::WriteFault),
    }
}

/// Writes the line of a fault, or its first bytes where a write fails.
pub fn write_fault<K: Sink>(alloc: Global, fault: Fault, sink: &mut K) -> Result<(), Untold>
    ensures { Told (line_of_fault fault) (stream K.written K.faults sink.old sink.new) result }
{
    let line = fault_line(alloc, fault)?;
    write_text(sink, line.as_slice())
}

/// Writes a text that was made, or the line of the fault that there is in its place.
pub fn write_made<K: Sink>(alloc: Global, made: Result<Text, Refusal>, sink: &mut K) -> Status
    ensures { TellsMade made (stream K.written K.faults sink.old sink.new) result }
{
    match made {
        Ok(text) => status_by(write_text(sink, text.as_slice()), Status::Done),
        Err(refusal) => write_refusal(alloc, refusal, sink),
    }
}

/// Writes the line of a fault. Where memory ran out, it writes nothing.
pub fn write_refusal<K: Sink>(alloc: Global, refusal: Refusal, sink: &mut K) -> Status
    ensures { TellsWhy refusal (stream K.written K.faults sink.old sink.new) result }
{
    match refusal {
        Refusal::Fault(fault) => status_by(write_fault(alloc, fault, sink), Status::Refused),
        Refusal::NoMemory => Status::NoMemory,
    }
}
