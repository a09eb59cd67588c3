//! Program: how it is called.

ghost use Rattle.front_end.specs.Streams.{stream};
ghost use Rattle.front_end.specs.declared.answer.Answer.{Answer};
ghost use Rattle.front_end.specs.declared.answer.Answer.TheVariants.{Usage};
ghost use Rattle.koika_top.specs.inner.Steps.{TellsOne};

use front_end::{Status, status_by, write_text};
use kw_io::Sink;

// How to call the program.
const USAGE_LINE: &[u8] =
    b"usage: koika check|print|sim|compile|btorsim|gen|aiger|aigsim|recheck\n";

/// Writes how to call the program.
pub(crate) fn write_usage<K: Sink>(sink: &mut K) -> Status
    ensures { TellsOne Usage (stream K.written K.faults sink.old sink.new) result }
{
    status_by(write_text(sink, USAGE_LINE), Status::Usage)
}
