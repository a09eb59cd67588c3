//! Streams: a sink over a writer of std, as standard output.

ghost use Rattle.std.specs.Prelude.{◌≡◌, ◌≤◌, length, take, IfSome, IfNone};
ghost use Rattle.std.specs.Io.KnownBytes.{Appends, Keeps};

use crate::failed::Failed;
use crate::sink::Sink;
use std::io::{ErrorKind, Write};

/// A sink over a writer of std. It exposes the bytes that the writer does: those of a vector, and none of
/// a file's or a pipe's. A write that a signal interrupts is tried again, and one that takes nothing fails.
#[derive(Debug, Drop)]
pub struct StdSink<W> {
    writer: W,
    // As far as a `u64` counts.
    faults: u64,
}

impl<W: Write> StdSink<W> {
    /// A sink over this writer, of which no write has failed yet.
    pub fn new(writer: W) -> StdSink<W>
        ensures written { ⟦<StdSink<W> as Sink>⟧.written result ≡ W.contents writer }
        ensures faults { ⟦<StdSink<W> as Sink>⟧.faults result ≡ 0 }
    {
        StdSink { writer, faults: 0 }
    }
}

impl<W: Write> Sink for StdSink<W> {
    ghost written = { λ s. W.contents s.writer };

    ghost faults = { λ s. s.faults };

    fn write(&mut self, piece: &[u8]) -> Result<usize, Failed> {
        match write_through(&mut self.writer, piece) {
            Some(count) => Ok(count),
            None => {
                self.faults = self.faults.saturating_add(1);
                Err(Failed)
            }
        }
    }
}

// One write that no signal interrupted and that took some bytes, or none where writing failed.
fn write_through<W: Write>(writer: &mut W, piece: &[u8]) -> Option<usize>
    ensures some { IfSome result (λ n. 1 ≤ n) }
    ensures within { IfSome result (λ n. n ≤ length piece.now) }
    ensures appended { IfSome result (λ n.
        Appends (W.contents writer.old) (W.contents writer.new) (take n piece.now)) }
    ensures kept { IfNone result (Keeps (W.contents writer.old) (W.contents writer.new)) }
{
    // Nothing says that interruptions end, so the tries are counted.
    for _ in 0..u64::MAX {
        match writer.write(piece) {
            Ok(0) => return None,
            Ok(count) => return Some(count),
            Err(error) => {
                if error.kind() != ErrorKind::Interrupted {
                    return None;
                }
            }
        }
    }
    None
}
