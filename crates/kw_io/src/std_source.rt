//! Streams: a source over a reader of std, as standard input.

ghost use Rattle.std.specs.Prelude.{◌≡◌, ◌<◌, ◌≤◌, length, take, IfSome, IfNone};
ghost use Rattle.std.specs.Io.KnownBytes.{Consumes, IsAtEnd, Keeps};

use crate::failed::Failed;
use crate::source::Source;
use std::io::{ErrorKind, Read};

/// A source over a reader of std. It exposes the bytes that the reader does: those of a slice, and none of
/// a file's or a pipe's. A read that a signal interrupts is tried again.
#[derive(Debug, Drop)]
pub struct StdSource<R> {
    reader: R,
    // As far as a `u64` counts.
    faults: u64,
}

impl<R: Read> StdSource<R> {
    /// A source over this reader, of which no read has failed yet.
    pub fn new(reader: R) -> StdSource<R>
        ensures left { ⟦<StdSource<R> as Source>⟧.left result ≡ R.remaining reader }
        ensures faults { ⟦<StdSource<R> as Source>⟧.faults result ≡ 0 }
    {
        StdSource { reader, faults: 0 }
    }
}

impl<R: Read> Source for StdSource<R> {
    ghost left = { λ s. R.remaining s.reader };

    ghost faults = { λ s. s.faults };

    fn read(&mut self, into: &mut [u8]) -> Result<usize, Failed> {
        match read_through(&mut self.reader, into) {
            Some(count) => Ok(count),
            None => {
                self.faults = self.faults.saturating_add(1);
                Err(Failed)
            }
        }
    }
}

// One read that no signal interrupted, or none where reading failed.
fn read_through<R: Read>(reader: &mut R, into: &mut [u8]) -> Option<usize>
    ensures within { IfSome result (λ n. n ≤ length into.new) }
    ensures taken { IfSome result (λ n.
        Consumes (R.remaining reader.old) (R.remaining reader.new) (take n into.new)) }
    ensures end { IfSome result (λ n.
        n ≡ 0 → 0 < length into.old → IsAtEnd (R.remaining reader.new)) }
    ensures kept { IfNone result (Keeps (R.remaining reader.old) (R.remaining reader.new)) }
{
    // Nothing says that interruptions end, so the tries are counted.
    for _ in 0..u64::MAX {
        match reader.read(into) {
            Ok(count) => return Some(count),
            Err(error) => {
                if error.kind() != ErrorKind::Interrupted {
                    return None;
                }
            }
        }
    }
    None
}
