//! Streams: the trait of sinks.

ghost use Rattle.std.specs.Prelude.{◌≤◌, ℕ, List, Option, length, take, IfOk, OnErr, ◌<◌};
ghost use Rattle.std.specs.Io.KnownBytes.{Appends, Keeps};
ghost use Rattle.kw_bits.specs.Faults.{Rose};

use crate::failed::Failed;

/// A sink of bytes: a file, a pipe, or room in memory.
pub trait Sink {
    /// The bytes written so far, where the sink exposes them.
    ghost written: { Self → Option (List ℕ) };

    /// How many writes have failed, as far as the sink counts.
    ghost faults: { Self → ℕ };

    /// Writes the first bytes of `piece`, at least one, as many as it returns. A sink that exposes its
    /// bytes goes on doing so.
    fn write(&mut self, piece: &[u8]) -> Result<usize, Failed>
        requires { 0 < length piece.now }
        ensures some { IfOk result (λ n. 1 ≤ n) }
        ensures within { IfOk result (λ n. n ≤ length piece.now) }
        ensures appended { IfOk result (λ n. Appends (written self.old) (written self.new) (take n piece.now)) }
        ensures kept { OnErr result (Keeps (written self.old) (written self.new)) }
        ensures cause { OnErr result (Rose (faults self.old) (faults self.new)) }
        ensures never_falls { faults self.old ≤ faults self.new };
}
