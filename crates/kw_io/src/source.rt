//! Streams: the trait of sources.

ghost use Rattle.std.specs.Prelude.{◌≡◌, ◌<◌, ◌≤◌, ◌↔◌, ℕ, List, [], Option, length, take, IfOk, IfSome, OnErr};
ghost use Rattle.std.specs.Io.KnownBytes.{Consumes, Keeps};
ghost use Rattle.kw_bits.specs.Faults.{Rose};

use crate::failed::Failed;

/// A source of bytes: a file, a pipe, or bytes in memory.
pub trait Source {
    /// The bytes that are left, where the source exposes them.
    ghost left: { Self → Option (List ℕ) };

    /// How many reads have failed, as far as the source counts.
    ghost faults: { Self → ℕ };

    /// Takes the first bytes that are left, as many as it returns, and puts them at the beginning of
    /// `into`. No byte is the end of input. A source that exposes its bytes goes on doing so.
    fn read(&mut self, into: &mut [u8]) -> Result<usize, Failed>
        requires { 0 < length into.old }
        ensures within { IfOk result (λ n. n ≤ length into.new) }
        ensures taken { IfOk result (λ n. Consumes (left self.old) (left self.new) (take n into.new)) }
        ensures end { IfOk result (λ n. IfSome (left self.old) (λ all. (n ≡ 0) ↔ (all ≡ []))) }
        ensures kept { OnErr result (Keeps (left self.old) (left self.new)) }
        ensures cause { OnErr result (Rose (faults self.old) (faults self.new)) }
        ensures never_falls { faults self.old ≤ faults self.new };
}
