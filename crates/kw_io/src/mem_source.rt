//! Streams: a source in memory, for tests and for callers that have the bytes.

ghost use Rattle.std.specs.Prelude.{◌≡◌, ◌↔◌, ◌≤◌, ◌<◌, ◌++◌, Some, length, min, take, drop, IsErr, IfOk, OnErr, []};
ghost use Rattle.kw_io.specs.InMemory.{IsNextListed, after_success};
ghost use Rattle.kw_io.specs.inner.InMemory.{after_failure};

use crate::calls::Calls;
use crate::failed::Failed;
use crate::source::Source;
use std::marker::Model;

/// A source of bytes in memory. It exposes its bytes, gives them in pieces, and fails at listed calls.
#[derive(Debug, Drop)]
pub struct MemSource {
    bytes: Vec<u8>,
    next: usize,
    piece: usize,
    calls: Calls,
}

impl Model for MemSource {
    ghost use Rattle.std.specs.Prelude.{◌≤◌, drop, vec_len};
    ghost use Rattle.kw_io.specs.InMemory.{SourceInMemory};

    ghost Value = { SourceInMemory };

    ghost view = { λ s. record { left = drop s.next s.bytes.items; piece = s.piece; calls = s.calls } };

    ghost invariant = { λ s. (s.next ≤ vec_len s.bytes) × (1 ≤ s.piece) };
}

impl MemSource {
    /// A source of these bytes. A read gives at most `piece` of them, which is at least 1, and the calls
    /// whose numbers are in `failing` fail. The first call is number 1.
    pub fn new(bytes: Vec<u8>, piece: usize, failing: Vec<u64>) -> MemSource
        requires { 1 ≤ piece }
        ensures { result ≡ record {
          left = bytes.items;
          piece = piece;
          calls = record { made = 0; failed = 0; failing = failing.items };
        } }
    {
        MemSource {
            bytes,
            next: 0,
            piece,
            calls: Calls::new(failing),
        }
    }

    /// The bytes that are left.
    pub fn left(&self) -> &[u8]
        ensures { result.now ≡ self.now.left }
    {
        &self.bytes.as_slice()[self.next..]
    }

    /// How many calls were made, as far as a `u64` counts.
    pub fn calls(&self) -> u64
        ensures { result ≡ self.now.calls.made }
    {
        self.calls.made()
    }

    /// How many of them failed, as far as a `u64` counts.
    pub fn faults(&self) -> u64
        ensures { result ≡ self.now.calls.failed }
    {
        self.calls.failed()
    }
}

impl Source for MemSource {
    ghost left = { λ s. Some s.left };

    ghost faults = { λ s. s.calls.failed };

    /// Gives as many bytes as there are, up to the piece and to the room in `into`.
    fn read(&mut self, into: &mut [u8]) -> Result<usize, Failed>
        requires { 0 < length into.old }
        ensures listed { IsErr result ↔ IsNextListed self.old.calls }
        ensures count { IfOk result (λ n.
            n ≡ min (min (length self.old.left) (length into.old)) self.old.piece) }
        ensures end { IfOk result (λ n. (n ≡ 0) ↔ (self.old.left ≡ [])) }
        ensures bytes { IfOk result (λ n. into.new ≡ take n self.old.left ++ drop n into.old) }
        ensures ok { IfOk result (λ n. self.new ≡ record self.old {
          left = drop n self.old.left;
          calls = after_success self.old.calls;
        }) }
        ensures err { OnErr result (self.new ≡ record self.old { calls = after_failure self.old.calls }) }
        ensures err_bytes { OnErr result (into.new ≡ into.old) }
        ensures never_falls { self.old.calls.failed ≤ self.new.calls.failed }
    {
        self.calls.begin()?;
        let left = &self.bytes.as_slice()[self.next..];
        let count = left.len().min(into.len()).min(self.piece);
        into[..count].copy_from_slice(&left[..count]);
        self.next += count;
        Ok(count)
    }
}
