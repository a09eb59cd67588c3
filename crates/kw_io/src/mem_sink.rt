//! Streams: a sink in memory, for tests and for callers that keep what is written.

ghost use Rattle.std.specs.Prelude.{◌≡◌, ◌↔◌, ◌≤◌, ◌<◌, ◌++◌, ◌⊎◌, Some, length, min, take, IsErr, IfOk, OnErr, []};
ghost use Rattle.kw_io.specs.InMemory.{IsNextListed, after_success, room_left};
ghost use Rattle.kw_io.specs.inner.InMemory.{after_failure};

use crate::calls::Calls;
use crate::failed::Failed;
use crate::sink::Sink;
use kw_bits::NoMemory;
use std::alloc::Global;
use std::marker::Model;

/// A sink of bytes in memory, which allocates nothing after it was made. It exposes its bytes, takes them in
/// pieces, and fails at listed calls and where it is full.
#[derive(Debug, Drop)]
pub struct MemSink {
    bytes: Vec<u8>,
    room: usize,
    piece: usize,
    calls: Calls,
}

impl Model for MemSink {
    ghost use Rattle.std.specs.Prelude.{◌≤◌, vec_len, vec_capacity};
    ghost use Rattle.kw_io.specs.InMemory.{SinkInMemory};

    ghost Value = { SinkInMemory };

    ghost view = { λ s. record { written = s.bytes.items; room = s.room; piece = s.piece; calls = s.calls } };

    ghost invariant = { λ s. (vec_len s.bytes ≤ s.room) × (s.room ≤ vec_capacity s.bytes) × (1 ≤ s.piece) };
}

impl MemSink {
    /// A sink with room for this many bytes. A write takes at most `piece` of them, which is at least 1, and
    /// the calls whose numbers are in `failing` fail. The first call is number 1.
    pub fn new(
        alloc: Global,
        room: usize,
        piece: usize,
        failing: Vec<u64>,
    ) -> Result<MemSink, NoMemory>
        requires { 1 ≤ piece }
        ensures { IfOk result (λ sink. sink ≡ record {
          written = [];
          room = room;
          piece = piece;
          calls = record { made = 0; failed = 0; failing = failing.items };
        }) }
    {
        Ok(MemSink {
            bytes: Vec::with_capacity(alloc, room)?,
            room,
            piece,
            calls: Calls::new(failing),
        })
    }

    /// The bytes written so far.
    pub fn written(&self) -> &[u8]
        ensures { result.now ≡ self.now.written }
    {
        self.bytes.as_slice()
    }

    /// How many calls were made, as far as a `u64` counts.
    pub fn calls(&self) -> u64
        ensures { result ≡ self.now.calls.made }
    {
        self.calls.made()
    }

    /// How many of them failed, as far as a `u64` counts.
    pub fn faults(&self) -> u64
        ensures { result ≡ self.now.calls.failed }
    {
        self.calls.failed()
    }
}

impl Sink for MemSink {
    ghost written = { λ s. Some s.written };

    ghost faults = { λ s. s.calls.failed };

    /// Takes as many bytes as it is given, up to the piece and to the room that is left.
    fn write(&mut self, piece: &[u8]) -> Result<usize, Failed>
        requires { 0 < length piece.now }
        ensures fails { IsErr result ↔ (IsNextListed self.old.calls ⊎ (room_left self.old ≡ 0)) }
        ensures count { IfOk result (λ n.
            n ≡ min (min (room_left self.old) (length piece.now)) self.old.piece) }
        ensures some { IfOk result (λ n. 1 ≤ n) }
        ensures ok { IfOk result (λ n. self.new ≡ record self.old {
          written = self.old.written ++ take n piece.now;
          calls = after_success self.old.calls;
        }) }
        ensures err { OnErr result (self.new ≡ record self.old { calls = after_failure self.old.calls }) }
        ensures never_falls { self.old.calls.failed ≤ self.new.calls.failed }
    {
        self.calls.begin()?;
        let left = self.room - self.bytes.len();
        if left == 0 {
            return Err(self.calls.fail());
        }
        let count = left.min(piece.len()).min(self.piece);
        match self.bytes.extend_from_slice(&piece[..count]) {
            Ok(()) => Ok(count),
            Err(_) => unreachable!(),
        }
    }
}
