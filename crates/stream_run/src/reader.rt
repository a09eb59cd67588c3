//! Sessions: a source read line by line. A byte that was read is used before the next read.

ghost use Rattle.std.specs.Prelude.{◌≡◌, ◌≤◌, ◌<◌, ◌+◌, ◌++◌, ◌∷◌, ◌⊎◌, [], ℕ, List, true, false, length, position};
ghost use Rattle.std.specs.Prelude.{vec_len, IfOk, OnErr, OnOk, OnSome, IsErrOf};
ghost use Rattle.std.specs.Io.KnownBytes.{Consumes, IsAtEnd};
ghost use Rattle.kw_bits.specs.Faults.{Rose};
ghost use Rattle.kw_base.specs.Texts.{ends_line};
ghost use Rattle.stream_run.specs.inner.Reading.{IsOneLine, TakesLine, to_come, with_end};

use crate::stop::Stop;
use kw_bits::NoMemory;
use kw_io::{Failed, Source};
use std::alloc::{AllocError, Global};
use std::marker::Model;

// How many bytes one read asks for at most.
const CHUNK: usize = 65_536;

/// The bytes before a line feed, or those that came where none did.
#[derive(Debug, Drop)]
pub(crate) struct Line {
    pub(crate) bytes: Vec<u8>,
    /// Whether the line feed came.
    pub(crate) is_whole: bool,
}

impl Line {
    /// Appends the line, with its line feed if that came.
    pub(crate) fn append_to(&self, bytes: &mut Vec<u8>) -> Result<(), AllocError>
        ensures { OnOk result (bytes.new.items ≡ bytes.old.items ++ with_end self.now.bytes.items self.now.is_whole) }
    {
        bytes.extend_from_slice(&self.bytes)?;
        if self.is_whole {
            bytes.extend_from_slice(b"\n")?;
        }
        Ok(())
    }
}

/// The bytes that were read from a source and not used yet.
#[derive(Debug, Drop)]
pub(crate) struct Reader {
    chunk: Vec<u8>,
    next: usize,
    end: usize,
}

impl Model for Reader {
    ghost use Rattle.std.specs.Prelude.{◌≤◌, ◌<◌, ◌-◌, List, ℕ, drop, take, vec_len};

    ghost Value = { List ℕ };

    ghost view = { λ r. take (r.end - r.next) (drop r.next r.chunk.items) };

    ghost invariant = { λ r. (r.next ≤ r.end) × (r.end ≤ vec_len r.chunk) × (0 < vec_len r.chunk) };
}

impl Reader {
    /// Nothing was read yet.
    pub(crate) fn new(alloc: Global) -> Result<Reader, NoMemory>
        ensures { IfOk result (λ reader. reader ≡ []) }
    {
        Ok(Reader {
            chunk: vec![in alloc; 0u8; CHUNK]?,
            next: 0,
            end: 0,
        })
    }

    /// Takes the next line. It stops before the line feed where the line has more bytes than the limit, or at the end.
    pub(crate) fn read_line<S: Source>(
        &mut self,
        alloc: Global,
        source: &mut S,
        limit: usize,
    ) -> Result<Line, Stop>
        requires { limit ≤ 1048576 }
        ensures takes { IfOk result (λ line. TakesLine (to_come self.old (S.left source.old))
            (to_come self.new (S.left source.new)) limit line.bytes.items line.is_whole) }
        ensures why { OnErr result ((IsErrOf result Stop.ReadFault) ⊎ (IsErrOf result Stop.NoMemory)) }
        ensures read_fault { IsErrOf result Stop.ReadFault → Rose (S.faults source.old) (S.faults source.new) }
        ensures never_falls { S.faults source.old ≤ S.faults source.new }
    {
        let mut bytes = Vec::new(alloc);
        'line: while bytes.len() <= limit {
            if !self.refill(source)? {
                return Ok(Line {
                    bytes,
                    is_whole: false,
                });
            }
            if self.take_line(&mut bytes)? {
                return Ok(Line {
                    bytes,
                    is_whole: true,
                });
            }
        }
        Ok(Line {
            bytes,
            is_whole: false,
        })
    }

    // Reads once where every byte is used, and says whether there is one.
    fn refill<S: Source>(&mut self, source: &mut S) -> Result<bool, Failed>
        ensures taken { IfOk result (λ _. Consumes (to_come self.old (S.left source.old))
            (to_come self.new (S.left source.new)) []) }
        ensures some { IfOk result (λ is_left. is_left ≡ true → 0 < length self.new) }
        ensures end { IfOk result (λ is_left. is_left ≡ false
            → OnSome (to_come self.old (S.left source.old)) (IsAtEnd (to_come self.new (S.left source.new)))) }
        ensures cause { OnErr result (Rose (S.faults source.old) (S.faults source.new)) }
        ensures never_falls { S.faults source.old ≤ S.faults source.new }
    {
        if self.next < self.end {
            return Ok(true);
        }
        self.fill(source)
    }

    // Reads once, and says whether a byte came.
    fn fill<S: Source>(&mut self, source: &mut S) -> Result<bool, Failed>
        ensures taken { IfOk result (λ _. Consumes (S.left source.old) (S.left source.new) self.new) }
        ensures some { IfOk result (λ came. came ≡ true → 0 < length self.new) }
        ensures none { IfOk result (λ came. came ≡ false → self.new ≡ []) }
        ensures end { IfOk result (λ came. came ≡ false → OnSome (S.left source.old) (IsAtEnd (S.left source.new))) }
        ensures cause { OnErr result (Rose (S.faults source.old) (S.faults source.new)) }
        ensures never_falls { S.faults source.old ≤ S.faults source.new }
    {
        let count = source.read(&mut self.chunk)?;
        self.next = 0;
        self.end = count;
        Ok(count > 0)
    }

    // Moves what comes before the next line feed, or all that was read, to the end of a line, and says whether the line
    // feed was there.
    fn take_line(&mut self, line: &mut Vec<u8>) -> Result<bool, AllocError>
        ensures whole { IfOk result (λ is_whole. is_whole ≡ true → (piece : List ℕ)
            × (line.new.items ≡ line.old.items ++ piece) × (self.old ≡ piece ++ 10 ∷ self.new) × IsOneLine piece) }
        ensures broken { IfOk result (λ is_whole. is_whole ≡ false → (line.new.items ≡ line.old.items ++ self.old)
            × (vec_len line.new ≡ vec_len line.old + length self.old) × (self.new ≡ []) × IsOneLine self.old) }
    {
        let unread = &self.chunk[self.next..self.end];
        match line_feed_in(unread) {
            Some(at) => {
                line.extend_from_slice(&unread[..at])?;
                self.next += at + 1;
                Ok(true)
            }
            None => {
                line.extend_from_slice(unread)?;
                self.next = self.end;
                Ok(false)
            }
        }
    }
}

// Where the first line feed is, if there is one.
fn line_feed_in(bytes: &[u8]) -> Option<usize>
    ensures { result ≡ position ends_line bytes.now }
{
    bytes.iter().position(|byte| *byte == b'\n')
}
