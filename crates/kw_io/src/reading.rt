//! Streams: reading a source to its end, up to a limit.

ghost use Rattle.std.specs.Prelude.{◌≡◌, ◌+◌, ◌-◌, ◌<◌, ◌++◌, ◌≤◌, length, IfOk, IfSome, OnSome, OnOk, OnErr, IsErrOf, vec_len, List, ℕ};
ghost use Rattle.std.specs.Io.KnownBytes.{Consumes, IsAtEnd};
ghost use Rattle.kw_bits.specs.Faults.{Rose};
ghost use Rattle.kw_io.specs.Portions.{TakesAll, TakesUpTo};
ghost use Rattle.kw_io.specs.declared.reading.ReadAll.TheVariants.{Fault, NoMemory as WantOfMemory};

use crate::failed::Failed;
use crate::source::Source;
use std::alloc::{AllocError, Global};
use std::error::Error;
use std::fmt;

// How many bytes one read asks for at most.
const CHUNK: usize = 65536;

/// Why not all bytes could be read. The bytes that were taken stay taken.
#[derive(Clone, Copy, Debug, PartialEq, Eq)]
pub enum ReadAll {
    /// A read failed.
    Fault,
    /// There are more bytes than the limit.
    TooLong,
    /// The allocator refused.
    NoMemory,
}

impl fmt::Display for ReadAll {
    fn fmt<W: fmt::Write>(&self, f: &mut fmt::Formatter<W>) -> fmt::Result {
        f.write_str(match self {
            ReadAll::Fault => "reading failed",
            ReadAll::TooLong => "too many bytes",
            ReadAll::NoMemory => "out of memory",
        })
    }
}

impl Error for ReadAll {}

impl From<Failed> for ReadAll {
    ghost from_gives = { λ _ e. e ≡ Fault };

    fn from(_: Failed) -> ReadAll {
        ReadAll::Fault
    }
}

impl From<AllocError> for ReadAll {
    ghost from_gives = { λ _ e. e ≡ WantOfMemory };

    fn from(_: AllocError) -> ReadAll {
        ReadAll::NoMemory
    }
}

/// Reads all bytes that are left, to the end of input, of which there may be `limit`. Pieces of any
/// length are joined. It takes memory for a piece of at most `limit + 1` bytes and for what was read, in a
/// list that doubles where it is full: four times `limit` and a few bytes at most.
pub fn read_all<S: Source>(alloc: Global, source: &mut S, limit: usize) -> Result<Vec<u8>, ReadAll>
    ensures all { IfOk result (λ bytes. TakesAll (S.left source.old) (S.left source.new) bytes.items) }
    ensures within { IfOk result (λ bytes. vec_len bytes ≤ limit) }
    ensures fault { IsErrOf result ReadAll.Fault → Rose (S.faults source.old) (S.faults source.new) }

    // It is too long exactly where byte `limit + 1` came, and no byte after that one was taken.
    ensures too_long { TakesUpTo (S.left source.old) (S.left source.new) limit
        (IsErrOf result ReadAll.TooLong) }
    ensures longer { IsErrOf result ReadAll.TooLong
        → IfSome (S.left source.old) (λ all. limit < length all) }
    ensures never_falls { S.faults source.old ≤ S.faults source.new }
{
    // One byte more than may come shows that there are too many.
    let mut chunk = vec![in alloc; 0u8; limit.min(CHUNK - 1) + 1]?;
    join_pieces(alloc, source, limit, &mut chunk)
}

// Reads into the chunk and joins what came, until nothing comes.
fn join_pieces<S: Source>(
    alloc: Global,
    source: &mut S,
    limit: usize,
    chunk: &mut [u8],
) -> Result<Vec<u8>, ReadAll>
    requires { 0 < length chunk.old }
    ensures all { IfOk result (λ bytes. TakesAll (S.left source.old) (S.left source.new) bytes.items) }
    ensures within { IfOk result (λ bytes. vec_len bytes ≤ limit) }
    ensures fault { IsErrOf result ReadAll.Fault → Rose (S.faults source.old) (S.faults source.new) }
    ensures too_long { TakesUpTo (S.left source.old) (S.left source.new) limit
        (IsErrOf result ReadAll.TooLong) }
    ensures never_falls { S.faults source.old ≤ S.faults source.new }
{
    let mut bytes = Vec::new(alloc);
    while append_piece(source, limit, chunk, &mut bytes)? > 0 {}
    Ok(bytes)
}

// Reads once and appends what came, as many bytes as it returns. None is the end of input.
fn append_piece<S: Source>(
    source: &mut S,
    limit: usize,
    chunk: &mut [u8],
    bytes: &mut Vec<u8>,
) -> Result<usize, ReadAll>
    requires chunk { 0 < length chunk.old }
    requires within { vec_len bytes.old ≤ limit }
    ensures appended { IfOk result (λ count. (piece : List ℕ)
        × (bytes.new.items ≡ bytes.old.items ++ piece)
        × Consumes (S.left source.old) (S.left source.new) piece) }
    ensures grows { IfOk result (λ count. vec_len bytes.new ≡ vec_len bytes.old + count) }
    ensures within { OnOk result (vec_len bytes.new ≤ limit) }
    ensures end { IfOk result (λ count.
        count ≡ 0 → OnSome (S.left source.old) (IsAtEnd (S.left source.new))) }
    ensures err { OnErr result (TakesUpTo (S.left source.old) (S.left source.new)
        (limit - vec_len bytes.old) (IsErrOf result ReadAll.TooLong)) }
    ensures fault { IsErrOf result ReadAll.Fault → Rose (S.faults source.old) (S.faults source.new) }
    ensures never_falls { S.faults source.old ≤ S.faults source.new }
{
    let most = (limit - bytes.len()).min(chunk.len() - 1) + 1;
    let piece = &mut chunk[..most];
    let count = source.read(piece)?;
    if count > limit - bytes.len() {
        return Err(ReadAll::TooLong);
    }
    bytes.extend_from_slice(&piece[..count])?;
    Ok(count)
}
