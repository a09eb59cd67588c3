//! Streams: writing all bytes of a text.

ghost use Rattle.std.specs.Prelude.{◌≤◌, ◌<◌, length, take, IfErr, OnOk, OnErr};
ghost use Rattle.std.specs.Io.KnownBytes.{Appends};
ghost use Rattle.kw_bits.specs.Faults.{Rose};

use crate::sink::Sink;
use std::error::Error;
use std::fmt;

/// A write failed.
#[derive(Clone, Copy, Debug, PartialEq, Eq)]
pub struct WriteFault {
    /// How many bytes went out before.
    pub written: usize,
}

impl fmt::Display for WriteFault {
    fn fmt<W: fmt::Write>(&self, f: &mut fmt::Formatter<W>) -> fmt::Result {
        write!(f, "writing failed after {} bytes", self.written)
    }
}

impl Error for WriteFault {}

/// Writes all bytes in order, in as many pieces as the sink wants, and allocates nothing.
#[tactic(auto, using(crate::proofs::Portions::appends_next))]
pub fn write_all<K: Sink>(sink: &mut K, bytes: &[u8]) -> Result<(), WriteFault>
    ensures all { OnOk result (Appends (K.written sink.old) (K.written sink.new) bytes.now) }
    ensures some { IfErr result (λ fault.
        Appends (K.written sink.old) (K.written sink.new) (take fault.written bytes.now)) }
    ensures not_all { IfErr result (λ fault. fault.written < length bytes.now) }
    ensures cause { OnErr result (Rose (K.faults sink.old) (K.faults sink.new)) }
    ensures never_falls { K.faults sink.old ≤ K.faults sink.new }
{
    let mut written = 0;
    while written < bytes.len() {
        match sink.write(&bytes[written..]) {
            Ok(count) => written += count,
            Err(_) => return Err(WriteFault { written }),
        }
    }
    Ok(())
}
