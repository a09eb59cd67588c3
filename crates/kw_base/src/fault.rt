//! Texts: faults, each a number and a place, and the line that is written for one.

ghost use Rattle.std.specs.Prelude.{◌≡◌, IfOk};
ghost use Rattle.kw_base.specs.Fault.{fault_at};
ghost use Rattle.kw_base.specs.FaultLine.{line_of_fault};
ghost use Rattle.kw_base.specs.declared.fault.Refusal.TheVariants as refusals;

use crate::place::Place;
use itoa::Buffer;
use kw_bits::{NoMemory, Text};
use std::alloc::{AllocError, AllocFailed, Global};
use thiserror::Error;

/// What is wrong with a text: the number of the fault, and its line and column, both counted from 1, or 0
/// and 0 where it speaks of the whole text.
#[derive(Clone, Copy, Debug, PartialEq, Eq, Error)]
#[error("fault {number} at {line}:{column}")]
pub struct Fault {
    pub number: u32,
    pub line: u32,
    pub column: u32,
}

impl Fault {
    /// The fault of this number at this place.
    pub fn new(number: u32, place: Place) -> Fault
        ensures { result ≡ fault_at number place }
    {
        Fault {
            number,
            line: place.line,
            column: place.column,
        }
    }
}

/// Why a reader of a text gave no value.
#[derive(Clone, Copy, Debug, PartialEq, Eq, Error)]
pub enum Refusal {
    #[error(transparent)]
    Fault(Fault),
    #[error("out of memory")]
    NoMemory,
}

impl From<NoMemory> for Refusal {
    ghost from_gives = { λ _ refusal. refusal ≡ refusals.NoMemory };

    fn from(_: NoMemory) -> Refusal {
        Refusal::NoMemory
    }
}

impl From<AllocError> for Refusal {
    ghost from_gives = { λ _ refusal. refusal ≡ refusals.NoMemory };

    fn from(_: AllocError) -> Refusal {
        Refusal::NoMemory
    }
}

impl<T: Drop> From<AllocFailed<T>> for Refusal {
    ghost from_gives = { λ _ refusal. refusal ≡ refusals.NoMemory };

    fn from(_: AllocFailed<T>) -> Refusal {
        Refusal::NoMemory
    }
}

/// The line of a fault: `fault N at L:C` and a line feed.
pub fn fault_line(alloc: Global, fault: Fault) -> Result<Text, NoMemory>
    ensures { IfOk result (λ line. line ≡ line_of_fault fault) }
{
    let mut buffer = Buffer::new();
    let mut line = Text::from_slice(alloc, b"fault ")?;
    line.extend_from_slice(buffer.format(fault.number).as_bytes())?;
    line.extend_from_slice(b" at ")?;
    line.extend_from_slice(buffer.format(fault.line).as_bytes())?;
    line.extend_from_slice(b":")?;
    line.extend_from_slice(buffer.format(fault.column).as_bytes())?;
    line.push(b'\n')?;
    Ok(line)
}
