//! Bit vectors of 1 to 128 bits, host functions and tables of them, and what every crate shares: the errors of calls that
//! take memory, the list types and the box.
//!
//! Contracts see a `Bits` as its width and its number, and cite the operators of `specs/Operators.antt`, which are those
//! of SMT-LIB's theory of bit vectors and of BTOR2, and the answers of `specs/Host.antt`. They see a `Sequence` as the
//! list of its items, a `Boxed` as what it holds, and a `Reserved` as a list beside its capacity. `specs/Faults.antt` says when a count of faults
//! rose. Proofs above cite the laws of
//! `proofs/OperatorLaws.antt` and `proofs/Halves.antt`. Every other crate uses this one.
#![tactic(auto)]

mod bit_vector;
mod boxed;
mod equality;
mod failure;
mod host;
pub mod laws;
mod memory;
mod operators;
mod reserved;
mod sequence;
mod table;

pub use bit_vector::Bits;
pub use boxed::Boxed;
pub use equality::Same;
pub use failure::Failure;
pub use host::{HostKind, HostSpec, interleaved};
pub use memory::NoMemory;
pub use reserved::Reserved;
pub use sequence::{Sequence, Text};
pub use table::TableSpec;
