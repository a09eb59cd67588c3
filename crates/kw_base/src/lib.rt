//! What every reader of a text shares: lines, words and numbers, places and faults, the line of a fault, numbered names,
//! and the hash of a text.
//!
//! Contracts cite the lines and words of a text in `specs/Texts.antt`, the place of a byte in `specs/Place.antt`, the
//! fault line in `specs/FaultLine.antt` and the number of a name in `specs/Names.antt`. They see a `Names` as the list
//! of its names in order of first sight. The readers of designs, stimuli and circuit files call this crate.
#![tactic(auto)]

mod fault;
pub mod fault_number;
mod hash;
mod names;
mod place;
pub mod texts;

pub use fault::{Fault, Refusal, fault_line};
pub use hash::HashOfText;
pub use names::{Added, Names};
pub use place::{Place, place_of};
