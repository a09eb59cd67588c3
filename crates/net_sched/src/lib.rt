//! Whole designs as circuits: the scheduler's nodes in order, each with the wires of its rule.
//!
//! `specs/Designs.antt` says when a circuit is that of a design. `specs/inner/Cycles.antt` says what the wires of a cycle stand
//! for, and serves private functions alone. `koika_top` calls `build` for a design that it compiles.
#![tactic(auto)]

mod circuit;
mod cycle;
mod flags;
mod log;
mod registers;
mod visit;

pub use circuit::build;
