//! Bit-level circuits, and-inverter graphs with latches, and how circuits of words are made of them.
//!
//! `specs/Aigs.antt` says which parts make an `Aig`, `specs/AigRun.antt` what its run is, and `specs/Blasted.antt` when it is that
//! of a circuit of words, which `blast` makes. `specs/Graphs.antt` has the values of graphs of and-gates, and `specs/Steps.antt`
//! what adders, multipliers and shifters of gates make of words. `AigSim` and `run_on` run an `Aig`.
#![tactic(auto)]

mod adder;
mod aig;
mod arithmetic;
mod bitwise;
mod circuit;
mod gate;
mod graph;
mod machine;
mod nodes;
mod operators;
mod parts;
mod rows;
mod rules;
mod shifts;
mod sim;
mod sources;
mod tests_of_words;
mod trim;

pub use aig::{Aig, InputWord, LatchWord, OutputBit};
pub use circuit::blast;
pub use gate::{Gate, Lit};
pub use rows::{run_aig, run_on};
pub use sim::AigSim;
