//! Circuits: a net with named inputs, states and outputs, and its run.
//!
//! Contracts see a `Circuit` as its wires and cite `specs/Circuits.antt`, which says which wires make a circuit, and
//! `specs/Run.antt`, which says what its run is. `specs/Simulations.antt` is what a simulator is seen as, and
//! `specs/Tidy.antt` says when a circuit is tidy. A `WordSim` lays its net out once, as steps on machine words
//! (`specs/Programs.antt`), and keeps its states as words. A `Sim` also has the states and the outputs as bit vectors.
//! `run_machine` makes the rows of one of them, or of another `Machine` (`specs/Machines.antt`).
//! `net_sched`, `net_simplify` and `btor2_net` make circuits, and `koika_top` runs them.
#![tactic(auto)]

mod circuit;
mod machine;
mod program;
mod rows;
mod sim;
mod state_words;
mod steps;
mod validity;
mod word_sim;
mod words;

pub use circuit::{Circuit, InputWire, OutputWire, StateWire, Wires};
pub use machine::Machine;
pub use rows::{run_circuit, run_machine, run_on};
pub use sim::Sim;
pub use word_sim::WordSim;
