//! What the programs share: what they read of a source, and what they write to a sink.
//!
//! `specs/Sources.antt` says which design and stimulus a source spells, or with which fault it is refused, and
//! `specs/Certified.antt` the same of a source that has a certificate besides. `specs/Circuits.antt` and `specs/Aigs.antt`
//! say when a circuit, of words or of bits, is a design's.
//! `specs/Program.antt` says what a program is: its commands, its answers and its statuses. `specs/Calls.antt` says what
//! is promised of each call of a program, whatever its commands are. `koika_top` and `lab_top` call this crate.
#![tactic(auto)]

mod answer;
mod bits;
mod certified;
mod circuits;
pub mod given;
mod laws;
mod lengths;
mod lowered;
mod number_words;
mod shape;
mod source;
mod status;
mod untold;
mod writing;

pub use answer::Answer;
pub use bits::{MOST_BITS, has_few_bits};
pub use certified::{CertifiedParts, ProofParts, certified_parts, proof_parts, spell_parts};
pub use circuits::{aig_of, circuit_of};
pub use laws::{circuits_have_the_first_values, names_are_distinct};
pub use lengths::{BATCH, is_too_long, is_too_long_for};
pub use lowered::Lowered;
pub use number_words::number_of;
pub use shape::{marked_names, shape_of};
pub use source::{Spelled, fault_of_source, read_design, read_source, read_tree};
pub use status::Status;
pub use untold::{Untold, status_by};
pub use writing::{write_fault, write_made, write_refusal, write_text};
