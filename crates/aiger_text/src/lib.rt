//! Bit-level circuits as AIGER texts.
//!
//! `specs/Reading.antt` says which circuit a text is read as, or which fault it has: `specs/Cuts.antt` how the text is
//! cut, `specs/Drafts.antt` what its lines say, `specs/Runs.antt` how inputs and latches come in words.
//! `specs/Printing.antt` says which text a circuit is printed as, `specs/AigShapes.antt` what stimuli and reports tell
//! of it.
#![tactic(auto)]

mod cuts;
mod draft;
mod header;
mod numbers;
mod places;
mod print;
mod read;
mod runs;
mod shape;
mod variables;

pub use print::print_aiger;
pub use read::read_aiger;
pub use shape::aig_shape;
