//! Waves: the value change dump of a run (IEEE 1364-2005, clause 18), which wave viewers read.
//!
//! `specs/Waves.antt` says which text shows the rows of a run and its inputs, `specs/Reading.antt` which value a variable
//! has at a time by the changes of a text, and `specs/Parts.antt` what is written of a run that is made in batches.
//! Whoever runs a design writes `head`, passes its rows to a `Waves`, batch by batch, and writes its ending.
#![tactic(auto)]

mod changes;
mod declarations;
mod edges;
mod laws;
mod level;
mod lines;
mod variable;
mod waves;

pub use declarations::head;
pub use laws::{a_dump_is_made_in_parts, a_dump_reads_back};
pub use waves::Waves;
