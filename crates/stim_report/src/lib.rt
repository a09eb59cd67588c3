//! What users read and write: stimuli, reports and summaries.
//!
//! `specs/Cuts.antt`, `specs/Assignments.antt` and `specs/Stimuli.antt` say how a source is cut and which stimulus, or
//! which first fault, a text gives. `specs/Report.antt` and `specs/Summary.antt` say which bytes show the rows of a
//! run, and `specs/Batches.antt` that the report of a run is those of its batches joined. Whoever runs a system passes
//! its rows to `report_part` and to a `Tally`, batch by batch.
#![tactic(auto, using(crate::proofs::Pages::pages))]

mod fired;
mod given;
mod laws;
mod lines;
mod named;
mod names;
mod page;
mod registers;
mod room;
mod shape;
mod source;
mod stimulus;
mod tally;
mod value;

pub use laws::a_report_is_made_in_parts;
pub use lines::{report, report_part};
pub use named::try_map;
pub use shape::{NameWidth, Shape, shape_of};
pub use source::{SourceParts, source_parts};
pub use stimulus::read_stimulus;
pub use tally::{Tally, has_fired, summary};
