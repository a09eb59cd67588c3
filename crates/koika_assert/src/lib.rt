//! Which assertions of a run are violated.
//!
//! `specs/Violations.antt` says in which cycle a marked rule is violated first, and which bytes say so. `koika_top`
//! passes the rows of a run with marks to a `Watch`, batch by batch, and writes its text after the report or the
//! summary. `specs/Bads.antt` says which text shows a BTOR2 file's `bad` lines beside its outputs, which `koika_top` runs,
//! and which `bad` lines show marked flags, which it adds to the text that it compiles a design to.
#![tactic(auto)]

mod bads;
mod copies;
mod marks;
mod watch;

pub use bads::bads_beside_outputs;
pub use marks::add_bads;
pub use watch::Watch;
