//! Lint's text: what is noted of a design before its first run, and how it is written.
//!
//! `specs/Notes.antt` says which notes there are, `specs/Text.antt` how they are written, and `specs/Never.antt` which
//! outputs of a circuit are never 1. `specs/Findings.antt` says what is found of a design first; the lists of accesses are
//! those of `lab_lint`. The lab's command `lint` writes it.
#![tactic(auto)]

mod findings;
mod flags;
mod never;
mod note;
mod notes;
mod places;
mod shown;
mod text;
mod uses;
mod words;

pub use findings::Findings;
pub use never::never_one;
pub use note::{Note, Use};
pub use places::{Places, places_in};
