//! Lint: which accesses of a rule's body may be refused, and which rules may fire before which, before the first run.
//! The lab's command `lint` writes what is found, by `lint_text`.
//!
//! `specs/Occurrences.antt` says what occurs in the body of a rule and in which order, `specs/Refusals.antt` which accesses
//! may be refused, `specs/Order.antt` which rules may fire before which, and `specs/Rules.antt` which rules may be refused at
//! all. `specs/Laws.antt` says that the lists are complete: each refusal of each trial is in them.
#![tactic(auto)]

mod body;
mod laws;
mod made;
mod meeting;
mod occurrence;
mod order;

pub use body::{all_occurrences, occurrences};
pub use laws::{others_are_watched, refusals_are_listed};
pub use made::{clashed, clashing, made_accesses, own_writes};
pub use occurrence::Occurrence;
pub use order::{is_scheduled, may_be_untried, preceded};
