//! Claims of designs that hold in every run: what the lab's commands `obligation` and `certify` make of a source.
//!
//! `specs/Claims.antt` says what a source claims, and with which faults one that claims nothing is refused.
//! `specs/Certificates.antt` says which clauses are to be refuted for a claim, when a refutation of them is taken, and
//! what then holds of every run of the design. One function makes these clauses for both commands. `lab_top` calls this
//! crate.
#![tactic(auto)]

mod certificate;
mod claimed;
pub mod fault_number;
mod laws;

pub use certificate::{certified_text, obligation_text};
pub use laws::{claimed_or_refused, one_claim, some_claim};
