//! Invariants of bit-level circuits, and obligations: clauses that can't be satisfied exactly where each step keeps an
//! invariant and no claimed output is 1 under it.
//!
//! `specs/Invariants.antt` says which invariant a text gives, and which fault is its first. `specs/Obligations.antt`
//! has the clauses of an obligation, `specs/Texts.antt` its text. What an obligation says of a circuit's step, and what
//! follows of all its runs where no assignment satisfies it, is in `specs/Kept.antt`. The program's commands
//! `obligation` and `certify` call this crate.
#![tactic(auto)]

mod bits;
mod certificate;
mod cone;
mod draft;
pub mod fault_number;
mod laws;
mod obligations;
mod read;
mod text;

pub use certificate::certify;
pub use laws::a_kept_invariant_holds_in_every_run;
pub use obligations::obligation;
pub use read::read_invariant;
pub use text::push_obligation;
