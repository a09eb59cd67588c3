//! From the tree of a design to its text.
//!
//! `specs/Printed.antt` says how each token is written and what comes after it; the tokens of a tree are
//! those of the grammar in `koika_syntax`. That what is printed is read again is a law of `koika_top`, which calls
//! `print` for the command `print`.
#![tactic(auto, using(crate::proofs::Printing::printing))]

mod constants;
mod declarations;
mod expressions;
mod leaves;
mod primaries;
mod printer;
mod scheduler;
mod types;

pub use printer::print;
