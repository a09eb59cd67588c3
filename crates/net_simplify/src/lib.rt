//! Circuits made simpler: the same run and the same names, by a net that is tidy.
//!
//! `circuit_eval` says when a circuit is tidy, and `specs/Kept.antt` what stays as it was. `specs/inner/Identities.antt`,
//! `Forms.antt` and `Passes.antt` beside it say what single operators and whole nets are made to be, and serve
//! private functions alone. `koika_top` calls `simplify` between `net_sched` and `btor2_net`.
#![tactic(auto)]

mod choices;
mod circuit;
mod factors;
mod fold;
mod form;
mod identities;
mod implied;
mod known;
mod layout;
mod nodes;
mod opposites;
mod reach;
mod reduced;
mod renaming;
mod wiring;

pub use circuit::simplify;
