//! Accepted BTOR2 files, and their run.
//!
//! Contracts cite what each form asks for in `specs/Rules.antt`, what lines declare for later ones in
//! `specs/Scope.antt`, and which texts are accepted, with the first fault of the others, in `specs/Acceptance.antt`.
//! The run of an accepted text is `specs/Run.antt`. `koika_top` and `koika_assert` call `accept`; `btor2_net` makes
//! circuits of accepted texts.
#![tactic(auto)]

mod acceptance;
mod arguments;
mod btor;
mod known;
mod known_values;
mod line_values;
mod meaning;
mod numeral;
mod operators;
mod refusal;
mod rows;
mod rule;
mod states;
mod table;

pub use acceptance::accept;
pub use arguments::{digits_at, id_at, number_at};
pub use btor::Btor;
pub use meaning::{IdMeaning, Role};
pub use operators::{named_constant, written_constant};
pub use rows::slow_run;
pub use rule::{FormRule, Measures};
pub use table::Table;
