//! BTOR2 files as circuits, and circuits as BTOR2 files.
//!
//! Contracts cite `specs/Translations.antt`, which says when a circuit is that of a text: names and widths in order, and one
//! run, `specs/Layout.antt`, how the lines of a circuit are laid out, `specs/TidyLines.antt`, when lines are tidy, and
//! `specs/Pages.antt`, which lines a circuit is written as. `koika_top` calls `to_lines` for the text that a design is
//! compiled to, and `to_circuit` for the circuit of a text that it runs.
#![tactic(auto)]

mod circuit;
mod form;
mod keywords;
mod laws;
mod lines;
mod name;
mod nodes;
mod operators;
mod page;
mod settings;
mod wires;

pub use circuit::to_circuit;
pub use laws::a_text_has_few_lines;
pub use lines::to_lines;
