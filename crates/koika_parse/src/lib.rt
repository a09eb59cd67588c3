//! From the tokens of a design to its tree.
//!
//! What tokens a tree stands for and which trees are the grammar's is in `koika_syntax`;
//! `specs/inner/Reading.antt` says what a reader of a part has read, and `specs/Laws.antt` what holds of each text.
//! `koika_top` calls `parse`.
#![tactic(auto, using(crate::proofs::Reading::reading))]

mod constants;
mod cursor;
mod declarations;
mod expressions;
mod laws;
mod parser;
mod primaries;
mod scheduler;
mod source;
mod stop;
mod tokens;
mod types;

pub use laws::{
    a_design_has_no_fault, a_text_has_one_fault, each_text_is_parsed,
    tokens_are_derived_by_one_tree, trees_of_the_same_tokens_differ_in_places_alone,
    what_is_printed_is_read_again,
};
pub use parser::parse;
