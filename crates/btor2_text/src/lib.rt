//! BTOR2 texts: lines of the forms that this project reads and writes.
//!
//! Contracts cite how a text is cut in `specs/Cut.antt`, the table of forms in `specs/Forms.antt`, which line a row
//! of tokens is in `specs/Lines.antt`, what reading a whole text gives in `specs/Reading.antt`, and what printing
//! writes in `specs/Printing.antt`. `koika_top` reads texts by `read_lines` and prints them by `print_lines`;
//! `btor2_model`, `btor2_net` and `koika_assert` take and make lines.
#![tactic(auto)]

mod argument;
mod cut;
mod keyword;
mod kind;
mod laws;
mod line;
mod numeral;
mod print;
mod reader;

pub use keyword::Keyword;
pub use kind::{ArgumentKind, Base};
pub use laws::{a_text_has_lines_or_a_fault, a_text_is_read_in_one_way};
pub use line::{Argument, Line, Lines};
pub use print::print_lines;
pub use reader::read_lines;
