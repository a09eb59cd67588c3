//! Journals: what the workers did and what the board answered, as text and back.
//!
//! `specs/Journals.antt` says which lines a journal has, `specs/Printing.antt` the text of each, and
//! `specs/Fitting.antt` which lines fit a design. `specs/Reading.antt` says what a text gives: the journal whose lines
//! fit and are printed as the text's are, or the fault of the first line of which there is none. The reader finds a
//! candidate for a line by its tokens (`specs/Tokens.antt`), prints it and compares. `laws` says that a text is one
//! journal at most. `specs/Checking.antt` says which journals are good, and which fault is the first of one that isn't:
//! `recheck` looks at the histories alone. `koika_top` writes journals and rechecks them, and the lab writes the words of its
//! lines by those of `words`.
#![tactic(auto)]

mod access;
mod answer;
mod batches;
mod checking_laws;
mod count;
mod entry;
mod head;
mod journal;
mod laws;
mod line;
mod names;
mod number;
mod print;
mod reader;
mod replay;
mod token;
mod words;

pub use batches::{last_regs, recheck};
pub use checking_laws::{
    a_journal_has_one_answer, a_journal_that_was_read_may_be_rechecked,
    twins_have_the_same_journals,
};
pub use count::line_after;
pub use journal::{Batch, Journal};
pub use laws::{
    a_line_is_read_in_one_way, a_text_is_one_journal_or_malformed, digits_are_read_back,
    what_is_printed_is_cut_into_lines, what_was_read_fits, what_was_read_is_printed_back,
};
pub use names::position_of_rule;
pub use print::{print_batch, print_begin, print_journal};
pub use reader::read_journal;
pub use words::{
    name_of, push_access, push_cause, push_events, push_number, push_token, push_value,
};
