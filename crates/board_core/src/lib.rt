//! The board: attempts are taken in any order and settled one at a time, in scheduler order.
//!
//! `specs/Board.antt` is the board step that the contracts of `Core` cite, and `specs/Position.antt` says at what plain
//! positions a core stands. `Board` is a kind of board that workers in threads share, round a core. `cycle_driver` has
//! workers run at one, and `library_tests` tests cores by themselves.
#![tactic(auto)]

mod blank;
mod board;
mod boards;
mod candidate;
mod counted;
mod event;
mod kept;
mod laws;
mod place;
mod waiting;

pub use board::Core;
pub use boards::Board;
pub use event::{BoardAnswer, BoardEvent};
pub use kept::{MAX_CYCLES, MAX_WINDOW};
pub use laws::{
    a_board_past_its_end_has_the_run, a_board_that_goes_on_has_less_left, a_head_is_never_stale,
    a_head_settles_by_its_job, a_history_is_legal_by_its_traces_and_answers,
    a_legal_history_goes_on, a_legal_history_leaves_a_plain_board,
    a_settled_rule_is_told_by_its_firing, every_list_of_events_keeps_a_plain_position,
    refusals_exclude_one_another,
};
