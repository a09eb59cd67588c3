//! A board behind a lock of atomic words, with a receipt for each event.
//!
//! The lock has three words, the ticket, the number that is served and the count, and one slot with the board.
//! `specs/inner/Rule.antt` says what always holds of it: there is one legal history, and the board that is at home is
//! the one that it leaves. `specs/Plays.antt` says what each step shows, `specs/Work.antt` what is known after workers
//! have worked. `specs/inner/Notes.antt` and `specs/inner/Receipts.antt` say what workers note of a history, and
//! `specs/inner/Rooms.antt` which memory they take for that before they act.
#![tactic(auto)]

mod board;
mod call;
mod home;
mod journal;
mod lock;
mod notes;
mod plays;
mod room;
mod seat;
mod view;

pub use board::LockBoard;
pub use call::Receipt;
pub use journal::Noted;
pub use seat::LockSeat;
pub use view::{Done, Opened, Part, Stage, View};

#[cfg(test)]
mod tests;
