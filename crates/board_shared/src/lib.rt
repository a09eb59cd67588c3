//! A board behind a plain lock, which several workers share. Each has a count of the attempts that were stored with it,
//! and the counts add up to the board's number.
//!
//! A lock tells nothing of what is behind it, so what a call does to the board is stated on `Locked`. No command uses
//! such a board.
#![tactic(auto)]

mod answer;
mod count;
mod locked;
mod shared;

pub use answer::SharedSubmitted;
pub use count::SeatCount;
pub use locked::Locked;
pub use shared::{SharedBoard, SharedSeat};

#[cfg(test)]
mod tests;
