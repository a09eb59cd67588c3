//! A seat's part of the count of stored attempts.

ghost use Rattle.std.specs.Prelude.{◌≡◌, ◌+◌, ◌<◌, ◌≤◌};

use std::sync::ledger::{Ledger, Share};

/// How many of a board's attempts were stored with it. It has some parts of the board's ledger, at least one.
#[derive(Drop)]
pub struct SeatCount<L: Ledger> {
    pub(crate) share: Share<L>,
    pub(crate) amount: u64,
    ghost counted: { share.amount ≡ amount },
    ghost some: { 1 ≤ share.parts },
}

impl<L: Ledger> SeatCount<L> {
    /// Gives away one part, with which nothing was stored.
    pub fn split(&mut self) -> SeatCount<L>
        requires { 1 < self.old.share.parts }
        ensures amount { self.new.amount ≡ self.old.amount }
        ensures parts { self.new.share.parts + 1 ≡ self.old.share.parts }
        ensures new_amount { result.amount ≡ 0 }
        ensures new_parts { result.share.parts ≡ 1 }
    {
        let share = self.share.split_off(1, 0);
        SeatCount { share, amount: 0 }
    }

    /// The number of attempts.
    pub fn amount(&self) -> u64
        ensures { result ≡ self.now.amount }
    {
        self.amount
    }
}
