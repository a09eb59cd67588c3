//! The shared board and its seats.

ghost use Rattle.std.specs.Prelude.{◌≡◌, ◌+◌, ◌≤◌, IfOk, sum_by};
ghost use Rattle.attempt_log.specs.Seats.{IfJob};
ghost use Rattle.attempt_log.specs.Setting.{FitsItself};
ghost use Rattle.board_core.specs.Kept.{AtPlain};
ghost use Rattle.board_shared.specs.Answer.{HandsBack, stored_in};

use crate::answer::SharedSubmitted;
use crate::count::SeatCount;
use crate::locked::Locked;
use attempt_log::{Attempt, JobAnswer, Settled};
use board_core::Core;
use kw_bits::NoMemory;
use std::sync::ledger::{Blank, Ledger};
use std::sync::{Mutex, Wait};

/// A board behind a lock, which counts the attempts that it stores.
#[derive(Drop)]
pub struct SharedBoard<L: Ledger> {
    locked: Mutex<Locked<L>>,
}

impl<L: Ledger> SharedBoard<L> {
    /// A board round a core, which stores at most `limit` attempts, and a count with all parts of its ledger.
    pub fn new(blank: Blank, core: Core, limit: u64) -> (SharedBoard<L>, SeatCount<L>)
        requires name { blank.name ≡ L.name }
        requires parts { blank.parts ≡ L.parts }
        requires some { 1 ≤ blank.parts }
        ensures amount { result.1.amount ≡ 0 }
        ensures parts { result.1.share.parts ≡ L.parts }
    {
        let (locked, count) = Locked::new(blank, core, limit);
        let locked = Mutex::new(locked);
        (SharedBoard { locked }, count)
    }

    /// A worker's place at the board. Sitting down waits for nobody.
    pub fn seat<'a, R>(
        &'a self,
        rt: &'a R,
        worker: u32,
        count: SeatCount<L>,
    ) -> SharedSeat<'a, L, R>
        ensures worker { result.worker ≡ worker }
        ensures amount { result.count.amount ≡ count.amount }
        ensures parts { result.count.share.parts ≡ count.share.parts }
    {
        SharedSeat {
            board: self,
            rt,
            worker,
            count,
        }
    }

    /// The core, and how many attempts were stored. That number is at least the sum of these counts, and where they have
    /// all parts of the ledger, it is the sum.
    pub fn stored(self, mut counts: Vec<SeatCount<L>>) -> (Core, u64)
        ensures sum { sum_by (λ c. c.share.parts) counts.items ≡ L.parts → result.1 ≡ sum_by (λ c. c.amount) counts.items }
        ensures most { sum_by (λ c. c.amount) counts.items ≤ result.1 }
        ensures plain { AtPlain result.0 }
    {
        let Locked {
            core,
            limit: _,
            stored,
            mut book,
            mut none,
        } = self.locked.into_inner();
        core.rows();
        book.audit(&mut none);
        let mut all = none;
        while let Some(count) = counts.pop() {
            let SeatCount { share, amount: _ } = count;
            all.merge(share);
        }
        book.audit(&mut all);
        (core, stored)
    }
}

/// A worker's place at a shared board. `job`, `submit` and `settle` take the lock and make the call of `Locked` of their
/// name; the others wait for nobody.
#[derive(Drop)]
pub struct SharedSeat<'a, L: Ledger, R> {
    board: &'a SharedBoard<L>,
    rt: &'a R,
    worker: u32,
    count: SeatCount<L>,
}

impl<'a, L: Ledger, R> SharedSeat<'a, L, R> {
    /// The worker's number.
    pub fn worker(&self) -> u32
        ensures { result ≡ self.now.worker }
    {
        self.worker
    }

    /// Gives back its count.
    pub fn finish(self) -> SeatCount<L>
        ensures amount { result.amount ≡ self.entry.count.amount }
        ensures parts { result.share.parts ≡ self.entry.count.share.parts }
    {
        let SharedSeat { count, .. } = self;
        count
    }
}

impl<'a, L: Ledger, R: Wait> SharedSeat<'a, L, R> {
    /// A job for this pick, which fits its own design.
    pub fn job(&mut self, pick: u64) -> Result<JobAnswer, NoMemory>
        ensures fits { IfOk result (λ told. IfJob told FitsItself) }
        ensures worker { self.new.worker ≡ self.old.worker }
        ensures amount { self.new.count.amount ≡ self.old.count.amount }
        ensures parts { self.new.count.share.parts ≡ self.old.count.share.parts }
    {
        self.board.locked.lock(self.rt).job(pick)
    }

    /// Hands in an attempt. The amount of its count rises by one exactly where it is stored.
    pub fn submit(&mut self, attempt: Attempt) -> SharedSubmitted
        ensures handed_back { HandsBack attempt result }
        ensures worker { self.new.worker ≡ self.old.worker }
        ensures amount { self.new.count.amount ≡ self.old.count.amount + stored_in result }
        ensures parts { self.new.count.share.parts ≡ self.old.count.share.parts }
    {
        let SharedSeat {
            board,
            rt,
            count,
            ..
        } = self;
        board.locked.lock(*rt).submit(count, attempt)
    }

    /// Settles the board's head, or closes the cycle.
    pub fn settle(&mut self) -> Settled
        ensures worker { self.new.worker ≡ self.old.worker }
        ensures amount { self.new.count.amount ≡ self.old.count.amount }
        ensures parts { self.new.count.share.parts ≡ self.old.count.share.parts }
    {
        self.board.locked.lock(self.rt).settle()
    }
}
