//! What the mutex guards: the board, and the total of stored attempts.

ghost use Rattle.std.specs.Prelude.{◌≡◌, ◌+◌, ◌<◌, ◌≤◌, ◌↔◌, ◌⊎◌, true, false, IsTrue, IfOk};
ghost use Rattle.attempt_log.specs.Entries.{goes_on};
ghost use Rattle.attempt_log.specs.Seats.{IfJob};
ghost use Rattle.attempt_log.specs.Setting.{FitsItself, IsFor, attempt_of};
ghost use Rattle.board_core.specs.Board.{Board, setting_of, settle, submit};
ghost use Rattle.board_core.specs.Candidates.{Chooses};
ghost use Rattle.board_core.specs.Kept.{AtPlain, Does, StandsFor, is_still, left};
ghost use Rattle.board_core.specs.Laws.{TellsFiring};
ghost use Rattle.board_core.specs.Position.{IsPlain};
ghost use Rattle.board_core.specs.declared.event.BoardAnswer.TheVariants as answer;
ghost use Rattle.board_shared.specs.Answer.{HandsBack, IfByCore, is_full, is_stranger, stored_in};
ghost use Rattle.board_shared.specs.declared.answer.SharedSubmitted.TheVariants as shared;

use crate::answer::SharedSubmitted;
use crate::count::SeatCount;
use attempt_log::{Attempt, JobAnswer, Settled, Submitted};
use board_core::Core;
use kw_bits::NoMemory;
use std::sync::ledger::{Blank, Book, Ledger, Share};

/// What is behind the lock: a core, which stands at a plain position by its type, and how many attempts were stored.
#[derive(Drop)]
pub struct Locked<L: Ledger> {
    pub(crate) core: Core,
    pub(crate) limit: u64,
    pub(crate) stored: u64,
    pub(crate) book: Book<L>,
    // No part of the ledger, for counts to be put to.
    pub(crate) none: Share<L>,
    ghost counted: { stored ≡ book.total },
    ghost within: { stored ≤ limit },
    ghost no_part: { none.parts ≡ 0 },
}

impl<L: Ledger> Locked<L> {
    // With which nothing was stored yet, and a count with all parts of its ledger.
    pub(crate) fn new(blank: Blank, core: Core, limit: u64) -> (Locked<L>, SeatCount<L>)
        requires name { blank.name ≡ L.name }
        requires parts { blank.parts ≡ L.parts }
        requires some { 1 ≤ blank.parts }
        ensures core { result.0.core ≡ core }
        ensures limit { result.0.limit ≡ limit }
        ensures stored { result.0.stored ≡ 0 }
        ensures amount { result.1.amount ≡ 0 }
        ensures parts { result.1.share.parts ≡ L.parts }
    {
        let (book, mut share) = blank.open::<L>();
        let none = share.empty();
        let locked = Locked {
            core,
            limit,
            stored: 0,
            book,
            none,
        };
        (locked, SeatCount { share, amount: 0 })
    }

    /// The job that the core gives for this pick.
    pub fn job(&self, pick: u64) -> Result<JobAnswer, NoMemory>
        ensures chooses { IfOk result (λ told. (board : Board) → StandsFor self.now.core board → Chooses self.now.core.opening board pick told) }
        ensures fits { IfOk result (λ told. IfJob told FitsItself) }
        ensures is_for { IfOk result (λ told. IfJob told (λ job. IsFor (setting_of self.now.core.opening) (attempt_of job))) }
        ensures plain { AtPlain self.now.core }
    {
        self.core.job(pick)
    }

    /// Has the core take an attempt, where it is for the core's design and stimulus and fewer than `limit` were stored.
    /// Only `Stored` raises the number of those that were stored and that of the count, by one each.
    pub fn submit(&mut self, count: &mut SeatCount<L>, attempt: Attempt) -> SharedSubmitted
        ensures stranger { is_stranger result ≡ false ↔ IsFor (setting_of self.old.core.opening) attempt }
        ensures full { is_full result ≡ true ↔ (IsFor (setting_of self.old.core.opening) attempt × (self.old.stored ≡ self.old.limit)) }
        ensures step { IfByCore result (λ told. Does (λ o board. submit o board attempt) self.old.core (answer.Submit told) self.new.core) }
        ensures opening { self.new.core.opening ≡ self.old.core.opening }
        ensures refused { (result ≡ shared.Stored) ⊎ (self.new.core ≡ self.old.core) }
        ensures handed_back { HandsBack attempt result }
        ensures left { left self.new.core ≡ left self.old.core }
        ensures plain { AtPlain self.new.core }
        ensures stored { self.new.stored ≡ self.old.stored + stored_in result }
        ensures limit { self.new.limit ≡ self.old.limit }
        ensures amount { count.new.amount ≡ count.old.amount + stored_in result }
        ensures parts { count.new.share.parts ≡ count.old.share.parts }
    {
        self.core.rows();
        if !is_for(&self.core, &attempt) {
            return SharedSubmitted::Stranger(attempt);
        }
        if self.stored == self.limit {
            return SharedSubmitted::Full(attempt);
        }
        match self.core.submit(attempt) {
            Submitted::Stored => {
                self.count_one(count);
                SharedSubmitted::Stored
            }
            Submitted::Late(attempt) => SharedSubmitted::Late(attempt),
            Submitted::Ahead(attempt) => SharedSubmitted::Ahead(attempt),
            Submitted::Twice(attempt) => SharedSubmitted::Twice(attempt),
        }
    }

    // Counts an attempt that was stored.
    fn count_one(&mut self, count: &mut SeatCount<L>)
        requires { self.old.stored < self.old.limit }
        ensures core { self.new.core ≡ self.old.core }
        ensures stored { self.new.stored ≡ self.old.stored + 1 }
        ensures limit { self.new.limit ≡ self.old.limit }
        ensures amount { count.new.amount ≡ count.old.amount + 1 }
        ensures parts { count.new.share.parts ≡ count.old.share.parts }
    {
        let Locked { stored, book, .. } = self;
        let SeatCount { share, amount } = count;
        book.audit(share);
        book.add(share, 1);
        *stored += 1;
        *amount += 1;
    }

    /// Has the core settle its head, or close the cycle.
    pub fn settle(&mut self) -> Settled
        ensures step { Does settle self.old.core (answer.Settle result) self.new.core }
        ensures opening { self.new.core.opening ≡ self.old.core.opening }
        ensures unchanged { is_still result ≡ true → self.new.core ≡ self.old.core }
        ensures less { goes_on result ≡ true → left self.new.core < left self.old.core }
        ensures left { goes_on result ≡ false → left self.new.core ≡ left self.old.core }
        ensures plain { AtPlain self.new.core }
        ensures fires { (board : Board) → StandsFor self.old.core board → IsPlain self.old.core.opening board → TellsFiring self.old.core.opening board result }
        ensures stored { self.new.stored ≡ self.old.stored }
        ensures limit { self.new.limit ≡ self.old.limit }
    {
        self.core.settle()
    }
}

// Whether the attempt is for the core's design, by value, and on the stimulus's inputs for its cycle.
fn is_for(core: &Core, attempt: &Attempt) -> bool
    ensures { IsTrue result ↔ IsFor (setting_of core.now.opening) attempt.now }
{
    attempt.design().same(core.design())
        && core.stimulus().agrees(attempt.cycle(), attempt.inputs())
}
