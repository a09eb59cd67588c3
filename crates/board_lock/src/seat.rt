//! A worker's seat at a board behind the lock.
ghost use Rattle.std.specs.Prelude.{◌≡◌, ◌<◌, ◌-◌, ◌%◌, ◌^◌, true, [], ◌∷◌, None, Some, List, length, IfOk, IfSome, OnErr};
ghost use Rattle.kw_bits.specs.Faults.{one_more};
ghost use Rattle.atomic_table.specs.Seated.{TableId};
ghost use Rattle.attempt_log.specs.declared.entry.Entry.{Entry};
ghost use Rattle.attempt_log.specs.Entries.{settle_entry, submit_entry};
ghost use Rattle.attempt_log.specs.Seats.{Grown, HandsBack, IfJob, SeesLast, SeesMore, gives_job, has_finished, is_finished, last_task, one_more_if};
ghost use Rattle.attempt_log.specs.Setting.{FitsItself, IsFor, attempt_of, task_of};
ghost use Rattle.board_core.specs.Board.{Opening, setting_of};
ghost use Rattle.board_core.specs.Candidates.{Chooses};
ghost use Rattle.board_core.specs.History.{IsLegal, board_after};
ghost use Rattle.board_lock.specs.Histories.{IsPast, StartsWith};
ghost use Rattle.board_lock.specs.Plays.{IsOutside, IsWorker, Made, Mine, OwnSince};

use crate::call::Receipt;
use crate::lock::{Lock, Place};
use attempt_log::{Attempt, BoardSeat, Counts, JobAnswer, Settled, Submitted};
use kw_bits::NoMemory;
use std::marker::Brand;
use std::snapshot::Snapshot;
use std::sync::Wait;

/// A worker's seat at a board. It knows a history of the board, which begins with what it had seen at its start; after
/// `job`, and after `submit` and `settle` of its own, that history is legal. Its own entries are those of its number
/// after its start, in order, each once.
#[derive(Drop)]
pub struct LockSeat<'a, R> {
    pub(crate) rt: &'a R,
    pub(crate) lock: &'a Lock,
    pub(crate) place: Place,
    pub(crate) number: u32,
    pub(crate) counts: Counts,
    ghost same: { place.table_id ≡ lock.now.table.shared.table_id },
    ghost outside: { IsOutside place.me },
    ghost numbered: { place.me.0.part.worker ≡ number },
    ghost working: { IsWorker place.me.0.part },
    ghost mine: { Mine place.me.0.part place.me.0.seen },
    ghost since: { OwnSince place.me.0.part place.me.0.seen },
    ghost finished: { 0 < counts.ended → IsPast place.me.0.opened place.me.0.seen },
}

impl<'a, R> LockSeat<'a, R> {
    pub(crate) fn new(rt: &'a R, lock: &'a Lock, place: Place, number: u32) -> LockSeat<'a, R>
        requires table { place.table_id ≡ lock.now.table.shared.table_id }
        requires outside { IsOutside place.me }
        requires working { IsWorker place.me.0.part }
        requires mine { Mine place.me.0.part place.me.0.seen }
        requires begun { place.me.0.part.base ≡ place.me.0.seen }
        requires number { place.me.0.part.worker ≡ number }
        ensures place { result.place ≡ place }
        ensures number { result.number ≡ number }
        ensures task { result.counts.task ≡ None }
    {
        LockSeat {
            rt,
            lock,
            place,
            number,
            counts: Counts::new(),
        }
    }

    // The place at the table.
    pub(crate) fn into_place(self) -> Place
        ensures place { result ≡ self.entry.place }
        ensures outside { IsOutside result.me }
        ensures working { IsWorker result.me.0.part }
        ensures mine { Mine result.me.0.part result.me.0.seen }
        ensures number { result.me.0.part.worker ≡ self.entry.number }
    {
        self.place
    }

    // Counts a job with this answer.
    pub(crate) fn count(&mut self, answer: &Result<JobAnswer, NoMemory>)
        requires { IfOk answer.now (λ told. has_finished told ≡ true → IsPast self.old.place.me.0.opened self.old.place.me.0.seen) }
        ensures place { self.new.place ≡ self.old.place }
        ensures number { self.new.number ≡ self.old.number }
        ensures task { IfOk answer.now (λ told. self.new.counts.task ≡ last_task self.old.counts.task told) }
        ensures same_task { OnErr answer.now (self.new.counts.task ≡ self.old.counts.task) }
        ensures asked { self.new.counts.asked ≡ one_more self.old.counts.asked }
        ensures given { IfOk answer.now (λ told. self.new.counts.given ≡ one_more_if (gives_job told) self.old.counts.given) }
        ensures none_given { OnErr answer.now (self.new.counts.given ≡ self.old.counts.given) }
        ensures ended { IfOk answer.now (λ told. self.new.counts.ended ≡ one_more_if (has_finished told) self.old.counts.ended) }
        ensures none_ended { OnErr answer.now (self.new.counts.ended ≡ self.old.counts.ended) }
    {
        self.counts.count(answer);
    }

    // Counts a job that it had no memory to ask for.
    pub(crate) fn count_none(&mut self)
        ensures place { self.new.place ≡ self.old.place }
        ensures number { self.new.number ≡ self.old.number }
        ensures task { self.new.counts.task ≡ self.old.counts.task }
        ensures asked { self.new.counts.asked ≡ one_more self.old.counts.asked }
        ensures given { self.new.counts.given ≡ self.old.counts.given }
        ensures ended { self.new.counts.ended ≡ self.old.counts.ended }
    {
        self.count(&Err(NoMemory));
    }
}

impl<'a, R: Wait> LockSeat<'a, R> {
    // A job of the board. What is then seen begins with what was seen, is legal, and leaves the board that gave the
    // answer. No entry is added.
    pub(crate) fn ask(&mut self, pick: u64) -> Result<JobAnswer, NoMemory>
        ensures answer { let v = self.new.place.me.0 in IfOk result (Chooses v.opened (board_after v.opened v.seen) pick) }
        ensures prefix { StartsWith self.new.place.me.0.seen self.old.place.me.0.seen }
        ensures legal { IsLegal self.new.place.me.0.opened self.new.place.me.0.seen }
        ensures fits { IfOk result (λ told. IfJob told FitsItself) }
        ensures is_for { IfOk result (λ told. IfJob told (λ job. IsFor (setting_of self.old.place.me.0.opened) (attempt_of job))) }
        ensures task { IfOk result (λ told. self.new.counts.task ≡ last_task self.old.counts.task told) }
        ensures same_task { OnErr result (self.new.counts.task ≡ self.old.counts.task) }
        ensures asked { self.new.counts.asked ≡ one_more self.old.counts.asked }
        ensures given { IfOk result (λ told. self.new.counts.given ≡ one_more_if (gives_job told) self.old.counts.given) }
        ensures none_given { OnErr result (self.new.counts.given ≡ self.old.counts.given) }
        ensures ended { IfOk result (λ told. self.new.counts.ended ≡ one_more_if (has_finished told) self.old.counts.ended) }
        ensures none_ended { OnErr result (self.new.counts.ended ≡ self.old.counts.ended) }
        ensures same { self.new.place.table_id ≡ self.old.place.table_id }
        ensures number { self.new.number ≡ self.old.number }
        ensures part { self.new.place.me.0.part ≡ self.old.place.me.0.part }
        ensures opened { self.new.place.me.0.opened ≡ self.old.place.me.0.opened }
    {
        let answer = self.look(pick);
        self.count(&answer);
        answer
    }

    // The same without a count.
    pub(crate) fn look(&mut self, pick: u64) -> Result<JobAnswer, NoMemory>
        ensures answer { let v = self.new.place.me.0 in IfOk result (Chooses v.opened (board_after v.opened v.seen) pick) }
        ensures prefix { StartsWith self.new.place.me.0.seen self.old.place.me.0.seen }
        ensures legal { IsLegal self.new.place.me.0.opened self.new.place.me.0.seen }
        ensures fits { IfOk result (λ told. IfJob told FitsItself) }
        ensures is_for { IfOk result (λ told. IfJob told (λ job. IsFor (setting_of self.old.place.me.0.opened) (attempt_of job))) }
        ensures kept { self.new.counts ≡ self.old.counts }
        ensures same { self.new.place.table_id ≡ self.old.place.table_id }
        ensures number { self.new.number ≡ self.old.number }
        ensures part { self.new.place.me.0.part ≡ self.old.place.me.0.part }
        ensures opened { self.new.place.me.0.opened ≡ self.old.place.me.0.opened }
    {
        let board = self.lock.enter(self.rt, &mut self.place);
        let answer = board.job(pick);
        self.lock.leave_seen(&mut self.place, board);
        answer
    }

    /// Submits an attempt for the board's design and the stimulus's inputs. The history that is then seen is what was
    /// seen before, then entries of others, and last this event with its answer, which is one more of the seat's own.
    /// The receipt has its place. An attempt that isn't stored is handed back.
    pub fn submit(&mut self, attempt: Attempt) -> (Submitted, Receipt)
        requires { IsFor (setting_of self.old.place.me.0.opened) attempt }
        ensures made { Made self.old.place.me (submit_entry self.old.number attempt result.0) self.new.place.me }
        ensures handed_back { HandsBack attempt result.0 }
        ensures worker { result.1.worker ≡ self.old.number }
        ensures place { result.1.place ≡ (length self.new.place.me.0.seen - 1) % 2 ^ 64 }
        ensures same { self.new.place.table_id ≡ self.old.place.table_id }
        ensures number { self.new.number ≡ self.old.number }
        ensures kept { self.new.counts ≡ self.old.counts }
    {
        attempt.recall();
        let said = Snapshot::of(&attempt);
        let mut board = self.lock.enter(self.rt, &mut self.place);
        let answer = board.submit(attempt);
        let place = self.lock.add::<Brand>(&mut self.place, &said, &answer);
        self.lock.leave(&mut self.place, board);
        let worker = self.number;
        (answer, Receipt { worker, place })
    }

    /// Settles the head of the board. What is then seen, and the receipt, are as for `submit`. An answer that the board
    /// has finished is counted.
    pub fn settle(&mut self) -> (Settled, Receipt)
        ensures made { Made self.old.place.me (settle_entry self.old.number result.0) self.new.place.me }
        ensures worker { result.1.worker ≡ self.old.number }
        ensures place { result.1.place ≡ (length self.new.place.me.0.seen - 1) % 2 ^ 64 }
        ensures same { self.new.place.table_id ≡ self.old.place.table_id }
        ensures number { self.new.number ≡ self.old.number }
        ensures task { self.new.counts.task ≡ self.old.counts.task }
        ensures asked { self.new.counts.asked ≡ self.old.counts.asked }
        ensures given { self.new.counts.given ≡ self.old.counts.given }
        ensures ended { self.new.counts.ended ≡ one_more_if (is_finished result.0) self.old.counts.ended }
    {
        let mut board = self.lock.enter(self.rt, &mut self.place);
        let answer = board.settle();
        let place = self.lock.add_settle::<Brand>(&mut self.place, &answer);
        self.lock.leave(&mut self.place, board);
        self.counts.count_settle(&answer);
        let worker = self.number;
        (answer, Receipt { worker, place })
    }
}

impl<'a, R: Wait> BoardSeat for LockSeat<'a, R> {
    ghost use Rattle.std.specs.Prelude.{Some, List};
    ghost use Rattle.atomic_table.specs.Seated.{TableId};
    ghost use Rattle.attempt_log.specs.declared.entry.Entry.{Entry};
    ghost use Rattle.board_core.specs.Board.{Opening, setting_of};

    ghost Origin = { TableId × List Entry × Opening };

    ghost origin = { λ s. (s.place.table_id, s.place.me.0.part.base, s.place.me.0.opened) };

    ghost number = { λ s. s.number };

    ghost setting = { λ s. Some (setting_of s.place.me.0.opened) };

    ghost task = { λ s. s.counts.task };

    ghost asked = { λ s. s.counts.asked };

    ghost given = { λ s. s.counts.given };

    ghost ended = { λ s. s.counts.ended };

    ghost seen = { λ s. Some s.place.me.0.seen };

    ghost own = { λ s. Some s.place.me.0.part.own };

    // Besides what the trait says: what is then seen begins with what was seen and is legal, and the answer is the
    // choice of candidates on the board that it leaves.
    fn job(&mut self, pick: u64) -> Result<JobAnswer, NoMemory>
        ensures fits { IfOk result (λ told. IfJob told FitsItself) }
        ensures is_for { IfSome (Some (setting_of self.old.place.me.0.opened)) (λ s. IfOk result (λ told. IfJob told (λ job. IsFor s (attempt_of job)))) }
        ensures number { self.new.number ≡ self.old.number }
        ensures origin { ◌≡◌ {A = TableId × List Entry × Opening} (self.new.place.table_id, self.new.place.me.0.part.base, self.new.place.me.0.opened) (self.old.place.table_id, self.old.place.me.0.part.base, self.old.place.me.0.opened) }
        ensures setting { Some (setting_of self.new.place.me.0.opened) ≡ Some (setting_of self.old.place.me.0.opened) }
        ensures task { IfOk result (λ told. self.new.counts.task ≡ last_task self.old.counts.task told) }
        ensures same_task { OnErr result (self.new.counts.task ≡ self.old.counts.task) }
        ensures asked { self.new.counts.asked ≡ one_more self.old.counts.asked }
        ensures given { IfOk result (λ told. self.new.counts.given ≡ one_more_if (gives_job told) self.old.counts.given) }
        ensures none_given { OnErr result (self.new.counts.given ≡ self.old.counts.given) }
        ensures ended { IfOk result (λ told. self.new.counts.ended ≡ one_more_if (has_finished told) self.old.counts.ended) }
        ensures none_ended { OnErr result (self.new.counts.ended ≡ self.old.counts.ended) }
        ensures seen { SeesMore (Some self.old.place.me.0.seen) (Some self.new.place.me.0.seen) }
        ensures own { Some self.new.place.me.0.part.own ≡ Some self.old.place.me.0.part.own }
        ensures answer { let v = self.new.place.me.0 in IfOk result (Chooses v.opened (board_after v.opened v.seen) pick) }
        ensures prefix { StartsWith self.new.place.me.0.seen self.old.place.me.0.seen }
        ensures legal { IsLegal self.new.place.me.0.opened self.new.place.me.0.seen }
        ensures part { self.new.place.me.0.part ≡ self.old.place.me.0.part }
    {
        self.ask(pick)
    }

    // Besides what the trait says: what is then seen is legal.
    fn submit(&mut self, attempt: Attempt) -> Submitted
        requires task { self.old.counts.task ≡ Some (task_of attempt) }
        requires is_for { IfSome (Some (setting_of self.old.place.me.0.opened)) (λ s. IsFor s attempt) }
        ensures number { self.new.number ≡ self.old.number }
        ensures origin { ◌≡◌ {A = TableId × List Entry × Opening} (self.new.place.table_id, self.new.place.me.0.part.base, self.new.place.me.0.opened) (self.old.place.table_id, self.old.place.me.0.part.base, self.old.place.me.0.opened) }
        ensures setting { Some (setting_of self.new.place.me.0.opened) ≡ Some (setting_of self.old.place.me.0.opened) }
        ensures task { self.new.counts.task ≡ self.old.counts.task }
        ensures asked { self.new.counts.asked ≡ self.old.counts.asked }
        ensures given { self.new.counts.given ≡ self.old.counts.given }
        ensures ended { self.new.counts.ended ≡ self.old.counts.ended }
        ensures handed_back { HandsBack attempt result }
        ensures seen { SeesLast (Some self.old.place.me.0.seen) (submit_entry self.old.number attempt result) (Some self.new.place.me.0.seen) }
        ensures own { Grown (Some self.old.place.me.0.part.own) (submit_entry self.old.number attempt result ∷ []) (Some self.new.place.me.0.part.own) }
        ensures legal { IsLegal self.new.place.me.0.opened self.new.place.me.0.seen }
    {
        LockSeat::submit(self, attempt).0
    }

    // As for `submit`.
    fn settle(&mut self) -> Settled
        ensures number { self.new.number ≡ self.old.number }
        ensures origin { ◌≡◌ {A = TableId × List Entry × Opening} (self.new.place.table_id, self.new.place.me.0.part.base, self.new.place.me.0.opened) (self.old.place.table_id, self.old.place.me.0.part.base, self.old.place.me.0.opened) }
        ensures setting { Some (setting_of self.new.place.me.0.opened) ≡ Some (setting_of self.old.place.me.0.opened) }
        ensures task { self.new.counts.task ≡ self.old.counts.task }
        ensures asked { self.new.counts.asked ≡ self.old.counts.asked }
        ensures given { self.new.counts.given ≡ self.old.counts.given }
        ensures ended { self.new.counts.ended ≡ one_more_if (is_finished result) self.old.counts.ended }
        ensures seen { SeesLast (Some self.old.place.me.0.seen) (settle_entry self.old.number result) (Some self.new.place.me.0.seen) }
        ensures own { Grown (Some self.old.place.me.0.part.own) (settle_entry self.old.number result ∷ []) (Some self.new.place.me.0.part.own) }
        ensures legal { IsLegal self.new.place.me.0.opened self.new.place.me.0.seen }
    {
        LockSeat::settle(self).0
    }

    fn worker(&self) -> u32 {
        self.counts.are_counts();
        self.number
    }
}
