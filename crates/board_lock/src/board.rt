//! A board behind the lock: its workers are split off, work, and are joined.
ghost use Rattle.std.specs.Prelude.{true, ◌≡◌, ◌≤◌, ◌<◌, ℕ, [], IfOk, OnOk, OnErr, length, slice_index_or};
ghost use Rattle.std.specs.Vec.{vec_capacity};
ghost use Rattle.board_core.specs.Board.{opened};
ghost use Rattle.board_core.specs.History.{IsLegal};
ghost use Rattle.board_core.specs.Kept.{StandsFor};
ghost use Rattle.spec_worker.specs.Work.{WorksAt};
ghost use Rattle.board_lock.specs.Histories.{Leaves};
ghost use Rattle.board_lock.specs.Plays.{IsOutside, IsOwner};
ghost use Rattle.board_lock.specs.Work.{Worked};
ghost use Rattle.board_lock.specs.inner.Work.{HasWorked, IsReady, JoinedFrom, SplitBy};

use crate::lock::{Lock, Place};
use crate::seat::LockSeat;
use attempt_log::{BoardSeat, Gate, Report};
use board_core::{Board, Core};
use kw_bits::NoMemory;
use spec_worker::{Working, work_all};
use std::alloc::Global;
use std::marker::Brand;
use std::sync::Wait;
use std::thread::Threads;

/// A board behind a lock of atomic words, which its workers take in the order of their tickets.
#[derive(Drop)]
pub struct LockBoard {
    pub(crate) lock: Lock,
    pub(crate) place: Place,
    pub(crate) workers: u32,
    ghost same: { place.table_id ≡ lock.table.shared.table_id },
    ghost outside: { IsOutside place.me },
    ghost own: { IsOwner place.me.0.part },
    ghost none: { place.me.0.part.out ≡ 0 },
    ghost some: { 1 ≤ workers },
    ghost few: { workers ≤ 64 },
}

impl LockBoard {
    // A board that has seen nothing.
    pub(crate) fn open(alloc: Global, core: Core, workers: u32) -> Result<LockBoard, NoMemory>
        requires fresh { StandsFor core (opened core.opening) }
        requires some { 1 ≤ workers }
        requires most { workers ≤ 64 }
        ensures opened { IfOk result (λ b. b.place.me.0.opened ≡ core.opening) }
        ensures seen { IfOk result (λ b. b.place.me.0.seen ≡ []) }
        ensures workers { IfOk result (λ b. b.workers ≡ workers) }
    {
        let (lock, place) = Lock::new(alloc, core)?;
        Ok(LockBoard {
            lock,
            place,
            workers,
        })
    }

    // The core that exactly the history leaves that was seen.
    pub(crate) fn finish(self) -> Core
        ensures core { Leaves self.place.me.0.opened self.place.me.0.seen result }
        ensures legal { IsLegal self.place.me.0.opened self.place.me.0.seen }
    {
        let LockBoard {
            lock,
            place,
            workers: _,
        } = self;
        lock.into_board(place)
    }

    /// Has each worker take its turns, side by side, and returns their reports in order of their numbers. The history
    /// that the board's seat has then seen is legal, goes on from what it had seen, and has what the workers report.
    /// After an `Err` no worker has run. The board is at the same lock after each return.
    pub fn work_all<R: Threads + Wait + Sync>(
        &mut self,
        rt: &R,
        alloc: Global,
        gate: &(dyn Gate + Sync),
        turns: u64,
    ) -> Result<Vec<Report>, NoMemory>
        ensures told { IfOk result (λ reports. Worked turns self.old.workers self.old.place.me.0 self.new.place.me.0 reports.items) }
        ensures none_ran { OnErr result (self.new.place.me ≡ self.old.place.me) }
        ensures opened { self.new.place.me.0.opened ≡ self.old.place.me.0.opened }
        ensures workers { self.new.workers ≡ self.old.workers }
        ensures table { self.new.place.table_id ≡ self.old.place.table_id }
    {
        self.run(rt, alloc, &gate, turns)
    }

    // The same with a gate of any kind.
    pub(crate) fn run<R: Threads + Wait + Sync, G: Gate + Sync>(
        &mut self,
        rt: &R,
        alloc: Global,
        gate: &G,
        turns: u64,
    ) -> Result<Vec<Report>, NoMemory>
        ensures told { IfOk result (λ reports. Worked turns self.old.workers self.old.place.me.0 self.new.place.me.0 reports.items) }
        ensures none_ran { OnErr result (self.new.place.me ≡ self.old.place.me) }
        ensures opened { self.new.place.me.0.opened ≡ self.old.place.me.0.opened }
        ensures workers { self.new.workers ≡ self.old.workers }
        ensures table { self.new.place.table_id ≡ self.old.place.table_id }
    {
        let count = self.workers as usize;
        let Ok(mut reports) = Vec::with_capacity(alloc, count) else {
            return Err(NoMemory);
        };
        let LockBoard {
            lock,
            place,
            workers,
        } = self;
        let mut seats = split_all(rt, alloc, &*lock, place, *workers)?;
        work_seats(rt, alloc, &mut seats, gate, turns);
        join_all(&*lock, place, seats, &mut reports, turns);
        lock.learn(place);
        Ok(reports)
    }
}

// Has a worker take its turns at each seat.
pub(crate) fn work_seats<S: BoardSeat + Send, G: Gate + Sync, R: Threads + Wait + Sync>(
    rt: &R,
    alloc: Global,
    seats: &mut Vec<Working<S>>,
    gate: &G,
    turns: u64,
)
    ensures count { length seats.new.items ≡ length seats.old.items }
    ensures each { (i : ℕ) (d : _) → i < length seats.old.items → WorksAt turns S.number S.origin S.setting S.asked S.given S.ended S.own (slice_index_or seats.old.items i d) (slice_index_or seats.new.items i d) }
{
    work_all(rt, alloc, seats.as_mut_slice(), gate, turns);
}

// A seat for each worker, in order of their numbers.
pub(crate) fn split_all<'a, R>(
    rt: &'a R,
    alloc: Global,
    lock: &'a Lock,
    place: &mut Place,
    workers: u32,
) -> Result<Vec<Working<LockSeat<'a, R>>>, NoMemory>
    requires table { place.old.table_id ≡ lock.now.table.shared.table_id }
    requires outside { IsOutside place.old.me }
    requires own { IsOwner place.old.me.0.part }
    requires none { place.old.me.0.part.out ≡ 0 }
    requires few { workers ≤ 64 }
    ensures same { place.new.table_id ≡ place.old.table_id }
    ensures err { OnErr result (place.new.me ≡ place.old.me) }
    ensures carried { place.new.me.1 ≡ [] }
    ensures split { OnOk result (SplitBy workers place.old.me.0 place.new.me.0) }
    ensures count { IfOk result (λ seats. length seats.items ≡ workers) }
    ensures each { IfOk result (λ seats. (i : ℕ) (d : _) → i < workers → IsReady place.old.table_id place.old.me.0.seen place.old.me.0.opened i (slice_index_or seats.items i d).seat.number (slice_index_or seats.items i d).seat.place.table_id (slice_index_or seats.items i d).seat.place.me.0) }
{
    let Ok(mut seats) = Vec::with_capacity(alloc, workers as usize) else {
        return Err(NoMemory);
    };
    for number in 0..workers {
        let part = lock.split(place);
        let seat = LockSeat::new(rt, lock, part, number);
        seats.push_reserved(Working {
            seat,
            report: Report::new(number),
        });
    }
    Ok(seats)
}

// Takes the seats back, and gives their reports in order.
fn join_all<R>(
    lock: &Lock,
    place: &mut Place,
    mut seats: Vec<Working<LockSeat<'_, R>>>,
    reports: &mut Vec<Report>,
    turns: u64,
)
    requires table { place.old.table_id ≡ lock.now.table.shared.table_id }
    requires outside { IsOutside place.old.me }
    requires own { IsOwner place.old.me.0.part }
    requires out { place.old.me.0.part.out ≡ length seats.items }
    requires top { place.old.me.0.part.top ≡ length seats.items }
    requires none { place.old.me.0.part.dones ≡ [] }
    requires each { (i : ℕ) (d : _) → i < length seats.items → HasWorked turns place.old.table_id place.old.me.0.part.was place.old.me.0.opened i (slice_index_or seats.items i d).seat.number (slice_index_or seats.items i d).seat.counts.ended (slice_index_or seats.items i d).seat.place.table_id (slice_index_or seats.items i d).seat.place.me.0 (slice_index_or seats.items i d).report }
    requires empty { reports.old.items ≡ [] }
    requires room { length seats.items ≤ vec_capacity reports.old }
    ensures same { place.new.table_id ≡ place.old.table_id }
    ensures carried { place.new.me.1 ≡ [] }
    ensures count { length reports.new.items ≡ length seats.entry.items }
    ensures joined { JoinedFrom turns 0 (length seats.entry.items) place.old.me.0 place.new.me.0 reports.new.items }
{
    let _turns = turns;
    while let Some(Working { seat, report }) = seats.pop() {
        lock.join::<Brand>(place, seat.into_place());
        reports.push_reserved(report);
    }
    reports.reverse();
}

impl Board for LockBoard {
    ghost use Rattle.std.specs.Prelude.{true, ◌≡◌};
    ghost use Rattle.board_lock.specs.Work.{Worked};

    ghost tells = { true };

    ghost opening = { λ b. b.place.me.0.opened };

    ghost has_worked = { λ turns v w reports. Worked turns v.workers v.place.me.0 w.place.me.0 reports × (w.workers ≡ v.workers) × (w.place.table_id ≡ v.place.table_id) };

    ghost is_untouched = { λ v w. (w.place.me ≡ v.place.me) × (w.workers ≡ v.workers) × (w.place.table_id ≡ v.place.table_id) };

    fn begin(alloc: Global, core: Core, workers: u32) -> Result<LockBoard, NoMemory>
        requires new { StandsFor core (opened core.opening) }
        requires some { 1 ≤ workers }
        requires most { workers ≤ 64 }
        ensures tells { true ≡ true → IfOk result (λ b. b.place.me.0.opened ≡ core.opening) }
        ensures seen { IfOk result (λ b. b.place.me.0.seen ≡ []) }
        ensures workers { IfOk result (λ b. b.workers ≡ workers) }
    {
        LockBoard::open(alloc, core, workers)
    }

    // What `LockBoard::work_all` says, by the trait's meanings: a clause of its own can't be stated here.
    fn work_all<R: Threads + Wait + Sync>(
        &mut self,
        rt: &R,
        alloc: Global,
        gate: &(dyn Gate + Sync),
        turns: u64,
    ) -> Result<Vec<Report>, NoMemory> {
        LockBoard::work_all(self, rt, alloc, gate, turns)
    }

    // The core that exactly the history leaves that the board's seat has seen.
    fn close(self) -> Core
        ensures tells { true ≡ true → result.opening ≡ self.place.me.0.opened }
        ensures core { Leaves self.place.me.0.opened self.place.me.0.seen result }
        ensures legal { IsLegal self.place.me.0.opened self.place.me.0.seen }
    {
        self.finish()
    }
}
