//! Workers that note their entries, so that the whole history comes out of them.
ghost use Rattle.std.specs.Prelude.{◌≡◌, ◌⊎◌, ◌∷◌, ◌++◌, ◌+◌, ◌≤◌, ◌<◌, ◌^◌, ℕ, List, true, [], None, Some, Ok, IfOk, IfSome, IsSome, OnOk, OnErr, length, slice_index_or};
ghost use Rattle.std.specs.Arc.{arc_value};
ghost use Rattle.std.specs.Vec.{vec_capacity};
ghost use Rattle.atomic_table.specs.Seated.{TableId};
ghost use Rattle.kw_bits.specs.Faults.{one_more};
ghost use Rattle.attempt_log.specs.Attempt.{Attempted};
ghost use Rattle.attempt_log.specs.Entries.{settle_entry, submit_entry, taken_of, worker_of};
ghost use Rattle.attempt_log.specs.Seats.{Grown, HandsBack, IfJob, SeesLast, SeesMore, gives_job, has_finished, is_finished, last_task, one_more_if};
ghost use Rattle.attempt_log.specs.Setting.{FitsItself, IsFor, attempt_of, task_of};
ghost use Rattle.attempt_log.specs.declared.entry.Entry.{Entry};
ghost use Rattle.attempt_log.specs.declared.seat.Task.{Task};
ghost use Rattle.typed_core.specs.Same.{SameDesign};
ghost use Rattle.typed_core.specs.declared.design.Parts.{Parts};
ghost use Rattle.board_lock.specs.declared.room.Room.{Room};
ghost use Rattle.board_core.specs.Board.{Opening, setting_of};
ghost use Rattle.board_core.specs.Candidates.{Chooses};
ghost use Rattle.board_core.specs.History.{board_after};
ghost use Rattle.board_lock.specs.Histories.{Each, InRun, IsCycle, StartsWith};
ghost use Rattle.board_lock.specs.Plays.{IsOutside, IsOwner};
ghost use Rattle.board_lock.specs.inner.Receipts.{IsCopy, Noting, receipts};
ghost use Rattle.board_lock.specs.inner.Rooms.{FitsTask, HasRoom, IsRoom, RoomOf};
ghost use Rattle.board_lock.specs.Work.{HaveWorked, Worked};
ghost use Rattle.board_lock.specs.inner.Work.{HasWorked, IsReady, JoinedFrom, SplitBy};

use crate::board::{LockBoard, work_seats};
use crate::call::Receipt;
use crate::lock::{Lock, Place};
use crate::notes::{Note, Notes, merged};
use crate::room::{Copied, Room};
use crate::seat::LockSeat;
use attempt_log::{Attempt, BoardSeat, Entry, Gate, JobAnswer, Report, Settled, Submitted};
use kw_bits::{NoMemory, Sequence};
use spec_worker::Working;
use std::alloc::Global;
use std::marker::Brand;
use std::sync::Wait;
use std::thread::Threads;

/// A worker's seat that notes its entries.
#[derive(Drop)]
pub struct NotingSeat<'a, R> {
    seat: LockSeat<'a, R>,
    pub(crate) notes: Vec<Note>,
    // Room for the attempt at the last job, until that is submitted.
    room: Option<Room>,
    // Whether there was memory for each note.
    whole: bool,
    ghost noted: { whole ≡ true → notes.items ≡ receipts seat.number seat.place.me.0.seen },
    ghost tasked: { (t : Task) → seat.counts.task ≡ Some t → IsCycle seat.place.me.0.opened t.cycle },
    ghost in_run: { Each (InRun seat.place.me.0.opened) seat.place.me.0.part.own },
    ghost roomy: { FitsTask (setting_of seat.place.me.0.opened) seat.counts.task room },
}

impl<'a, R> NotingSeat<'a, R> {
    // A seat that has seen nothing.
    fn new(alloc: Global, seat: LockSeat<'a, R>) -> NotingSeat<'a, R>
        requires seen { seat.place.me.0.seen ≡ [] }
        requires own { seat.place.me.0.part.own ≡ [] }
        requires task { seat.counts.task ≡ None }
        ensures place { result.seat.place ≡ seat.entry.place }
        ensures number { result.seat.number ≡ seat.entry.number }
    {
        NotingSeat {
            seat,
            notes: Vec::new(alloc),
            room: None,
            whole: true,
        }
    }
}

impl<'a, R: Wait> NotingSeat<'a, R> {
    // A job of the board, where there is memory for the notes of a turn: also for what the attempt at it does.
    fn ask(&mut self, pick: u64) -> Result<JobAnswer, NoMemory>
        ensures number { self.new.seat.number ≡ self.old.seat.number }
        ensures same { self.new.seat.place.table_id ≡ self.old.seat.place.table_id }
        ensures part { self.new.seat.place.me.0.part ≡ self.old.seat.place.me.0.part }
        ensures opened { self.new.seat.place.me.0.opened ≡ self.old.seat.place.me.0.opened }
        ensures task { IfOk result (λ told. self.new.seat.counts.task ≡ last_task self.old.seat.counts.task told) }
        ensures same_task { OnErr result (self.new.seat.counts.task ≡ self.old.seat.counts.task) }
        ensures asked { self.new.seat.counts.asked ≡ one_more self.old.seat.counts.asked }
        ensures given { IfOk result (λ told. self.new.seat.counts.given ≡ one_more_if (gives_job told) self.old.seat.counts.given) }
        ensures none_given { OnErr result (self.new.seat.counts.given ≡ self.old.seat.counts.given) }
        ensures ended { IfOk result (λ told. self.new.seat.counts.ended ≡ one_more_if (has_finished told) self.old.seat.counts.ended) }
        ensures none_ended { OnErr result (self.new.seat.counts.ended ≡ self.old.seat.counts.ended) }
        ensures answer { let v = self.new.seat.place.me.0 in IfOk result (Chooses v.opened (board_after v.opened v.seen) pick) }
        ensures fits { IfOk result (λ told. IfJob told FitsItself) }
        ensures is_for { IfOk result (λ told. IfJob told (λ job. IsFor (setting_of self.old.seat.place.me.0.opened) (attempt_of job))) }
        ensures seen { StartsWith self.new.seat.place.me.0.seen self.old.seat.place.me.0.seen }
        ensures room { IfOk result (λ told. IfJob told (λ job. HasRoom self.new.room (arc_value job.design) job.rule job.inputs)) }
        ensures notes { OnOk result (length self.new.notes.items + 2 ≤ vec_capacity self.new.notes) }
        ensures whole { self.new.whole ≡ self.old.whole }
    {
        if self.notes.reserve(2).is_err() {
            self.seat.count_none();
            return Err(NoMemory);
        }
        let answer = self.seat.look(pick);
        let (answer, room) = with_room(*self.notes.allocator(), answer);
        self.room = room;
        self.seat.count(&answer);
        answer
    }
}

impl<'a, R: Wait> BoardSeat for NotingSeat<'a, R> {
    ghost use Rattle.std.specs.Prelude.{Some, List};
    ghost use Rattle.atomic_table.specs.Seated.{TableId};
    ghost use Rattle.attempt_log.specs.declared.entry.Entry.{Entry};
    ghost use Rattle.board_core.specs.Board.{Opening, setting_of};

    ghost Origin = { TableId × List Entry × Opening };

    ghost origin = { λ s. (s.seat.place.table_id, s.seat.place.me.0.part.base, s.seat.place.me.0.opened) };

    ghost setting = { λ s. Some (setting_of s.seat.place.me.0.opened) };

    ghost seen = { λ s. Some s.seat.place.me.0.seen };

    ghost number = { λ s. s.seat.number };

    ghost task = { λ s. s.seat.counts.task };

    ghost asked = { λ s. s.seat.counts.asked };

    ghost given = { λ s. s.seat.counts.given };

    ghost ended = { λ s. s.seat.counts.ended };

    ghost own = { λ s. Some s.seat.place.me.0.part.own };

    // Besides what the trait says: the answer is the choice of candidates on the board that what is then seen leaves.
    fn job(&mut self, pick: u64) -> Result<JobAnswer, NoMemory>
        ensures fits { IfOk result (λ told. IfJob told FitsItself) }
        ensures is_for { IfSome (Some (setting_of self.old.seat.place.me.0.opened)) (λ s. IfOk result (λ told. IfJob told (λ job. IsFor s (attempt_of job)))) }
        ensures number { self.new.seat.number ≡ self.old.seat.number }
        ensures origin { ◌≡◌ {A = TableId × List Entry × Opening} (self.new.seat.place.table_id, self.new.seat.place.me.0.part.base, self.new.seat.place.me.0.opened) (self.old.seat.place.table_id, self.old.seat.place.me.0.part.base, self.old.seat.place.me.0.opened) }
        ensures setting { Some (setting_of self.new.seat.place.me.0.opened) ≡ Some (setting_of self.old.seat.place.me.0.opened) }
        ensures task { IfOk result (λ told. self.new.seat.counts.task ≡ last_task self.old.seat.counts.task told) }
        ensures same_task { OnErr result (self.new.seat.counts.task ≡ self.old.seat.counts.task) }
        ensures asked { self.new.seat.counts.asked ≡ one_more self.old.seat.counts.asked }
        ensures given { IfOk result (λ told. self.new.seat.counts.given ≡ one_more_if (gives_job told) self.old.seat.counts.given) }
        ensures none_given { OnErr result (self.new.seat.counts.given ≡ self.old.seat.counts.given) }
        ensures ended { IfOk result (λ told. self.new.seat.counts.ended ≡ one_more_if (has_finished told) self.old.seat.counts.ended) }
        ensures none_ended { OnErr result (self.new.seat.counts.ended ≡ self.old.seat.counts.ended) }
        ensures seen { SeesMore (Some self.old.seat.place.me.0.seen) (Some self.new.seat.place.me.0.seen) }
        ensures own { Some self.new.seat.place.me.0.part.own ≡ Some self.old.seat.place.me.0.part.own }
        ensures answer { let v = self.new.seat.place.me.0 in IfOk result (Chooses v.opened (board_after v.opened v.seen) pick) }
        ensures room { IfOk result (λ told. IfJob told (λ job. HasRoom self.new.room (arc_value job.design) job.rule job.inputs)) }
        ensures notes { OnOk result (length self.new.notes.items + 2 ≤ vec_capacity self.new.notes) }
        ensures whole { self.new.whole ≡ self.old.whole }
    {
        self.ask(pick)
    }

    // Besides what the trait says: where `job` left room for it, the attempt is noted, and there is memory for one note
    // more.
    fn submit(&mut self, attempt: Attempt) -> Submitted
        requires task { self.old.seat.counts.task ≡ Some (task_of attempt) }
        requires is_for { IfSome (Some (setting_of self.old.seat.place.me.0.opened)) (λ s. IsFor s attempt) }
        ensures number { self.new.seat.number ≡ self.old.seat.number }
        ensures origin { ◌≡◌ {A = TableId × List Entry × Opening} (self.new.seat.place.table_id, self.new.seat.place.me.0.part.base, self.new.seat.place.me.0.opened) (self.old.seat.place.table_id, self.old.seat.place.me.0.part.base, self.old.seat.place.me.0.opened) }
        ensures setting { Some (setting_of self.new.seat.place.me.0.opened) ≡ Some (setting_of self.old.seat.place.me.0.opened) }
        ensures task { self.new.seat.counts.task ≡ self.old.seat.counts.task }
        ensures asked { self.new.seat.counts.asked ≡ self.old.seat.counts.asked }
        ensures given { self.new.seat.counts.given ≡ self.old.seat.counts.given }
        ensures ended { self.new.seat.counts.ended ≡ self.old.seat.counts.ended }
        ensures handed_back { HandsBack attempt result }
        ensures seen { SeesLast (Some self.old.seat.place.me.0.seen) (submit_entry self.old.seat.number attempt result) (Some self.new.seat.place.me.0.seen) }
        ensures own { Grown (Some self.old.seat.place.me.0.part.own) (submit_entry self.old.seat.number attempt result ∷ []) (Some self.new.seat.place.me.0.part.own) }
        ensures kept { IsSome self.old.room → length self.old.notes.items + 2 ≤ vec_capacity self.old.notes → (self.new.whole ≡ self.old.whole) × (length self.new.notes.items + 1 ≤ vec_capacity self.new.notes) }
    {
        let room = self.room.take();
        let copy = copied(room, &attempt);
        let (answer, receipt) = self.seat.submit(attempt);
        self.whole = note_submit(&mut self.notes, self.whole, receipt, copy, &answer);
        answer
    }

    // Besides what the trait says: where there is memory for it, it is noted.
    fn settle(&mut self) -> Settled
        ensures number { self.new.seat.number ≡ self.old.seat.number }
        ensures origin { ◌≡◌ {A = TableId × List Entry × Opening} (self.new.seat.place.table_id, self.new.seat.place.me.0.part.base, self.new.seat.place.me.0.opened) (self.old.seat.place.table_id, self.old.seat.place.me.0.part.base, self.old.seat.place.me.0.opened) }
        ensures setting { Some (setting_of self.new.seat.place.me.0.opened) ≡ Some (setting_of self.old.seat.place.me.0.opened) }
        ensures task { self.new.seat.counts.task ≡ self.old.seat.counts.task }
        ensures asked { self.new.seat.counts.asked ≡ self.old.seat.counts.asked }
        ensures given { self.new.seat.counts.given ≡ self.old.seat.counts.given }
        ensures ended { self.new.seat.counts.ended ≡ one_more_if (is_finished result) self.old.seat.counts.ended }
        ensures seen { SeesLast (Some self.old.seat.place.me.0.seen) (settle_entry self.old.seat.number result) (Some self.new.seat.place.me.0.seen) }
        ensures own { Grown (Some self.old.seat.place.me.0.part.own) (settle_entry self.old.seat.number result ∷ []) (Some self.new.seat.place.me.0.part.own) }
        ensures kept { length self.old.notes.items + 1 ≤ vec_capacity self.old.notes → self.new.whole ≡ self.old.whole }
    {
        let (answer, receipt) = self.seat.settle();
        self.whole = note_settle(&mut self.notes, self.whole, receipt, &answer);
        answer
    }

    fn worker(&self) -> u32 {
        self.seat.worker()
    }
}

// An answer with room for the attempt at its job. Where there is no memory for that, the answer is lost.
fn with_room(
    alloc: Global,
    answer: Result<JobAnswer, NoMemory>,
) -> (Result<JobAnswer, NoMemory>, Option<Room>)
    requires { IfOk answer (λ told. IfJob told FitsItself) }
    ensures same { IfOk result.0 (λ told. answer ≡ Ok told) }
    ensures room { RoomOf result.0 result.1 }
{
    match answer {
        Ok(JobAnswer::Job(job)) => match Room::new(alloc, &job) {
            Ok(room) => (Ok(JobAnswer::Job(job)), Some(room)),
            Err(NoMemory) => (Err(NoMemory), None),
        },
        Ok(JobAnswer::Idle) => (Ok(JobAnswer::Idle), None),
        Ok(JobAnswer::Finished) => (Ok(JobAnswer::Finished), None),
        Err(NoMemory) => (Err(NoMemory), None),
    }
}

// What an entry keeps of an attempt, where there is room for it.
fn copied(room: Option<Room>, attempt: &Attempt) -> Option<Copied>
    requires { (r : Room) → room ≡ Some r → (d : Parts) × SameDesign attempt.now.design d × IsRoom d attempt.now.rule attempt.now.inputs r }
    ensures copy { IfSome result (IsCopy attempt.now) }
    ensures some { IsSome room → IsSome result }
{
    match room {
        Some(room) => Some(room.filled(attempt)),
        None => None,
    }
}

// Notes a submit after the others, and returns whether all were noted.
fn note_submit(
    notes: &mut Vec<Note>,
    whole: bool,
    receipt: Receipt,
    copy: Option<Copied>,
    answer: &Submitted,
) -> bool
    ensures noted { (a : Attempted) → IfSome copy (IsCopy a) → result ≡ true → (whole ≡ true) × (notes.new.items ≡ notes.old.items ++ record { place = receipt.place; entry = submit_entry receipt.worker a answer.now } ∷ []) }
    ensures kept { IsSome copy → length notes.old.items + 2 ≤ vec_capacity notes.old → (result ≡ whole) × (length notes.new.items + 1 ≤ vec_capacity notes.new) }
{
    match copy {
        None => false,
        Some(
            Copied {
                cycle,
                rule,
                inputs,
                events,
                outcome,
            },
        ) => {
            let entry = Entry::Submit {
                worker: receipt.worker,
                cycle,
                rule,
                inputs,
                events,
                outcome,
                answer: answer.taken(),
            };
            note(notes, whole, receipt.place, entry)
        }
    }
}

// Notes a settle after the others, and returns whether all were noted.
fn note_settle(notes: &mut Vec<Note>, whole: bool, receipt: Receipt, answer: &Settled) -> bool
    ensures noted { result ≡ true → (whole ≡ true) × (notes.new.items ≡ notes.old.items ++ record { place = receipt.place; entry = settle_entry receipt.worker answer.now } ∷ []) }
    ensures kept { length notes.old.items + 1 ≤ vec_capacity notes.old → result ≡ whole }
{
    let entry = Entry::Settle {
        worker: receipt.worker,
        answer: *answer,
    };
    note(notes, whole, receipt.place, entry)
}

// Notes an entry after the others, and returns whether all were noted.
fn note(notes: &mut Vec<Note>, whole: bool, place: u64, entry: Entry) -> bool
    ensures noted { result ≡ true → (whole ≡ true) × (notes.new.items ≡ notes.old.items ++ record { place = place; entry = entry } ∷ []) }
    ensures kept { length notes.old.items + 1 ≤ vec_capacity notes.old → result ≡ whole }
    ensures longer { length notes.new.items ≤ length notes.old.items + 1 }
    ensures room { vec_capacity notes.old ≤ vec_capacity notes.new }
{
    notes.push(Note { place, entry }).is_ok() && whole
}

/// What was done, and the entries of the history.
#[derive(Drop)]
pub struct Noted {
    pub reports: Sequence<Report>,
    pub entries: Sequence<Entry>,
}

impl LockBoard {
    /// Has the workers take their turns at a board that has seen nothing, and returns the history that is then seen.
    /// After an `Err`, either no worker has run, or all that the workers did stays done: the board's seat has then seen
    /// a legal history with each worker's entries, and only their list is lost. The board is at the same lock after each
    /// return.
    pub fn journal_all<R: Threads + Wait + Sync, G: Gate + Sync>(
        &mut self,
        rt: &R,
        alloc: Global,
        gate: &G,
        turns: u64,
    ) -> Result<Noted, NoMemory>
        requires empty { self.old.place.me.0.seen ≡ [] }
        requires few { turns ≤ 2 ^ 56 }
        ensures entries { IfOk result (λ noted. noted.entries ≡ self.new.place.me.0.seen) }
        ensures workers { IfOk result (λ noted. Each (λ e. worker_of e < self.old.workers) noted.entries) }
        ensures in_run { IfOk result (λ noted. Each (InRun self.old.place.me.0.opened) noted.entries) }
        ensures told { IfOk result (λ noted. Worked turns self.old.workers self.old.place.me.0 self.new.place.me.0 noted.reports) }
        ensures kept { OnErr result ((self.new.place.me ≡ self.old.place.me) ⊎ HaveWorked turns self.old.workers self.old.place.me.0 self.new.place.me.0) }
        ensures opened { self.new.place.me.0.opened ≡ self.old.place.me.0.opened }
        ensures same { self.new.workers ≡ self.old.workers }
        ensures table { self.new.place.table_id ≡ self.old.place.table_id }
    {
        let count = self.workers as usize;
        let Ok(mut reports) = Vec::with_capacity(alloc, count) else {
            return Err(NoMemory);
        };
        let Ok(mut lists) = Vec::with_capacity(alloc, count) else {
            return Err(NoMemory);
        };
        let LockBoard {
            lock,
            place,
            workers,
        } = self;
        let mut seats = split_noting(rt, alloc, &*lock, place, *workers)?;
        work_seats(rt, alloc, &mut seats, gate, turns);
        let whole = join_noting(&*lock, place, seats, &mut reports, &mut lists, turns);
        lock.learn(place);
        if !whole {
            return Err(NoMemory);
        }
        let entries = merged(alloc, lists)?;
        let reports = Sequence::from_vec(reports);
        Ok(Noted { reports, entries })
    }
}

// A seat for each worker, in order of their numbers.
pub(crate) fn split_noting<'a, R>(
    rt: &'a R,
    alloc: Global,
    lock: &'a Lock,
    place: &mut Place,
    workers: u32,
) -> Result<Vec<Working<NotingSeat<'a, R>>>, NoMemory>
    requires table { place.old.table_id ≡ lock.now.table.shared.table_id }
    requires outside { IsOutside place.old.me }
    requires own { IsOwner place.old.me.0.part }
    requires none { place.old.me.0.part.out ≡ 0 }
    requires few { workers ≤ 64 }
    requires empty { place.old.me.0.seen ≡ [] }
    ensures same { place.new.table_id ≡ place.old.table_id }
    ensures err { OnErr result (place.new.me ≡ place.old.me) }
    ensures carried { place.new.me.1 ≡ [] }
    ensures split { OnOk result (SplitBy workers place.old.me.0 place.new.me.0) }
    ensures count { IfOk result (λ seats. length seats.items ≡ workers) }
    ensures each { IfOk result (λ seats. (i : ℕ) (d : _) → i < workers → IsReady place.old.table_id place.old.me.0.seen place.old.me.0.opened i (slice_index_or seats.items i d).seat.seat.number (slice_index_or seats.items i d).seat.seat.place.table_id (slice_index_or seats.items i d).seat.seat.place.me.0) }
{
    let Ok(mut seats) = Vec::with_capacity(alloc, workers as usize) else {
        return Err(NoMemory);
    };
    for number in 0..workers {
        let part = lock.split(place);
        let seat = NotingSeat::new(alloc, LockSeat::new(rt, lock, part, number));
        seats.push_reserved(Working {
            seat,
            report: Report::new(number),
        });
    }
    Ok(seats)
}

// Takes the seats back, puts their reports and notes in order, and returns whether the notes are whole.
fn join_noting<R>(
    lock: &Lock,
    place: &mut Place,
    mut seats: Vec<Working<NotingSeat<'_, R>>>,
    reports: &mut Vec<Report>,
    lists: &mut Vec<Notes>,
    turns: u64,
) -> bool
    requires table { place.old.table_id ≡ lock.now.table.shared.table_id }
    requires carried { place.old.me.1 ≡ [] }
    requires outside { IsOutside place.old.me }
    requires own { IsOwner place.old.me.0.part }
    requires out { place.old.me.0.part.out ≡ length seats.items }
    requires top { place.old.me.0.part.top ≡ length seats.items }
    requires none { place.old.me.0.part.dones ≡ [] }
    requires each { (i : ℕ) (d : _) → i < length seats.items → HasWorked turns place.old.table_id place.old.me.0.part.was place.old.me.0.opened i (slice_index_or seats.items i d).seat.seat.number (slice_index_or seats.items i d).seat.seat.counts.ended (slice_index_or seats.items i d).seat.seat.place.table_id (slice_index_or seats.items i d).seat.seat.place.me.0 (slice_index_or seats.items i d).report }
    requires empty { reports.old.items ≡ [] }
    requires room { length seats.items ≤ vec_capacity reports.old }
    requires no_list { lists.old.items ≡ [] }
    requires lists_room { length seats.items ≤ vec_capacity lists.old }
    ensures same { place.new.table_id ≡ place.old.table_id }
    ensures carried { place.new.me.1 ≡ [] }
    ensures count { length reports.new.items ≡ length seats.entry.items }
    ensures lists_count { length lists.new.items ≡ length seats.entry.items }
    ensures joined { JoinedFrom turns 0 (length seats.entry.items) place.old.me.0 place.new.me.0 reports.new.items }
    ensures noting { result ≡ true → Noting place.old.me.0.opened 0 lists.new.items place.new.me.0.part.dones }
{
    let _turns = turns;
    let mut whole = true;
    while let Some(
        Working {
            seat: noting,
            report,
        },
    ) = seats.pop()
    {
        let NotingSeat {
            seat,
            notes,
            room,
            whole: noted,
        } = noting;
        drop(room);
        whole = is_whole(whole, noted);
        lock.join::<Brand>(place, seat.into_place());
        reports.push_reserved(report);
        lists.push_reserved(Notes::from_vec(notes));
    }
    reports.reverse();
    lists.reverse();
    whole
}

// Whether all notes so far are there, and these too.
fn is_whole(so_far: bool, noted: bool) -> bool
    ensures { result ≡ true → (so_far ≡ true) × (noted ≡ true) }
{
    so_far && noted
}
