//! What a worker does: it takes turns at a seat, each with a job and a settle. `work_all` has one at each seat, side by
//! side. `specs/Work.antt` says which entries that makes and how it ends. Nothing here knows what kind of board it is.
#![tactic(auto)]

ghost use Rattle.std.specs.Prelude.{◌≡◌, ◌≤◌, ◌<◌, ◌+◌, ℕ, Some, true, false, IfSome, length, slice_index_or};
ghost use Rattle.kw_bits.specs.Faults.{last_count, one_more};
ghost use Rattle.attempt_log.specs.Entries.{goes_on, taken_of, was_stored};
ghost use Rattle.attempt_log.specs.Setting.{IsFor, task_of};
ghost use Rattle.spec_worker.specs.Work.{Ends, Gains, RoseBy, WorksAt, beyond, is_short};
ghost use Rattle.spec_worker.specs.inner.Work.{HandsIn, Settles, has_finished, once, turn_made, turn_stored, turn_taken, was_short};

use attempt_log::{
    Attempt, BoardSeat, Ending, Gate, JobAnswer, Report, Settled, Submitted, attempt,
};
use kw_bits::NoMemory;
use std::alloc::Global;
use std::sync::Wait;
use std::thread;
use std::thread::Threads;

/// Takes turns at a seat. Where it tells its entries, it has made as many of each kind as are reported.
pub fn work<S: BoardSeat, G: Gate>(alloc: Global, seat: &mut S, gate: &G, turns: u64) -> Report
    ensures number { S.number seat.new ≡ S.number seat.old }
    ensures origin { S.origin seat.new ≡ S.origin seat.old }
    ensures setting { S.setting seat.new ≡ S.setting seat.old }
    ensures worker { result.worker ≡ S.number seat.old }
    ensures own { Gains (S.own seat.old) (S.given seat.old) result.submitted result.settled result.turns (S.own seat.new) (S.given seat.new) (is_short result.ending) }
    ensures ending { Ends turns result (S.ended seat.old) (S.ended seat.new) }
    ensures asked { RoseBy (S.asked seat.old) (result.turns + beyond result.ending) (S.asked seat.new) }
{
    let worker = seat.worker();
    let mut submitted = 0;
    let mut settled = 0;
    for turn in 0..turns {
        match take_turn(alloc, seat, gate, worker, turn) {
            Turn::Made { stored, taken } => {
                submitted += stored;
                settled += taken;
            }
            Turn::Finished => {
                return Report {
                    worker,
                    turns: turn,
                    submitted,
                    settled,
                    ending: Ending::Finished,
                };
            }
            Turn::NoMemory => {
                return Report {
                    worker,
                    turns: turn,
                    submitted,
                    settled,
                    ending: Ending::NoMemory,
                };
            }
        }
    }
    Report {
        worker,
        turns,
        submitted,
        settled,
        ending: Ending::Turns,
    }
}

/// What was done in a turn.
pub enum Turn {
    /// How often an attempt was stored, and a settle went on.
    Made { stored: u64, taken: u64 },
    Finished,
    NoMemory,
}

// A job, what it asks for, and a settle.
fn take_turn<S: BoardSeat, G: Gate>(
    alloc: Global,
    seat: &mut S,
    gate: &G,
    worker: u32,
    turn: u64,
) -> Turn
    ensures number { S.number seat.new ≡ S.number seat.old }
    ensures origin { S.origin seat.new ≡ S.origin seat.old }
    ensures setting { S.setting seat.new ≡ S.setting seat.old }
    ensures few { (turn_stored result ≤ 1) × (turn_taken result ≤ 1) }
    ensures own { Gains (S.own seat.old) (S.given seat.old) (turn_stored result) (turn_taken result) (turn_made result) (S.own seat.new) (S.given seat.new) (was_short result) }
    ensures ended { has_finished result ≡ true → S.ended seat.new ≡ one_more (S.ended seat.old) }
    ensures never_fell { S.ended seat.old ≤ last_count → S.ended seat.old ≤ S.ended seat.new }
    ensures counted { S.ended seat.old ≤ last_count → S.ended seat.new ≤ last_count }
    ensures asked { S.asked seat.new ≡ one_more (S.asked seat.old) }
{
    gate.before(worker, turn);
    match seat.job(u64::from(worker).wrapping_add(turn)) {
        Ok(JobAnswer::Job(job)) => match attempt(alloc, &job) {
            Ok(attempt) => {
                let stored = hand_in(seat, attempt);
                end_turn(seat, gate, worker, turn, stored)
            }
            Err(NoMemory) => Turn::NoMemory,
        },
        Ok(JobAnswer::Idle) => end_turn(seat, gate, worker, turn, 0),
        Ok(JobAnswer::Finished) => Turn::Finished,
        Err(NoMemory) => Turn::NoMemory,
    }
}

// Submits the attempt of a job, and returns how often it was stored.
fn hand_in<S: BoardSeat>(seat: &mut S, attempt: Attempt) -> u64
    requires task { S.task seat.old ≡ Some (task_of attempt) }
    requires is_for { IfSome (S.setting seat.old) (λ s. IsFor s attempt) }
    ensures number { S.number seat.new ≡ S.number seat.old }
    ensures origin { S.origin seat.new ≡ S.origin seat.old }
    ensures setting { S.setting seat.new ≡ S.setting seat.old }
    ensures few { result ≤ 1 }
    ensures own { HandsIn (S.own seat.old) result (S.own seat.new) }
    ensures counts { (S.asked seat.new ≡ S.asked seat.old) × (S.given seat.new ≡ S.given seat.old) × (S.ended seat.new ≡ S.ended seat.old) }
{
    let answer = seat.submit(attempt);
    stored_by(&answer)
}

// The settle of a turn.
fn end_turn<S: BoardSeat, G: Gate>(
    seat: &mut S,
    gate: &G,
    worker: u32,
    turn: u64,
    stored: u64,
) -> Turn
    ensures number { S.number seat.new ≡ S.number seat.old }
    ensures origin { S.origin seat.new ≡ S.origin seat.old }
    ensures setting { S.setting seat.new ≡ S.setting seat.old }
    ensures made { (turn_stored result ≡ stored) × (turn_made result ≡ 1) × (has_finished result ≡ false) × (was_short result ≡ false) }
    ensures few { turn_taken result ≤ 1 }
    ensures own { Settles (S.own seat.old) (turn_taken result) (S.own seat.new) }
    ensures counts { (S.asked seat.new ≡ S.asked seat.old) × (S.given seat.new ≡ S.given seat.old) }
    ensures never_fell { S.ended seat.old ≤ last_count → S.ended seat.old ≤ S.ended seat.new }
    ensures counted { S.ended seat.old ≤ last_count → S.ended seat.new ≤ last_count }
{
    gate.after(worker, turn);
    let answer = seat.settle();
    let taken = settled_by(&answer);
    Turn::Made { stored, taken }
}

// How often an attempt was stored that was answered so.
fn stored_by(answer: &Submitted) -> u64
    ensures { result ≡ once (was_stored (taken_of answer.now)) }
{
    match answer {
        Submitted::Stored => 1,
        Submitted::Late(_) | Submitted::Ahead(_) | Submitted::Twice(_) => 0,
    }
}

// How often the board went on that answered so.
fn settled_by(answer: &Settled) -> u64
    ensures { result ≡ once (goes_on answer.now) }
{
    match answer {
        Settled::Committed { .. } | Settled::Skipped { .. } | Settled::CycleClosed { .. } => 1,
        Settled::Stale { .. } | Settled::Waiting { .. } | Settled::Finished => 0,
    }
}

/// A seat, and what was done at it.
#[derive(Drop)]
pub struct Working<S> {
    pub seat: S,
    pub report: Report,
}

/// Has a worker take turns at each seat, side by side.
pub fn work_all<S: BoardSeat + Send, G: Gate + Sync, R: Threads + Wait + Sync>(
    rt: &R,
    alloc: Global,
    workers: &mut [Working<S>],
    gate: &G,
    turns: u64,
)
    ensures length { length workers.new ≡ length workers.old }
    ensures each { (i : ℕ) (d : _) → i < length workers.old → WorksAt turns S.number S.origin S.setting S.asked S.given S.ended S.own (slice_index_or workers.old i d) (slice_index_or workers.new i d) }
{
    let threads = workers.len();
    if threads == 0 {
        return;
    }
    thread::for_each_mut(
        rt,
        workers,
        threads,
        &|_, working: &mut Working<S>|
            ensures { WorksAt turns S.number S.origin S.setting S.asked S.given S.ended S.own working.entry.now working.exit.now }
        {
            work_here(alloc, working, gate, turns);
        },
    );
}

// Has the worker of a seat take its turns.
fn work_here<S: BoardSeat, G: Gate>(alloc: Global, working: &mut Working<S>, gate: &G, turns: u64)
    ensures { WorksAt turns S.number S.origin S.setting S.asked S.given S.ended S.own working.old working.new }
{
    working.report = work(alloc, &mut working.seat, gate, turns);
}

#[cfg(test)]
mod tests;
