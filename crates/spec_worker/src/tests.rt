//! Tests of workers at seats that answer by a list, and at a gate that notes its calls.

ghost use Rattle.std.specs.Prelude.{◌≡◌, ◌<◌, [], length, IfOk};
ghost use Rattle.std.specs.Arc.{arc_value};
ghost use Rattle.typed_core.specs.Valid.{externs_of};
ghost use Rattle.one_rule.specs.Externs.{kept};
ghost use Rattle.attempt_log.specs.Seats.{IfJob};
ghost use Rattle.attempt_log.specs.Setting.{FitsItself};

use super::{Working, work, work_all};
use attempt_log::{
    Attempt, BoardSeat, Counts, Ending, Gate, Job, JobAnswer, NoGate, Report, Settled, Submitted,
};
use kw_bits::{NoMemory, Sequence, Text};
use one_rule::{Externs, Inputs, first_values};
use std::alloc::Global;
use std::process::Abort;
use std::sync::Arc;
use std::sync::atomic::{AtomicU64, Ordering};
use std::test::*;
use typed_core::{Action, Design, Parts, Rule};

// What a seat says to a worker that asks for a job.
#[derive(Clone, Copy)]
enum Says {
    Job,
    Idle,
    Finished,
    NoMemory,
}

// A design of one rule or more, which asks nothing.
#[derive(Drop)]
struct Setting {
    design: Arc<Design>,
    externs: Arc<Externs>,
    ghost no_inputs: { (arc_value design).inputs ≡ [] },
    ghost externs_fit: { kept (arc_value externs) ≡ externs_of (arc_value design) },
    ghost has_rule: { 0 < length (arc_value design).rules },
}

impl Setting {
    // A job at its first rule.
    fn job(&self, alloc: Global) -> Result<Job, NoMemory>
        ensures { IfOk result FitsItself }
    {
        Ok(Job {
            design: Arc::try_clone(&self.design)?,
            externs: Arc::try_clone(&self.externs)?,
            cycle: 1,
            rule: 0,
            inputs: Inputs::new(alloc),
            regs: first_values(alloc, &self.design)?,
        })
    }
}

// A seat that answers by a list, last first. It stores every second attempt, from the first on, and hands the others
// back. Each settle closes a cycle until the list is at its end, and from then on the board has finished.
#[derive(Drop)]
struct ListSeat {
    alloc: Global,
    setting: Setting,
    says: Vec<Says>,
    counts: Counts,
    // The numbers that jobs were asked for by.
    picks: Vec<u64>,
    has_stored: bool,
    // The calls of the seat, and those of its gate if that notes them here too.
    calls: Arc<AtomicU64>,
}

impl ListSeat {
    fn say(&mut self, pick: u64) -> Result<JobAnswer, NoMemory>
        ensures fits { IfOk result (λ told. IfJob told FitsItself) }
        ensures counts { self.new.counts ≡ self.old.counts }
    {
        note_call(&self.calls, 2);
        self.picks.push(pick)?;
        match self.says.pop() {
            Some(Says::Job) => Ok(JobAnswer::Job(self.setting.job(self.alloc)?)),
            Some(Says::Idle) => Ok(JobAnswer::Idle),
            Some(Says::Finished) | None => Ok(JobAnswer::Finished),
            Some(Says::NoMemory) => Err(NoMemory),
        }
    }
}

impl BoardSeat for ListSeat {
    ghost use Rattle.std.specs.Prelude.{ℕ, None};

    ghost Origin = { ℕ };

    ghost origin = { λ _. 0 };

    ghost number = { λ _. 5 };

    ghost setting = { λ _. None };

    ghost task = { λ s. s.counts.task };

    ghost asked = { λ s. s.counts.asked };

    ghost given = { λ s. s.counts.given };

    ghost ended = { λ s. s.counts.ended };

    ghost seen = { λ _. None };

    ghost own = { λ _. None };

    fn job(&mut self, pick: u64) -> Result<JobAnswer, NoMemory> {
        let answer = self.say(pick);
        self.counts.count(&answer);
        answer
    }

    fn submit(&mut self, attempt: Attempt) -> Submitted {
        note_call(&self.calls, 3);
        self.has_stored = !self.has_stored;
        if self.has_stored {
            drop(attempt);
            Submitted::Stored
        } else {
            Submitted::Twice(attempt)
        }
    }

    fn settle(&mut self) -> Settled {
        note_call(&self.calls, 5);
        let answer = if self.says.is_empty() {
            Settled::Finished
        } else {
            Settled::CycleClosed { cycle: 1 }
        };
        self.counts.count_settle(&answer);
        answer
    }

    fn worker(&self) -> u32 {
        self.counts.are_counts();
        5
    }
}

const MEMORY: &str = "memory";

// One rule, which does nothing.
fn rules(rt: &impl Abort, alloc: Global) -> Sequence<Rule>
    ensures { 0 < length result }
{
    let rule = Rule {
        name: Text::new(alloc),
        body: Action::Unit,
    };
    let mut rules = Sequence::new(alloc);
    rules.push(rule).expect(rt, MEMORY);
    rules
}

fn lone_design(rt: &impl Abort, alloc: Global) -> Design
    ensures inputs { result.inputs ≡ [] }
    ensures hosts { result.hosts ≡ [] }
    ensures rules { 0 < length result.rules }
{
    let parts = Parts {
        regs: Sequence::new(alloc),
        inputs: Sequence::new(alloc),
        tables: Sequence::new(alloc),
        hosts: Sequence::new(alloc),
        rules: rules(rt, alloc),
        nodes: Sequence::new(alloc),
    };
    Design::new(parts).expect(rt, "a valid design")
}

// The design that jobs are of, with its externs.
fn setting_of_one(rt: &impl Abort, alloc: Global) -> Setting {
    let design = lone_design(rt, alloc);
    let externs = Externs::new(alloc, &design, &[]).expect(rt, MEMORY);
    Setting {
        design: Arc::new(alloc, design).expect(rt, MEMORY),
        externs: Arc::new(alloc, externs).expect(rt, MEMORY),
    }
}

// A list that is taken from its end.
fn reversed(rt: &impl Abort, alloc: Global, says: &[Says]) -> Vec<Says> {
    let mut list = Vec::new(alloc);
    for say in says.iter().rev() {
        list.push(*say).expect(rt, MEMORY);
    }
    list
}

fn seat_that_says(rt: &impl Abort, alloc: Global, says: &[Says]) -> ListSeat {
    ListSeat {
        alloc,
        setting: setting_of_one(rt, alloc),
        says: reversed(rt, alloc, says),
        counts: Counts::new(),
        picks: Vec::new(alloc),
        has_stored: false,
        calls: Arc::new(alloc, AtomicU64::new(0)).expect(rt, MEMORY),
    }
}

// Notes a call by a decimal digit, last call last: 1 for a gate's `before`, 2 for a seat's `job`, 3 for its `submit`, 4
// for a gate's `after` and 5 for a seat's `settle`.
fn note_call(calls: &AtomicU64, digit: u64) {
    let earlier = calls.load(Ordering::SeqCst).wrapping_mul(10);
    calls.store(earlier.wrapping_add(digit), Ordering::SeqCst);
}

// Notes the worker and the turn of each call, by a decimal digit each, last call last.
#[derive(Drop)]
struct Noting {
    before: AtomicU64,
    after: AtomicU64,
    // The calls of the gate and of its seat.
    calls: Arc<AtomicU64>,
}

fn note(notes: &AtomicU64, worker: u32, turn: u64) {
    let earlier = notes.load(Ordering::SeqCst).wrapping_mul(100);
    let call = u64::from(worker).wrapping_mul(10).wrapping_add(turn);
    notes.store(earlier.wrapping_add(call), Ordering::SeqCst);
}

impl Gate for Noting {
    fn before(&self, worker: u32, turn: u64) {
        note_call(&self.calls, 1);
        note(&self.before, worker, turn);
    }

    fn after(&self, worker: u32, turn: u64) {
        note_call(&self.calls, 4);
        note(&self.after, worker, turn);
    }
}

// What a seat says to a worker with three turns: the turns that it takes, the attempts that are stored, the settles that
// go on, its ending, and how often it is said that the board has finished.
#[derive(Clone, Copy)]
struct EndCase {
    says: &'static [Says],
    turns: u64,
    submitted: u64,
    settled: u64,
    ending: Ending,
    ended: u64,
}

const END_CASES: [EndCase; 6] = [
    EndCase {
        says: &[Says::Job, Says::Idle, Says::Finished],
        turns: 2,
        submitted: 1,
        settled: 2,
        ending: Ending::Finished,
        ended: 1,
    },
    EndCase {
        says: &[Says::Job, Says::Job, Says::NoMemory],
        turns: 2,
        submitted: 1,
        settled: 2,
        ending: Ending::NoMemory,
        ended: 0,
    },
    EndCase {
        says: &[Says::Idle, Says::Job, Says::Job, Says::Job, Says::Job],
        turns: 3,
        submitted: 1,
        settled: 3,
        ending: Ending::Turns,
        ended: 0,
    },
    EndCase {
        says: &[Says::Job, Says::Job, Says::Job, Says::Job],
        turns: 3,
        submitted: 2,
        settled: 3,
        ending: Ending::Turns,
        ended: 0,
    },
    EndCase {
        says: &[Says::Job],
        turns: 1,
        submitted: 1,
        settled: 0,
        ending: Ending::Finished,
        ended: 2,
    },
    EndCase {
        says: &[],
        turns: 0,
        submitted: 0,
        settled: 0,
        ending: Ending::Finished,
        ended: 1,
    },
];

fn expect_work(rt: &impl Abort, alloc: Global, case: &EndCase) {
    let mut seat = seat_that_says(rt, alloc, case.says);
    let report = work(alloc, &mut seat, &NoGate, 3);
    let want = Report {
        worker: 5,
        turns: case.turns,
        submitted: case.submitted,
        settled: case.settled,
        ending: case.ending,
    };
    assert_eq!(rt; report, want);
    assert_eq!(rt; seat.counts.ended, case.ended);
}

#[test]
fn a_worker_ends_as_its_seat_says(rt: HostRuntime) {
    for case in &END_CASES {
        expect_work(&rt, rt.alloc(), case);
    }
}

// What a seat says to a worker with three turns: the numbers that jobs are asked for by, what the gate notes before and
// after turns, and all calls in their order.
#[derive(Clone, Copy)]
struct CallCase {
    says: &'static [Says],
    picks: &'static [u64],
    before: u64,
    after: u64,
    calls: u64,
}

const CALL_CASES: [CallCase; 3] = [
    CallCase {
        says: &[Says::Job, Says::Idle, Says::Job, Says::Job],
        picks: &[5, 6, 7],
        before: 50_51_52,
        after: 50_51_52,
        calls: 12345_1245_12345,
    },
    CallCase {
        says: &[Says::Job, Says::Finished, Says::Job],
        picks: &[5, 6],
        before: 50_51,
        after: 50,
        calls: 12345_12,
    },
    CallCase {
        says: &[Says::NoMemory, Says::Job],
        picks: &[5],
        before: 50,
        after: 0,
        calls: 12,
    },
];

fn expect_calls(rt: &impl Abort, alloc: Global, case: &CallCase) {
    let mut seat = seat_that_says(rt, alloc, case.says);
    let gate = Noting {
        before: AtomicU64::new(0),
        after: AtomicU64::new(0),
        calls: Arc::try_clone(&seat.calls).expect(rt, MEMORY),
    };
    work(alloc, &mut seat, &gate, 3);
    assert_eq!(rt; seat.picks.as_slice(), case.picks);
    assert_eq!(rt; gate.before.load(Ordering::SeqCst), case.before);
    assert_eq!(rt; gate.after.load(Ordering::SeqCst), case.after);
    assert_eq!(rt; gate.calls.load(Ordering::SeqCst), case.calls);
}

#[test]
fn jobs_and_gates_are_called_by_worker_and_turn(rt: HostRuntime) {
    for case in &CALL_CASES {
        expect_calls(&rt, rt.alloc(), case);
    }
}

// Seats that have two jobs each, and where nothing is done yet.
fn seats(rt: &impl Abort, alloc: Global) -> Vec<Working<ListSeat>> {
    let mut workers = Vec::new(alloc);
    for _ in 0..3 {
        let working = Working {
            seat: seat_that_says(rt, alloc, &[Says::Job, Says::Job]),
            report: Report::new(0),
        };
        workers.push(working).expect(rt, MEMORY);
    }
    workers
}

#[test]
fn workers_work_side_by_side(rt: HostRuntime) {
    let mut workers = seats(&rt, rt.alloc());
    assert_eq!(rt; workers.len(), 3);
    work_all(&rt, rt.alloc(), workers.as_mut_slice(), &NoGate, 2);
    for working in workers.as_slice() {
        assert_eq!(rt; working.report.submitted, 1);
        assert_eq!(rt; working.report.settled, 1);
        assert_eq!(rt; working.report.ending, Ending::Turns);
        assert_eq!(rt; working.seat.counts.asked, 2);
        assert_eq!(rt; working.seat.counts.ended, 1);
    }
}
