//! Tests: seats alone, and boards with workers, whose rows and receipts are known.
ghost use Rattle.std.specs.Prelude.{◌≡◌, ◌≤◌, [], IfOk};
ghost use Rattle.std.specs.Arc.{arc_value};
ghost use Rattle.typed_core.specs.Valid.{externs_of};
ghost use Rattle.typed_core.specs.Widths.{HaveWidths, register_widths};
ghost use Rattle.one_rule.specs.Externs.{kept};
ghost use Rattle.attempt_log.specs.Setting.{IsFor};
ghost use Rattle.board_core.specs.Board.{opened, setting_of};
ghost use Rattle.board_core.specs.Kept.{StandsFor};

use crate::board::{LockBoard, split_all, work_seats};
use crate::journal::{Noted, NotingSeat, split_noting};
use crate::seat::LockSeat;
use attempt_log::{
    Attempt, BoardSeat, Ending, Entry, Gate, JobAnswer, NoGate, Report, Settled, Submitted, Taken,
    attempt,
};
use board_core::{Board, Core};
use kw_bits::{Bits, NoMemory, Sequence, Text};
use one_rule::{Externs, FiredSet, Inputs, Regs, Row, Stimulus, first_values, slow_cycle};
use spec_worker::Working;
use std::alloc::Global;
use std::process::Abort;
use std::sync::atomic::{AtomicU64, Ordering};
use std::sync::{Arc, Wait};
use std::test::*;
use std::thread::Threads;
use typed_core::{Access, Action, Design, Event, Next, Node, Outcome, Parts, RegDecl, Rule, TwoOp};

// What a rule writes to a register at port 0.
#[derive(Clone, Copy)]
enum Writes {
    // A number.
    Put(u32, u128),
    // What it reads at a port of a register.
    Copy(u32, u32, u32),
    // One more than the register has.
    Count(u32),
}

// The second rule reads what the first one writes.
const PAIR: [Writes; 2] = [Writes::Put(1, 7), Writes::Copy(0, 1, 1)];

// Ten stages, each of which takes over what the one before it had, and a counter before them.
const STAGES: [Writes; 11] = [
    Writes::Copy(10, 0, 9),
    Writes::Copy(9, 0, 8),
    Writes::Copy(8, 0, 7),
    Writes::Copy(7, 0, 6),
    Writes::Copy(6, 0, 5),
    Writes::Copy(5, 0, 4),
    Writes::Copy(4, 0, 3),
    Writes::Copy(3, 0, 2),
    Writes::Copy(2, 0, 1),
    Writes::Copy(1, 0, 0),
    Writes::Count(0),
];

fn bits(rt: &impl Abort, number: u128) -> Bits {
    Bits::new(8, number).expect(rt, "a bit vector")
}

fn body(rt: &impl Abort, alloc: Global, writes: Writes) -> Result<Action, NoMemory> {
    let (register, value) = match writes {
        Writes::Put(register, number) => (register, Action::Const(bits(rt, number))),
        Writes::Copy(register, port, from) => (register, Action::Read(port, from)),
        Writes::Count(register) => {
            let one = Box::new(alloc, Action::Const(bits(rt, 1)))?;
            let old = Box::new(alloc, Action::Read(0, register))?;
            (register, Action::Two(TwoOp::Add, old, one))
        }
    };
    Ok(Action::Write(0, register, Box::new(alloc, value)?))
}

// A design with these first values, in which these rules run one after another.
fn design_of(
    rt: &impl Abort,
    alloc: Global,
    first: &[u128],
    rules: &[Writes],
) -> Result<Design, NoMemory>
    ensures inputs { IfOk result (λ design. design.inputs ≡ []) }
    ensures hosts { IfOk result (λ design. design.hosts ≡ []) }
{
    let mut regs = Sequence::new(alloc);
    for number in first {
        regs.push(RegDecl {
            name: Text::new(alloc),
            width: 8,
            first: bits(rt, *number),
        })?;
    }
    let mut list = Sequence::new(alloc);
    let mut nodes = Sequence::new(alloc);
    let mut rule = 0u32;
    let mut left = rules.len();
    for writes in rules {
        left = left.wrapping_sub(1);
        let next = if left == 0 {
            Next::End
        } else {
            Next::Node(rule.wrapping_add(1))
        };
        nodes.push(Node {
            rule,
            yes: next,
            no: next,
        })?;
        list.push(Rule {
            name: Text::new(alloc),
            body: body(rt, alloc, *writes)?,
        })?;
        rule = rule.wrapping_add(1);
    }
    let parts = Parts {
        regs,
        inputs: Sequence::new(alloc),
        tables: Sequence::new(alloc),
        hosts: Sequence::new(alloc),
        rules: list,
        nodes,
    };
    Ok(Design::new(parts).expect(rt, "a valid design"))
}

// A design on the registers that its plain run has left.
#[derive(Drop)]
struct Plain {
    design: Arc<Design>,
    externs: Arc<Externs>,
    regs: Regs,
    ghost inputs: { (arc_value design).inputs ≡ [] },
    ghost externs_fit: { kept (arc_value externs) ≡ externs_of (arc_value design) },
    ghost regs_fit: { HaveWidths (register_widths (arc_value design)) regs },
}

impl Plain {
    fn new(
        rt: &impl Abort,
        alloc: Global,
        first: &[u128],
        rules: &[Writes],
    ) -> Result<Plain, NoMemory> {
        let design = design_of(rt, alloc, first, rules)?;
        let externs = Externs::new(alloc, &design, &[])?;
        let regs = first_values(alloc, &design)?;
        Ok(Plain {
            design: Arc::new(alloc, design)?,
            externs: Arc::new(alloc, externs)?,
            regs,
        })
    }

    // A core on the registers, for cycles 1 to the last.
    fn core(&self, alloc: Global, last: u32, window: u32) -> Result<Core, NoMemory>
        requires last { last ≤ 1000 }
        requires window { 1 ≤ window }
        requires few_ahead { window ≤ 16 }
        ensures { IfOk result (λ core. StandsFor core (opened core.opening)) }
    {
        let design = Arc::try_clone(&self.design)?;
        let externs = Arc::try_clone(&self.externs)?;
        let stimulus = Arc::new(alloc, Stimulus::new(alloc, Vec::new(alloc)))?;
        let regs = Regs::from_slice(alloc, self.regs.as_slice())?;
        Core::begin(alloc, design, externs, stimulus, regs, 0, last, window)
    }

    // The rules that fire in the next cycle.
    fn step(&mut self, alloc: Global) -> Result<FiredSet, NoMemory> {
        let inputs = Inputs::new(alloc);
        let Row { regs, fired } = slow_cycle(
            alloc,
            &self.design,
            &self.externs,
            &inputs,
            &self.regs,
        )?;
        self.regs = regs;
        Ok(fired)
    }

    // Each row of a core is that of the plain run, and there are as many.
    fn expect(
        &mut self,
        rt: &impl Abort,
        alloc: Global,
        core: &Core,
        count: usize,
    ) -> Result<(), NoMemory> {
        assert_eq!(rt; core.rows().len(), count);
        let mut is_first = true;
        for row in core.rows() {
            if is_first {
                is_first = false;
            } else {
                let fired = self.step(alloc)?;
                assert_eq!(rt; row.fired.as_slice(), fired.as_slice());
            }
            assert_eq!(rt; row.regs.as_slice(), self.regs.as_slice());
        }
        Ok(())
    }
}

// The attempt at the job of a number.
fn attempt_at<R: Wait>(
    rt: &impl Abort,
    alloc: Global,
    seat: &mut LockSeat<'_, R>,
    pick: u64,
) -> Result<Attempt, NoMemory>
    ensures is_for { IfOk result (IsFor (setting_of seat.old.place.me.0.opened)) }
    ensures opened { seat.new.place.me.0.opened ≡ seat.old.place.me.0.opened }
{
    let JobAnswer::Job(job) = seat.ask(pick)? else {
        panic!(rt; "no job");
    };
    attempt(alloc, &job)
}

// Submits an attempt, which is to be stored or not, as the event of this place.
fn hand_in<R: Wait>(
    rt: &impl Abort,
    seat: &mut LockSeat<'_, R>,
    attempt: Attempt,
    stored: bool,
    place: u64,
)
    requires { IsFor (setting_of seat.old.place.me.0.opened) attempt }
    ensures { seat.new.place.me.0.opened ≡ seat.old.place.me.0.opened }
{
    let (answer, receipt) = LockSeat::submit(seat, attempt);
    assert_eq!(rt; matches!(answer, Submitted::Stored), stored);
    assert_eq!(rt; matches!(answer, Submitted::Twice(_)), !stored);
    assert_eq!(rt; (receipt.worker, receipt.place), (0, place));
}

// Each seat has its place's number.
fn expect_numbers<S: BoardSeat>(rt: &impl Abort, seats: &[Working<S>]) {
    let mut number = 0u32;
    for working in seats {
        assert_eq!(rt; working.seat.worker(), number);
        number = number.wrapping_add(1);
    }
}

// The second rule's attempt is stored, another is one too many, and the first rule is waited for.
fn submit_twice_and_settle<R: Wait>(
    rt: &impl Abort,
    alloc: Global,
    seat: &mut LockSeat<'_, R>,
) -> Result<(), NoMemory> {
    let one = attempt_at(rt, alloc, seat, 1)?;
    let other = attempt_at(rt, alloc, seat, 1)?;
    hand_in(rt, seat, one, true, 0);
    hand_in(rt, seat, other, false, 1);
    let (answer, receipt) = LockSeat::settle(seat);
    assert_eq!(rt; answer, Settled::Waiting { cycle: 1, rule: 0 });
    assert_eq!(rt; (receipt.worker, receipt.place), (0, 2));
    Ok(())
}

#[test]
fn receipts_count_up(rt: HostRuntime) -> Result<(), Fail> {
    let plain = Plain::new(&rt, rt.alloc(), &[1, 2], &PAIR)?;
    let core = plain.core(rt.alloc(), 1, 1)?;
    let LockBoard {
        lock,
        mut place,
        workers,
    } = LockBoard::begin(rt.alloc(), core, 1)?;
    let mut seats = split_all(&rt, rt.alloc(), &lock, &mut place, workers)?;
    expect_numbers(&rt, seats.as_slice());
    submit_twice_and_settle(&rt, rt.alloc(), &mut seats[0].seat)?;
    Ok(())
}

#[test]
fn one_worker_counts(rt: HostRuntime) -> Result<(), Fail> {
    let mut plain = Plain::new(&rt, rt.alloc(), &[0], &[Writes::Count(0)])?;
    let core = plain.core(rt.alloc(), 2, 4)?;
    let mut board = LockBoard::begin(rt.alloc(), core, 1)?;
    let reports = board.work_all(&rt, rt.alloc(), &NoGate, 32)?;
    let want = Report {
        worker: 0,
        turns: 4,
        submitted: 2,
        settled: 4,
        ending: Ending::Finished,
    };
    assert_eq!(rt; reports.as_slice(), [want].as_slice());
    let closed = board.close();
    plain.expect(&rt, rt.alloc(), &closed, 3)?;
    assert_eq!(rt; plain.regs.as_slice(), [bits(&rt, 2)].as_slice());
    Ok(())
}

// Worker 0 waits in its first turns until others have turned, but not for more than these loads.
#[derive(Drop)]
struct Holding {
    turned: AtomicU64,
}

impl Gate for Holding {
    fn before(&self, worker: u32, turn: u64) {
        if worker == 0 && turn < 3 {
            for _ in 0..100_000 {
                if self.turned.load(Ordering::SeqCst) > 9 {
                    return;
                }
            }
        }
    }

    fn after(&self, worker: u32, _turn: u64) {
        if worker > 0 {
            self.turned.fetch_add(1, Ordering::SeqCst);
        }
    }
}

// Four workers take a few turns, and then all that are left.
fn four_workers_run<R: Abort + Threads + Wait + Sync>(
    rt: &R,
    alloc: Global,
    first: &[u128],
    rules: &[Writes],
) -> Result<(), Fail> {
    let mut plain = Plain::new(rt, alloc, first, rules)?;
    let core = plain.core(alloc, 20, 4)?;
    let mut board = LockBoard::begin(alloc, core, 4)?;
    let gate = Holding {
        turned: AtomicU64::new(0),
    };
    let few = board.work_all(rt, alloc, &gate, 5)?;
    assert_eq!(rt; few.len(), 4);
    let rest = board.work_all(rt, alloc, &gate, 10_000)?;
    for report in rest.as_slice() {
        assert_eq!(rt; report.ending, Ending::Finished);
    }
    plain.expect(rt, alloc, &board.close(), 21)?;
    Ok(())
}

#[test]
fn four_workers_run_as_one(rt: HostRuntime) -> Result<(), Fail> {
    four_workers_run(&rt, rt.alloc(), &[1, 2], &PAIR)?;
    four_workers_run(&rt, rt.alloc(), &[0; 11], &STAGES)
}

fn event(rt: &impl Abort, write: bool, number: u128) -> Event {
    let access = Access {
        write,
        port: 0,
        register: 0,
    };
    Event {
        access,
        value: bits(rt, number),
    }
}

// A counter's first cycle: an attempt at it, its commit, and the end of the cycle.
fn expect_first_cycle(rt: &impl Abort, entries: &[Entry]) {
    let mut number = 0u64;
    for entry in entries {
        match entry {
            Entry::Submit {
                worker,
                cycle,
                rule,
                answer,
                outcome,
                inputs,
                events,
            } => {
                assert_eq!(rt; (number, *worker, *cycle, *rule), (0, 0, 1, 0));
                assert_eq!(rt; inputs.len(), 0);
                let made = [event(rt, false, 0), event(rt, true, 1)];
                assert_eq!(rt; events.as_slice(), made.as_slice());
                assert_eq!(rt; (*outcome, *answer), (Outcome::Done, Taken::Stored));
            }
            Entry::Settle { worker, answer } => {
                let want = if number == 1 {
                    Settled::Committed { cycle: 1, rule: 0 }
                } else {
                    Settled::CycleClosed { cycle: 1 }
                };
                assert_eq!(rt; (*worker, *answer), (0, want));
            }
        }
        number = number.wrapping_add(1);
    }
    assert_eq!(rt; number, 3);
}

#[test]
fn one_worker_notes_its_calls(rt: HostRuntime) -> Result<(), Fail> {
    let plain = Plain::new(&rt, rt.alloc(), &[0], &[Writes::Count(0)])?;
    let core = plain.core(rt.alloc(), 1, 4)?;
    let mut board = LockBoard::begin(rt.alloc(), core, 1)?;
    let noted = board.journal_all(&rt, rt.alloc(), &NoGate, 32)?;
    assert_eq!(rt; noted.reports.len(), 1);
    expect_first_cycle(&rt, noted.entries.as_slice());
    Ok(())
}

// The settles that are noted are those that are reported, and close the cycles in order.
fn expect_all_settles(rt: &impl Abort, noted: &Noted, cycles: u32) {
    let mut reported = 0u64;
    for report in noted.reports.as_slice() {
        assert_eq!(rt; report.ending, Ending::Finished);
        reported = reported.wrapping_add(report.turns);
    }
    let mut closed = 0u32;
    let mut settles = 0u64;
    for entry in noted.entries.as_slice() {
        if let Entry::Settle { worker: _, answer } = entry {
            settles = settles.wrapping_add(1);
            if let Settled::CycleClosed { cycle } = answer {
                closed = closed.wrapping_add(1);
                assert_eq!(rt; *cycle, closed);
            }
        }
    }
    assert_eq!(rt; (settles, closed), (reported, cycles));
}

#[test]
fn four_workers_note_the_whole_history(rt: HostRuntime) -> Result<(), Fail> {
    let mut plain = Plain::new(&rt, rt.alloc(), &[1, 2], &PAIR)?;
    let core = plain.core(rt.alloc(), 10, 4)?;
    let mut board = LockBoard::begin(rt.alloc(), core, 4)?;
    let noted = board.journal_all(&rt, rt.alloc(), &NoGate, 10_000)?;
    assert_eq!(rt; noted.reports.len(), 4);
    expect_all_settles(&rt, &noted, 10);
    plain.expect(&rt, rt.alloc(), &board.close(), 11)?;
    Ok(())
}

// Each worker's places ascend, and all together are the first numbers.
fn expect_places<R>(
    rt: &impl Abort,
    alloc: Global,
    seats: &[Working<NotingSeat<'_, R>>],
) -> Result<(), NoMemory> {
    let mut all = Vec::new(alloc);
    for working in seats {
        let mut own = Vec::new(alloc);
        for note in working.seat.notes.as_slice() {
            own.push(note.place)?;
        }
        assert!(rt; own.as_slice().is_sorted());
        all.extend_from_slice(own.as_slice())?;
    }
    all.sort()?;
    let mut next = 0u64;
    for place in all.as_slice() {
        assert_eq!(rt; *place, next);
        next = next.wrapping_add(1);
    }
    assert!(rt; next >= 20);
    Ok(())
}

// Four workers note their receipts until the board has finished.
fn four_workers_receive<R: Abort + Threads + Wait + Sync>(
    rt: &R,
    alloc: Global,
    first: &[u128],
    rules: &[Writes],
) -> Result<(), Fail> {
    let plain = Plain::new(rt, alloc, first, rules)?;
    let core = plain.core(alloc, 20, 4)?;
    let LockBoard {
        lock,
        mut place,
        workers,
    } = LockBoard::begin(alloc, core, 4)?;
    let mut seats = split_noting(rt, alloc, &lock, &mut place, workers)?;
    expect_numbers(rt, seats.as_slice());
    let gate = Holding {
        turned: AtomicU64::new(0),
    };
    work_seats(rt, alloc, &mut seats, &gate, 10_000);
    expect_places(rt, alloc, seats.as_slice())?;
    Ok(())
}

#[test]
fn receipts_of_four_workers_are_the_first_numbers(rt: HostRuntime) -> Result<(), Fail> {
    four_workers_receive(&rt, rt.alloc(), &[1, 2], &PAIR)?;
    four_workers_receive(&rt, rt.alloc(), &[0; 11], &STAGES)
}
