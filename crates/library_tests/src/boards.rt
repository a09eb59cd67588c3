//! Boards of a small design: one interleaving event by event, guesses that go stale, and lists of events drawn at
//! random.

ghost use Rattle.std.specs.Prelude.{◌≡◌, ◌<◌, ◌≤◌, [], IfOk};
ghost use Rattle.std.specs.Arc.{arc_value};
ghost use Rattle.typed_core.specs.Valid.{externs_of};
ghost use Rattle.one_rule.specs.Externs.{kept};
ghost use Rattle.one_rule.specs.Stimulus.{StimulusFits};
ghost use Rattle.attempt_log.specs.Setting.{IsFor};
ghost use Rattle.board_core.specs.Board.{setting_of};

use crate::designs::{Listed, Place, Step, bits, design_of, events_of};
use crate::slow_board::{Kept, SlowBoard, Told};
use crate::threads::crosses_threads;
use attempt_log::{Attempt, Job, JobAnswer, Settled, Submitted, Taken, attempt};
use board_core::{BoardAnswer, BoardEvent, Core};
use kw_bits::NoMemory;
use one_rule::{Externs, Row, Stimulus, first_values};
use std::alloc::Global;
use std::process::Abort;
use std::sync::Arc;
use std::test::Fail;
use typed_core::{Design, Next, Outcome};

// What is done to a board, and what it answers.
#[derive(Clone, Copy)]
enum Move {
    // An attempt at a rule in a cycle that gave these events.
    Submit(u32, u32, &'static [Listed], Taken),
    Settle(Told),
    // A job is asked for by this number.
    Ask(u64, Given),
    // The job of this number is done, and its attempt submitted.
    HandIn(u64, Taken),
}

// What a board answers that is asked for a job.
#[derive(Clone, Copy)]
enum Given {
    // A rule in a cycle, on registers of these values.
    Job(u32, u32, [u128; 2]),
    Idle,
    Finished,
}

const SENDS: &[Listed] = &[(true, 0, 1, 7)];

const COPIES_2: &[Listed] = &[(false, 1, 1, 2), (true, 0, 0, 2)];

const COPIES_7: &[Listed] = &[(false, 1, 1, 7), (true, 0, 0, 7)];

const COPIES_255: &[Listed] = &[(false, 1, 1, 255), (true, 0, 0, 255)];

const MOVES: [Move; 14] = [
    Move::Submit(1, 1, COPIES_2, Taken::Stored),
    Move::Submit(1, 1, COPIES_7, Taken::Twice),
    Move::Settle(Told::Waiting(0)),
    Move::Submit(1, 0, SENDS, Taken::Stored),
    Move::Settle(Told::Committed(0)),
    Move::Submit(1, 0, SENDS, Taken::Late),
    Move::Settle(Told::Stale(1, 1, 1, 2, 7)),
    Move::Settle(Told::Waiting(1)),
    Move::Submit(1, 1, COPIES_7, Taken::Stored),
    Move::Settle(Told::Committed(1)),
    Move::Settle(Told::Closed),
    Move::Settle(Told::Finished),
    Move::Submit(1, 0, SENDS, Taken::Late),
    Move::Submit(2, 0, SENDS, Taken::Ahead),
];

// The same by jobs. Where one candidate is left, every number is its.
const JOBS: [Move; 19] = [
    Move::Ask(0, Given::Job(1, 0, [1, 2])),
    Move::Ask(1, Given::Job(1, 1, [1, 2])),
    Move::HandIn(1, Taken::Stored),
    Move::Ask(1, Given::Job(1, 0, [1, 2])),
    Move::Submit(1, 1, COPIES_7, Taken::Twice),
    Move::Settle(Told::Waiting(0)),
    Move::HandIn(0, Taken::Stored),
    Move::Ask(0, Given::Idle),
    Move::Settle(Told::Committed(0)),
    Move::Settle(Told::Stale(1, 1, 1, 2, 7)),
    Move::Settle(Told::Waiting(1)),
    Move::Ask(0, Given::Job(1, 1, [1, 7])),
    Move::HandIn(0, Taken::Stored),
    Move::Settle(Told::Committed(1)),
    Move::Settle(Told::Closed),
    Move::Settle(Told::Finished),
    Move::Ask(0, Given::Finished),
    Move::Submit(1, 0, SENDS, Taken::Late),
    Move::Submit(2, 0, SENDS, Taken::Ahead),
];

// A board, with what it was begun with.
#[derive(Drop)]
struct Table {
    core: Core,
    design: Arc<Design>,
    externs: Arc<Externs>,
    stimulus: Arc<Stimulus>,
    ghost same_design: { core.opening.design ≡ arc_value design },
    ghost same_stimulus: { core.opening.stimulus ≡ arc_value stimulus },
    ghost stimulus_fits: { StimulusFits (arc_value design) (arc_value stimulus) },
    ghost externs_fit: { kept (arc_value externs) ≡ externs_of (arc_value design) },
}

#[tactic(auto, using(attempt_log::proofs::Alike::same_by_equal))]
fn attempt_of(
    rt: &impl Abort,
    alloc: Global,
    table: &Table,
    cycle: u32,
    rule: u32,
    listed: &[Listed],
) -> Result<Attempt, NoMemory>
    ensures { IfOk result (IsFor (setting_of table.now.core.opening)) }
{
    assert!(rt; (rule as usize) < table.design.rules.len());
    let events = events_of(rt, alloc, listed)?;
    let inputs = table.stimulus.inputs(cycle)?;
    let design = Arc::try_clone(&table.design)?;
    let made = Attempt::of_trace(
        alloc,
        design,
        &table.externs,
        cycle,
        rule,
        inputs,
        events,
        Outcome::Done,
    )?;
    Ok(made.expect(rt, "a trace"))
}

fn taken(answer: &Submitted) -> Taken {
    match answer {
        Submitted::Stored => Taken::Stored,
        Submitted::Late(_) => Taken::Late,
        Submitted::Ahead(_) => Taken::Ahead,
        Submitted::Twice(_) => Taken::Twice,
    }
}

fn summary(answer: Settled) -> Told {
    match answer {
        Settled::Committed { rule, .. } => Told::Committed(rule),
        Settled::Skipped { rule, .. } => Told::Skipped(rule),
        Settled::Stale { rule, read, .. } => Told::Stale(
            rule,
            read.register,
            read.port,
            read.held.number(),
            read.now.number(),
        ),
        Settled::CycleClosed { .. } => Told::Closed,
        Settled::Waiting { rule, .. } => Told::Waiting(rule),
        Settled::Finished => Told::Finished,
    }
}

// Submits an attempt, and expects this answer.
fn submit(rt: &impl Abort, table: &mut Table, made: Attempt, want: Taken)
    requires { IsFor (setting_of table.old.core.opening) made }
{
    let answer = table.core.submit(made);
    assert_eq!(rt; taken(&answer), want);
}

// Asks for a job by this number.
fn ask(rt: &impl Abort, table: &Table, pick: u64, want: Given) -> Result<(), NoMemory> {
    let answer = table.core.job(pick)?;
    match want {
        Given::Job(cycle, rule, values) => match &answer {
            JobAnswer::Job(job) => expect_job(rt, job, cycle, rule, values),
            _ => assert!(rt; false),
        },
        Given::Idle => assert!(rt; matches!(&answer, JobAnswer::Idle)),
        Given::Finished => assert!(rt; matches!(&answer, JobAnswer::Finished)),
    }
    Ok(())
}

fn expect_job(rt: &impl Abort, job: &Job, cycle: u32, rule: u32, values: [u128; 2]) {
    assert_eq!(rt; (job.cycle, job.rule), (cycle, rule));
    let regs = [bits(rt, values[0]), bits(rt, values[1])];
    assert_eq!(rt; job.regs.as_slice(), regs.as_slice());
}

// Does the job of this number, and submits its attempt.
fn hand_in(
    rt: &impl Abort,
    alloc: Global,
    table: &mut Table,
    pick: u64,
    want: Taken,
) -> Result<(), NoMemory> {
    if let JobAnswer::Job(job) = table.core.job(pick)? {
        let made = attempt(alloc, &job)?;
        submit(rt, table, made, want);
    } else {
        assert!(rt; false);
    }
    Ok(())
}

fn make(rt: &impl Abort, alloc: Global, table: &mut Table, made: Move) -> Result<(), NoMemory> {
    match made {
        Move::Submit(cycle, rule, listed, want) => {
            let made = attempt_of(rt, alloc, table, cycle, rule, listed)?;
            submit(rt, table, made, want);
        }
        Move::Settle(want) => assert_eq!(rt; summary(table.core.settle()), want),
        Move::Ask(pick, want) => ask(rt, table, pick, want)?,
        Move::HandIn(pick, want) => hand_in(rt, alloc, table, pick, want)?,
    }
    Ok(())
}

fn begin(alloc: Global, design: Design, to: u32, window: u32) -> Result<Table, NoMemory>
    requires inputs { design.inputs ≡ [] }
    requires hosts { design.hosts ≡ [] }
    requires last { to ≤ 1000 }
    requires window { 1 ≤ window }
    requires few_ahead { window ≤ 16 }
{
    let externs = Externs::new(alloc, &design, &[])?;
    let regs = first_values(alloc, &design)?;
    let design = Arc::new(alloc, design)?;
    let externs = Arc::new(alloc, externs)?;
    let stimulus = Arc::new(alloc, Stimulus::new(alloc, Vec::new(alloc)))?;
    let core = Core::begin(
        alloc,
        Arc::try_clone(&design)?,
        Arc::try_clone(&externs)?,
        Arc::try_clone(&stimulus)?,
        regs,
        0,
        to,
        window,
    )?;
    Ok(Table {
        core,
        design,
        externs,
        stimulus,
    })
}

// Settles the head, or does its job where no attempt stands for it.
fn settle_or_do(alloc: Global, core: &mut Core) -> Result<(), NoMemory> {
    if let Settled::Waiting { .. } = core.settle() {
        if let JobAnswer::Job(job) = core.job(0)? {
            let made = attempt(alloc, &job)?;
            let _ = core.submit(made);
        }
    }
    Ok(())
}

// One rule writes 7 to register 1, and the next copies it to register 0.
fn sends_and_copies(rt: &impl Abort, alloc: Global, to: u32, window: u32) -> Result<Table, NoMemory>
    requires last { to ≤ 1000 }
    requires window { 1 ≤ window }
    requires few_ahead { window ≤ 16 }
{
    let rules: [&[Step]; 2] = [&[Step::Put(0, 1, 7)], &[Step::Copy(0, 0, 1, 1)]];
    let nodes = [(0, Next::Node(1), Next::Node(1)), (1, Next::End, Next::End)];
    let design = design_of(rt, alloc, &[1, 2], &rules, &nodes)?;
    begin(alloc, design, to, window)
}

fn assert_sevens(rt: &impl Abort, row: &Row) {
    let seven = bits(rt, 7);
    assert_eq!(rt; row.regs.as_slice(), [seven, seven].as_slice());
    assert_eq!(rt; row.fired.as_slice(), [true, true].as_slice());
}

#[test]
fn jobs_come_in_order_and_are_counted_round(rt: HostRuntime) -> Result<(), Fail> {
    let mut table = sends_and_copies(&rt, rt.alloc(), 1, 1)?;
    for made in JOBS {
        make(&rt, rt.alloc(), &mut table, made)?;
    }
    Ok(())
}

#[test]
fn later_cycles_come_after_the_current_one(rt: HostRuntime) -> Result<(), Fail> {
    let table = sends_and_copies(&rt, rt.alloc(), 3, 2)?;
    for (pick, cycle, rule) in [(0, 1, 0), (1, 1, 1), (2, 2, 0), (3, 2, 1), (4, 1, 0)] {
        ask(&rt, &table, pick, Given::Job(cycle, rule, [1, 2]))?;
    }
    Ok(())
}

#[test]
fn a_stale_copy_is_made_again(rt: HostRuntime) -> Result<(), Fail> {
    let mut table = sends_and_copies(&rt, rt.alloc(), 1, 1)?;
    for made in MOVES {
        make(&rt, rt.alloc(), &mut table, made)?;
    }
    let rows = table.core.rows();
    assert_eq!(&rt; rows.len(), 2);
    assert_sevens(&rt, &rows[1]);
    Ok(())
}

#[test]
fn guesses_leave_the_rows_of_the_run(rt: HostRuntime) -> Result<(), Fail> {
    let mut table = sends_and_copies(&rt, rt.alloc(), 3, 2)?;
    for (cycle, want) in [(1, Taken::Stored), (2, Taken::Stored), (3, Taken::Ahead)] {
        let sent = Move::Submit(cycle, 0, SENDS, want);
        let copied = Move::Submit(cycle, 1, COPIES_255, want);
        make(&rt, rt.alloc(), &mut table, sent)?;
        make(&rt, rt.alloc(), &mut table, copied)?;
    }
    let Table {
        mut core,
        design: _design,
        externs: _externs,
        stimulus: _stimulus,
    } = table;
    for _ in 0..24 {
        settle_or_do(rt.alloc(), &mut core)?;
    }
    assert_eq!(&rt; summary(core.settle()), Told::Finished);
    let rows = core.rows();
    assert_eq!(&rt; rows.len(), 4);
    for row in &rows[1..] {
        assert_sevens(&rt, row);
    }
    Ok(())
}

// Numbers that look like any: Knuth's linear congruential generator, MMIX.
#[derive(Drop)]
struct Dice {
    last: u64,
}

impl Dice {
    fn roll(&mut self, sides: u64) -> u64
        requires { 1 ≤ sides }
        ensures { result < sides }
    {
        self.last = self
            .last
            .wrapping_mul(6_364_136_223_846_793_005)
            .wrapping_add(1_442_695_040_888_963_407);
        (self.last >> 33) % sides
    }
}

// Rules that read and write three registers in turn at ports of their own.
const TURNS: [&[Step]; 4] = [
    &[Step::Next(0, 0, 0, 0)],
    &[Step::Copy(1, 1, 1, 0)],
    &[Step::Next(0, 2, 0, 1), Step::Copy(3, 0, 1, 2)],
    &[Step::Next(1, 2, 1, 1), Step::Abort],
];

// The node after this one by that many, or the end.
fn next(number: u32, by: u32, nodes: u32) -> Next {
    if by < nodes && number < nodes - by {
        Next::Node(number + by)
    } else {
        Next::End
    }
}

// That many rules, each of which goes on to the next two.
fn ladder(rt: &impl Abort, alloc: Global, rules: u32) -> Result<Design, NoMemory>
    ensures inputs { IfOk result (λ design. design.inputs ≡ []) }
    ensures hosts { IfOk result (λ design. design.hosts ≡ []) }
{
    let mut steps: Vec<&'static [Step]> = Vec::new(alloc);
    let mut nodes: Vec<Place> = Vec::new(alloc);
    for rule in 0..rules {
        steps.push(TURNS[(rule % 4) as usize])?;
        nodes.push((rule, next(rule, 1, rules), next(rule, 2, rules)))?;
    }
    design_of(rt, alloc, &[1, 2, 3], steps.as_slice(), nodes.as_slice())
}

// The attempt at a rule in a cycle that is made on the first values.
#[tactic(auto, using(attempt_log::proofs::Alike::same_by_equal))]
fn guess(
    rt: &impl Abort,
    alloc: Global,
    table: &Table,
    cycle: u32,
    rule: u32,
) -> Result<Attempt, NoMemory>
    ensures { IfOk result (IsFor (setting_of table.now.core.opening)) }
{
    assert!(rt; (rule as usize) < table.design.rules.len());
    let job = Job {
        design: Arc::try_clone(&table.design)?,
        externs: Arc::try_clone(&table.externs)?,
        cycle,
        rule,
        inputs: table.stimulus.inputs(cycle)?,
        regs: first_values(alloc, &table.design)?,
    };
    attempt(alloc, &job)
}

fn submit_to_both(
    rt: &impl Abort,
    alloc: Global,
    table: &mut Table,
    slow: &mut SlowBoard,
    made: Attempt,
) -> Result<(), NoMemory>
    requires { IsFor (setting_of table.old.core.opening) made }
{
    let kept = Kept::of(alloc, &made)?;
    let answer = table.core.submit(made);
    assert_eq!(rt; taken(&answer), slow.submit(kept)?);
    Ok(())
}

// Makes an event on both boards: it settles, or submits the attempt of a job, or a guess.
fn play(
    rt: &impl Abort,
    alloc: Global,
    table: &mut Table,
    slow: &mut SlowBoard,
    dice: &mut Dice,
) -> Result<(), NoMemory> {
    match dice.roll(4) {
        0 | 1 => assert_eq!(rt; summary(table.core.settle()), slow.settle(rt)?),
        2 => {
            if let JobAnswer::Job(job) = table.core.job(dice.roll(3))? {
                let made = attempt(alloc, &job)?;
                submit_to_both(rt, alloc, table, slow, made)?;
            }
        }
        _ => {
            let cycle = dice.roll(24) as u32;
            let rule = dice.roll(table.design.rules.len().max(1) as u64) as u32;
            let made = guess(rt, alloc, table, cycle, rule)?;
            submit_to_both(rt, alloc, table, slow, made)?;
        }
    }
    assert_eq!(rt; table.core.regs().as_slice(), slow.regs());
    Ok(())
}

// Boards of that many rules, with a window, on that many events drawn at random.
#[test]
fn events_at_random_are_answered_as_by_lists(rt: HostRuntime) -> Result<(), Fail> {
    let mut dice = Dice { last: 1 };
    for (rules, window, events) in [(3, 1, 400), (4, 3, 400), (9, 16, 2_000), (256, 16, 4_000)] {
        let design = ladder(&rt, rt.alloc(), rules)?;
        let mut table = begin(rt.alloc(), design, 20, window)?;
        let mut slow = SlowBoard::begin(rt.alloc(), &table.design, 20, window)?;
        for _ in 0..events {
            play(&rt, rt.alloc(), &mut table, &mut slow, &mut dice)?;
        }
    }
    Ok(())
}

#[test]
fn a_list_of_events_is_answered(rt: HostRuntime) -> Result<(), Fail> {
    let mut table = sends_and_copies(&rt, rt.alloc(), 1, 1)?;
    let events = vec![in rt.alloc(); BoardEvent::Settle]?;
    let answers = table.core.run_events(events)?;
    for answer in &answers {
        if let BoardAnswer::Settle(told) = answer {
            assert_eq!(rt; summary(*told), Told::Waiting(0));
        }
    }
    assert_eq!(rt; answers.len(), 1);
    assert_eq!(rt; (table.core.first(), table.core.last()), (0, 1));
    assert_eq!(rt; table.core.into_rows().len(), 1);
    Ok(())
}

#[test]
fn attempts_cross_threads(rt: HostRuntime) -> Result<(), Fail> {
    let table = sends_and_copies(&rt, rt.alloc(), 1, 1)?;
    let JobAnswer::Job(job) = table.core.job(0)? else {
        return Err("no job".into());
    };
    let made = attempt(rt.alloc(), &job)?;
    crosses_threads(&job);
    crosses_threads(&made);
    assert_eq!(rt; (made.cycle(), made.rule()), (1, 0));
    Ok(())
}

#[test]
fn a_core_crosses_threads(rt: HostRuntime) -> Result<(), Fail> {
    let table = sends_and_copies(&rt, rt.alloc(), 1, 1)?;
    crosses_threads(&table.core);
    Ok(())
}
