//! Tests on boards of two rules, of which one sends a number and the other copies it.

ghost use Rattle.std.specs.Prelude.{◌≡◌, ◌≤◌, [], ◌∷◌, map};
ghost use Rattle.kw_bits.specs.Laws.{HasWidth};
ghost use Rattle.typed_core.specs.Widths.{HaveWidths, input_widths};
ghost use Rattle.attempt_log.specs.Seats.{IfJob};
ghost use Rattle.attempt_log.specs.Setting.{FitsItself};

use crate::answer::SharedSubmitted;
use crate::count::SeatCount;
use crate::locked::Locked;
use crate::shared::{SharedBoard, SharedSeat};
use attempt_log::{Attempt, JobAnswer, attempt};
use board_core::Core;
use kw_bits::{Bits, NoMemory, Sequence, Text};
use one_rule::{Externs, Inputs, Stimulus, first_values};
use std::alloc::{AllocError, Global};
use std::marker::Brand;
use std::process::Abort;
use std::sync::ledger::{Blank, Ledger};
use std::sync::{Arc, Wait};
use std::test::*;
use std::thread;
use std::thread::Threads;
use typed_core::{Action, Design, InputDecl, Next, Node, Parts, RegDecl, Rule};

const MEMORY: &str = "memory";

fn bits(rt: &impl Abort, number: u128) -> Bits
    ensures { HasWidth result 8 }
{
    Bits::new(8, number).expect(rt, "a bit vector")
}

// Two registers, of 1 and 2.
fn registers(rt: &impl Abort, alloc: Global) -> Sequence<RegDecl> {
    let mut registers = Sequence::new(alloc);
    for first in [1, 2] {
        let register = RegDecl {
            name: Text::new(alloc),
            width: 8,
            first: bits(rt, first),
        };
        registers.push(register).expect(rt, MEMORY);
    }
    registers
}

// One input.
fn inputs(rt: &impl Abort, alloc: Global) -> Sequence<InputDecl>
    ensures { map (λ decl. decl.width) result ≡ 8 ∷ [] }
{
    let input = InputDecl {
        name: Text::new(alloc),
        width: 8,
    };
    let mut inputs = Sequence::new(alloc);
    inputs.push(input).expect(rt, MEMORY);
    inputs
}

fn rule_that_writes(rt: &impl Abort, alloc: Global, register: u32, value: Action) -> Rule {
    let value = Box::new(alloc, value).expect(rt, MEMORY);
    Rule {
        name: Text::new(alloc),
        body: Action::Write(0, register, value),
    }
}

// One rule writes the number to register 1, and the next copies it to register 0.
fn rules(rt: &impl Abort, alloc: Global, number: u128) -> Sequence<Rule> {
    let mut rules = Sequence::new(alloc);
    let sends = rule_that_writes(rt, alloc, 1, Action::Const(bits(rt, number)));
    rules.push(sends).expect(rt, MEMORY);
    let copies = rule_that_writes(rt, alloc, 0, Action::Read(1, 1));
    rules.push(copies).expect(rt, MEMORY);
    rules
}

fn nodes(rt: &impl Abort, alloc: Global) -> Sequence<Node> {
    let mut nodes = Sequence::new(alloc);
    for (rule, next) in [(0, Next::Node(1)), (1, Next::End)] {
        let node = Node {
            rule,
            yes: next,
            no: next,
        };
        nodes.push(node).expect(rt, MEMORY);
    }
    nodes
}

fn design_that_sends(rt: &impl Abort, alloc: Global, number: u128) -> Design
    ensures inputs { input_widths result ≡ 8 ∷ [] }
    ensures hosts { result.hosts ≡ [] }
{
    let parts = Parts {
        regs: registers(rt, alloc),
        inputs: inputs(rt, alloc),
        tables: Sequence::new(alloc),
        hosts: Sequence::new(alloc),
        rules: rules(rt, alloc, number),
        nodes: nodes(rt, alloc),
    };
    Design::new(parts).expect(rt, "a valid design")
}

// A core of a design that sends this number, before its first cycle.
fn core_that_sends(rt: &impl Abort, alloc: Global, number: u128, to: u32) -> Core
    requires { to ≤ 1000 }
    ensures { input_widths result.opening.design ≡ 8 ∷ [] }
{
    let design = design_that_sends(rt, alloc, number);
    let externs = Externs::new(alloc, &design, &[]).expect(rt, MEMORY);
    let regs = first_values(alloc, &design).expect(rt, MEMORY);
    let mut widths = Vec::new(alloc);
    widths.push(8).expect(rt, MEMORY);
    let stimulus = Stimulus::new(alloc, widths);
    let design = Arc::new(alloc, design).expect(rt, MEMORY);
    let externs = Arc::new(alloc, externs).expect(rt, MEMORY);
    let stimulus = Arc::new(alloc, stimulus).expect(rt, MEMORY);
    Core::begin(alloc, design, externs, stimulus, regs, 0, to, 1).expect(rt, MEMORY)
}

// The attempt of the job, if there is one.
fn made(alloc: Global, answer: JobAnswer) -> Result<Option<Attempt>, NoMemory>
    requires { IfJob answer FitsItself }
{
    match answer {
        JobAnswer::Job(job) => Ok(Some(attempt(alloc, &job)?)),
        JobAnswer::Idle | JobAnswer::Finished => Ok(None),
    }
}

// The attempt of the job, which there is.
fn attempt_of(rt: &impl Abort, alloc: Global, answer: JobAnswer) -> Attempt
    requires { IfJob answer FitsItself }
{
    made(alloc, answer).expect(rt, MEMORY).expect(rt, "a job")
}

fn name(answer: &SharedSubmitted) -> &'static str {
    match answer {
        SharedSubmitted::Stored => "stored",
        SharedSubmitted::Late(_) => "late",
        SharedSubmitted::Ahead(_) => "ahead",
        SharedSubmitted::Twice(_) => "twice",
        SharedSubmitted::Full(_) => "full",
        SharedSubmitted::Stranger(_) => "stranger",
    }
}

// Hands in the attempt of a seat's first job, which is at this rule.
fn hand_in<L: Ledger, R: Abort + Wait>(
    rt: &R,
    alloc: Global,
    seat: &mut SharedSeat<L, R>,
    rule: u32,
    want: &'static str,
) {
    let answer = seat.job(0).expect(rt, MEMORY);
    let attempt = attempt_of(rt, alloc, answer);
    assert_eq!(rt; attempt.rule(), rule);
    assert_eq!(rt; name(&seat.submit(attempt)), want);
}

// An attempt at the second rule of a design that sends 8.
fn stranger(rt: &impl Abort, alloc: Global) -> Attempt {
    let core = core_that_sends(rt, alloc, 8, 1);
    let answer = core.job(1).expect(rt, MEMORY);
    let attempt = attempt_of(rt, alloc, answer);
    assert_eq!(rt; attempt.rule(), 1);
    attempt
}

// The value of the one input.
fn input_of(rt: &impl Abort, alloc: Global, number: u128) -> Inputs
    ensures { HaveWidths (8 ∷ []) result }
{
    let mut inputs = Inputs::new(alloc);
    inputs.push(bits(rt, number)).expect(rt, MEMORY);
    inputs
}

// An attempt at the second rule of a design that sends 7, where the input is 5. No stimulus gives it a value.
fn stranger_by_inputs(rt: &impl Abort, alloc: Global) -> Attempt {
    let core = core_that_sends(rt, alloc, 7, 1);
    let JobAnswer::Job(mut job) = core.job(1).expect(rt, MEMORY) else {
        panic!(rt; "no job");
    };
    job.inputs = input_of(rt, alloc, 5);
    attempt(alloc, &job).expect(rt, MEMORY)
}

// A seat is taken and left again, which waits for nobody.
fn sit<L: Ledger>(rt: &impl Abort, board: &SharedBoard<L>, count: SeatCount<L>) -> SeatCount<L> {
    let seat = board.seat(rt, 5, count);
    assert_eq!(rt; seat.worker(), 5);
    seat.finish()
}

// What isn't for a full board is a stranger all the same. The attempt that it stored is counted where no count that is
// given back has it.
fn fill<L: Ledger, R: Abort + Wait>(rt: &R, alloc: Global, blank: Blank)
    requires name { blank.name ≡ L.name }
    requires parts { blank.parts ≡ L.parts }
    requires two { blank.parts ≡ 2 }
{
    let core = core_that_sends(rt, alloc, 7, 1);
    let mut counts = Vec::with_capacity(alloc, 1).expect(rt, MEMORY);
    let (board, mut count) = SharedBoard::<L>::new(blank, core, 1);
    let spare = count.split();
    counts.push_reserved(sit(rt, &board, spare));
    let mut seat = board.seat(rt, 5, count);
    hand_in(rt, alloc, &mut seat, 0, "stored");
    hand_in(rt, alloc, &mut seat, 1, "full");
    let of_another = stranger(rt, alloc);
    assert_eq!(rt; name(&seat.submit(of_another)), "stranger");
    let by_inputs = stranger_by_inputs(rt, alloc);
    assert_eq!(rt; name(&seat.submit(by_inputs)), "stranger");
    assert_eq!(rt; seat.finish().amount(), 1);
    assert_eq!(rt; sum_of(&counts), 0);
    assert_eq!(rt; board.stored(counts).1, 1);
}

#[test]
fn a_full_board_still_tells_strangers(rt: HostRuntime) {
    fill::<Brand, HostRuntime>(&rt, rt.alloc(), Blank::new(2));
}

fn ask<L: Ledger>(rt: &impl Abort, alloc: Global, blank: Blank)
    requires name { blank.name ≡ L.name }
    requires parts { blank.parts ≡ L.parts }
    requires some { 1 ≤ blank.parts }
{
    let core = core_that_sends(rt, alloc, 7, 1);
    let (locked, _) = Locked::<L>::new(blank, core, 1);
    let answer = locked.job(1).expect(rt, MEMORY);
    let copied = attempt_of(rt, alloc, answer);
    assert_eq!(rt; copied.cycle(), 1);
    assert_eq!(rt; copied.rule(), 1);
}

#[test]
fn a_locked_board_gives_jobs(rt: HostRuntime) {
    ask::<Brand>(&rt, rt.alloc(), Blank::new(1));
}

// Takes turns.
fn take_turns<L: Ledger, R: Wait>(alloc: Global, mut seat: SharedSeat<L, R>) -> SeatCount<L> {
    for turn in 0..300 {
        match seat.job(turn) {
            Ok(answer) => {
                if let Ok(Some(attempt)) = made(alloc, answer) {
                    let _ = seat.submit(attempt);
                }
            }
            Err(NoMemory) => {}
        }
        let _ = seat.settle();
    }
    seat.finish()
}

// Takes turns at each seat, in a thread of its own.
fn take_turns_at<L: Ledger + Send + Sync, R: Threads + Wait + Sync>(
    rt: &R,
    alloc: Global,
    seats: Vec<SharedSeat<L, R>>,
) -> Result<Vec<SeatCount<L>>, AllocError> {
    thread::map_vec(rt, seats, &|seat: SharedSeat<L, R>| take_turns(alloc, seat))
}

fn share<L: Ledger + Send + Sync, R: Abort + Threads + Wait + Sync>(
    rt: &R,
    alloc: Global,
    blank: Blank,
)
    requires name { blank.name ≡ L.name }
    requires parts { blank.parts ≡ L.parts }
    requires two { blank.parts ≡ 2 }
{
    let core = core_that_sends(rt, alloc, 7, 8);
    let (board, mut mine) = SharedBoard::<L>::new(blank, core, 1000);
    let mut seats = Vec::with_capacity(alloc, 2).expect(rt, MEMORY);
    let theirs = mine.split();
    seats.push_reserved(board.seat(rt, 0, mine));
    seats.push_reserved(board.seat(rt, 1, theirs));
    let counts = take_turns_at(rt, alloc, seats).expect(rt, MEMORY);
    let sum = sum_of(&counts);
    let (core, stored) = board.stored(counts);
    assert_eq!(rt; stored, sum);
    expect_sevens(rt, &core);
}

// What these counts add up to.
fn sum_of<L: Ledger>(counts: &Vec<SeatCount<L>>) -> u64 {
    let mut sum: u64 = 0;
    for count in counts {
        sum = sum.wrapping_add(count.amount());
    }
    sum
}

// Eight cycles are closed, and both registers are 7.
fn expect_sevens(rt: &impl Abort, core: &Core) {
    let rows = core.rows();
    assert_eq!(rt; rows.len(), 9);
    let seven = bits(rt, 7);
    assert_eq!(rt; rows[8].regs.as_slice(), [seven, seven].as_slice());
}

#[test]
fn the_counts_of_two_threads_add_up(rt: HostRuntime) {
    share::<Brand, HostRuntime>(&rt, rt.alloc(), Blank::new(2));
}
