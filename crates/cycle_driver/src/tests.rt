//! Tests with boards of their own, which work by themselves or are begun round another core.

ghost use Rattle.std.specs.Prelude.{◌≡◌, ◌≤◌, [], ◌∷◌, IfOk, map};
ghost use Rattle.std.specs.Arc.{arc_value};
ghost use Rattle.kw_bits.specs.Laws.{HasWidth};
ghost use Rattle.typed_core.specs.Widths.{HaveWidths, register_widths};

use super::{run_batch, run_threaded};
use attempt_log::{Gate, JobAnswer, NoGate, Report, attempt};
use board_core::{Board, Core};
use kw_bits::{Bits, NoMemory, Sequence, Text};
use one_rule::{Externs, Regs, Row, Rows, Stimulus, Workload};
use std::alloc::Global;
use std::process::Abort;
use std::sync::atomic::{AtomicU64, Ordering};
use std::sync::{Arc, Wait};
use std::test::*;
use std::thread::Threads;
use typed_core::{Action, Design, Next, Node, Parts, RegDecl, Rule, TwoOp};

const MEMORY: &str = "memory";

// A number of 8 bits.
fn byte(number: u8) -> Result<Bits, NoMemory>
    ensures { IfOk result (λ bits. HasWidth bits 8) }
{
    match Bits::new(8, u128::from(number)) {
        Some(bits) => Ok(bits),
        None => Err(NoMemory),
    }
}

// One register with this first value.
fn registers(alloc: Global, first: u8) -> Result<Sequence<RegDecl>, NoMemory>
    ensures { IfOk result (λ registers. map (λ decl. decl.width) registers ≡ 8 ∷ []) }
{
    let register = RegDecl {
        name: Text::new(alloc),
        width: 8,
        first: byte(first)?,
    };
    let mut registers = Sequence::new(alloc);
    registers.push(register)?;
    Ok(registers)
}

// Writes one more than it reads.
fn one_more(alloc: Global) -> Result<Action, NoMemory> {
    let one = Box::new(alloc, Action::Const(byte(1)?))?;
    let old = Box::new(alloc, Action::Read(0, 0))?;
    let sum = Box::new(alloc, Action::Two(TwoOp::Add, old, one))?;
    Ok(Action::Write(0, 0, sum))
}

// One rule, which adds 1 to the register.
fn rules(alloc: Global) -> Result<Sequence<Rule>, NoMemory> {
    let rule = Rule {
        name: Text::new(alloc),
        body: one_more(alloc)?,
    };
    let mut rules = Sequence::new(alloc);
    rules.push(rule)?;
    Ok(rules)
}

// It is tried in every cycle.
fn nodes(alloc: Global) -> Result<Sequence<Node>, NoMemory> {
    let mut nodes = Sequence::new(alloc);
    nodes.push(Node {
        rule: 0,
        yes: Next::End,
        no: Next::End,
    })?;
    Ok(nodes)
}

// The counter. There is always one: its parts are valid.
fn counter(alloc: Global, first: u8) -> Result<Design, NoMemory>
    ensures inputs { IfOk result (λ design. design.inputs ≡ []) }
    ensures hosts { IfOk result (λ design. design.hosts ≡ []) }
    ensures widths { IfOk result (λ design. register_widths design ≡ 8 ∷ []) }
{
    let regs = registers(alloc, first)?;
    let rules = rules(alloc)?;
    let nodes = nodes(alloc)?;
    let parts = Parts {
        regs,
        inputs: Sequence::new(alloc),
        tables: Sequence::new(alloc),
        hosts: Sequence::new(alloc),
        rules,
        nodes,
    };
    match Design::new(parts) {
        Some(design) => Ok(design),
        None => Err(NoMemory),
    }
}

// The counter's register with this value.
fn count_of(alloc: Global, count: u8) -> Result<Regs, NoMemory>
    ensures { IfOk result (HaveWidths (8 ∷ [])) }
{
    let mut regs = Regs::new(alloc);
    regs.push(byte(count)?)?;
    Ok(regs)
}

// What a run is made of, and the registers that it goes on from.
#[derive(Drop)]
struct Setting {
    workload: Workload,
    regs: Regs,
    ghost regs_fit: { HaveWidths (register_widths (arc_value workload.design)) regs },
}

// The counter from one number, which has come to another.
fn setting_of(alloc: Global, first: u8, count: u8) -> Result<Setting, NoMemory> {
    let design = counter(alloc, first)?;
    let externs = Externs::new(alloc, &design, &[])?;
    let stimulus = Stimulus::new(alloc, Vec::new(alloc));
    let regs = count_of(alloc, count)?;
    let workload = Workload {
        design: Arc::new(alloc, design)?,
        externs: Arc::new(alloc, externs)?,
        stimulus: Arc::new(alloc, stimulus)?,
    };
    Ok(Setting { workload, regs })
}

// A core of two cycles of a counter from this number.
fn core_of(alloc: Global, first: u8) -> Result<Core, NoMemory> {
    let Setting { workload, regs } = setting_of(alloc, first, first)?;
    let Workload {
        design,
        externs,
        stimulus,
    } = workload;
    Core::begin(alloc, design, externs, stimulus, regs, 0, 2, 4)
}

// A board that drops its core and keeps another, on which nothing is done.
#[derive(Drop)]
struct StrayBoard {
    core: Core,
}

impl Board for StrayBoard {
    ghost use Rattle.std.specs.Prelude.{false};

    ghost tells = { false };

    ghost opening = { λ b. b.core.opening };

    ghost has_worked = { λ turns v w reports. Unit {0} };

    ghost is_untouched = { λ v w. Unit {0} };

    fn begin(alloc: Global, core: Core, _workers: u32) -> Result<StrayBoard, NoMemory> {
        drop(core);
        let core = core_of(alloc, 255)?;
        Ok(StrayBoard { core })
    }

    fn work_all<R: Threads + Wait + Sync>(
        &mut self,
        _rt: &R,
        alloc: Global,
        _gate: &(dyn Gate + Sync),
        _turns: u64,
    ) -> Result<Vec<Report>, NoMemory> {
        Ok(Vec::new(alloc))
    }

    fn close(self) -> Core {
        self.core
    }
}

// The cycle of a core's job for this pick, or 0 if it has none.
fn cycle_of(core: &Core, pick: u64) -> Result<u32, NoMemory> {
    match core.job(pick)? {
        JobAnswer::Job(job) => Ok(job.cycle),
        JobAnswer::Idle | JobAnswer::Finished => Ok(0),
    }
}

// How many cycles a core has jobs for, of a design with one rule.
fn cycles_ahead(core: &Core) -> Result<u32, NoMemory> {
    let head = cycle_of(core, 0)?;
    if head == 0 {
        return Ok(0);
    }
    for pick in 1..17_u32 {
        if cycle_of(core, u64::from(pick))? == head {
            return Ok(pick);
        }
    }
    Ok(17)
}

// Does and submits the job for this pick, if there is one, and settles.
fn take_turn(alloc: Global, core: &mut Core, pick: u64) -> Result<(), NoMemory>
    ensures { core.new.opening ≡ core.old.opening }
{
    if let JobAnswer::Job(job) = core.job(pick)? {
        let made = attempt(alloc, &job)?;
        let _ = core.submit(made);
    }
    core.settle();
    Ok(())
}

// A board that takes one turn for each worker, all by itself, so that attempts are left that were made on registers of
// earlier cycles. It tells its gate for how many workers, turns and cycles ahead it was begun.
#[derive(Drop)]
struct LoneBoard {
    core: Core,
    workers: u32,
}

impl Board for LoneBoard {
    ghost use Rattle.std.specs.Prelude.{true};

    ghost tells = { true };

    ghost opening = { λ b. b.core.opening };

    ghost has_worked = { λ turns v w reports. Unit {0} };

    ghost is_untouched = { λ v w. Unit {0} };

    fn begin(_alloc: Global, core: Core, workers: u32) -> Result<LoneBoard, NoMemory> {
        Ok(LoneBoard { core, workers })
    }

    fn work_all<R: Threads + Wait + Sync>(
        &mut self,
        _rt: &R,
        alloc: Global,
        gate: &(dyn Gate + Sync),
        turns: u64,
    ) -> Result<Vec<Report>, NoMemory> {
        gate.before(self.workers, turns);
        gate.after(cycles_ahead(&self.core)?, 0);
        for turn in 0..self.workers {
            take_turn(alloc, &mut self.core, u64::from(turn))?;
        }
        Ok(Vec::new(alloc))
    }

    fn close(self) -> Core {
        self.core
    }
}

// Keeps the numbers that it was last called with.
#[derive(Drop)]
struct Noting {
    workers: AtomicU64,
    turns: AtomicU64,
    ahead: AtomicU64,
}

impl Noting {
    fn new() -> Noting {
        Noting {
            workers: AtomicU64::new(0),
            turns: AtomicU64::new(0),
            ahead: AtomicU64::new(0),
        }
    }
}

impl Gate for Noting {
    fn before(&self, worker: u32, turn: u64) {
        self.workers.store(u64::from(worker), Ordering::SeqCst);
        self.turns.store(turn, Ordering::SeqCst);
    }

    fn after(&self, worker: u32, _turn: u64) {
        self.ahead.store(u64::from(worker), Ordering::SeqCst);
    }
}

// The rows count up from a number, and the rule fires in all but the first.
fn assert_counts(rt: &impl Abort, rows: &[Row], first: u8, cycles: u8) {
    assert_eq!(rt; rows.len(), usize::from(cycles) + 1);
    for (cycle, row) in rows.iter().enumerate() {
        let count = byte(first.wrapping_add(cycle as u8)).expect(rt, MEMORY);
        assert_eq!(rt; row.regs.as_slice(), [count].as_slice());
        assert_eq!(rt; row.fired.as_slice(), [cycle > 0].as_slice());
    }
}

// The rows that workers make of a counter from this number.
fn threaded<B: Board, R: Abort + Threads + Wait + Sync>(
    rt: &R,
    alloc: Global,
    first: u8,
    n: u32,
    workers: u32,
    gate: &(dyn Gate + Sync),
) -> Rows
    requires last { n ≤ 1000 }
    requires some { 1 ≤ workers }
    requires most { workers ≤ 64 }
{
    let Setting { workload, .. } = setting_of(alloc, first, first).expect(rt, MEMORY);
    let Workload {
        design,
        externs,
        stimulus,
    } = workload;
    run_threaded::<B, R>(rt, alloc, design, externs, stimulus, n, workers, gate).expect(rt, MEMORY)
}

// The cycles from one to another of a counter from 0 that has come to a number.
#[derive(Clone, Copy)]
struct Stretch {
    count: u8,
    from: u32,
    to: u32,
}

// The rows that workers make of a stretch.
fn batch<B: Board, R: Abort + Threads + Wait + Sync>(
    rt: &R,
    alloc: Global,
    stretch: Stretch,
    workers: u32,
    gate: &(dyn Gate + Sync),
) -> Rows
    requires order { stretch.from ≤ stretch.to }
    requires last { stretch.to ≤ 1000 }
    requires some { 1 ≤ workers }
    requires most { workers ≤ 64 }
{
    let Stretch { count, from, to } = stretch;
    let Setting { workload, regs } = setting_of(alloc, 0, count).expect(rt, MEMORY);
    let Workload {
        design,
        externs,
        stimulus,
    } = workload;
    run_batch::<B, R>(
        rt, alloc, design, externs, stimulus, regs, from, to, workers, gate,
    )
    .expect(rt, MEMORY)
}

#[test]
fn rows_are_those_of_the_closed_core(rt: HostRuntime) {
    let rows = threaded::<StrayBoard, HostRuntime>(&rt, rt.alloc(), 0, 2, 1, &NoGate);
    assert_counts(&rt, rows.as_slice(), 255, 2);
    let two = Stretch {
        count: 0,
        from: 0,
        to: 2,
    };
    let rows = batch::<StrayBoard, HostRuntime>(&rt, rt.alloc(), two, 1, &NoGate);
    assert_counts(&rt, rows.as_slice(), 255, 2);
}

#[test]
fn what_a_board_leaves_is_finished(rt: HostRuntime) {
    for workers in [1, 2, 3, 5, 8, 13, 64] {
        let gate = Noting::new();
        let rows = threaded::<LoneBoard, HostRuntime>(&rt, rt.alloc(), 250, 9, workers, &gate);
        assert_counts(&rt, rows.as_slice(), 250, 9);
        assert_eq!(rt; gate.workers.load(Ordering::SeqCst), u64::from(workers));
        assert_eq!(rt; gate.turns.load(Ordering::SeqCst), 88);
        assert_eq!(rt; gate.ahead.load(Ordering::SeqCst), 4);
    }
}

#[test]
fn a_batch_goes_on_from_its_registers(rt: HostRuntime) {
    // The first cycle that is run before, the last one, and the turns of each worker.
    for (from, to, turns) in [(0, 3, 40), (7, 7, 16), (254, 259, 56)] {
        let gate = Noting::new();
        let count = 100;
        let later = Stretch { count, from, to };
        let rows = batch::<LoneBoard, HostRuntime>(&rt, rt.alloc(), later, 3, &gate);
        assert_counts(&rt, rows.as_slice(), 100, (to - from) as u8);
        assert_eq!(rt; gate.turns.load(Ordering::SeqCst), turns);
    }
}
