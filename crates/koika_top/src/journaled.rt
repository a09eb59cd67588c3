//! Journals: a batch that workers run, and all that was done at its board.

ghost use Rattle.std.specs.Prelude.{◌≡◌, ◌≤◌, ◌<◌, ◌++◌, ◌∷◌, [], true, false, IfOk, OnOk};
ghost use Rattle.std.specs.Arc.{arc_value};
ghost use Rattle.typed_core.specs.Valid.{externs_of};
ghost use Rattle.typed_core.specs.Widths.{HaveWidths, register_widths};
ghost use Rattle.one_rule.specs.Cycle.{system_of};
ghost use Rattle.one_rule.specs.Externs.{kept};
ghost use Rattle.one_rule.specs.Rows.{RowsFit};
ghost use Rattle.one_rule.specs.Run.{run};
ghost use Rattle.one_rule.specs.Stimulus.{StimulusFits, inputs_of};
ghost use Rattle.attempt_log.specs.Entries.{goes_on, settle_entry};
ghost use Rattle.attempt_log.specs.Setting.{IsFor};
ghost use Rattle.board_core.specs.Board.{setting_of, settle, submit};
ghost use Rattle.board_core.specs.History.{IsLegal};
ghost use Rattle.board_core.specs.Kept.{AtPlain, Does, left};
ghost use Rattle.board_core.specs.declared.event.BoardAnswer.TheVariants as answer;
ghost use Rattle.board_core.specs.declared.kept.TheConstants.{MAX_CYCLES};
ghost use Rattle.board_lock.specs.Histories.{Each, InRun, IsCycle, IsPast};
ghost use Rattle.cycle_driver.specs.inner.Heads.{AwaitsHead};
ghost use Rattle.koika_top.specs.Histories.{AreBy, board_of};
ghost use Rattle.koika_top.specs.inner.Histories.{IsRecord, IsWhole};

use attempt_log::{Attempt, Entry, Gate, JobAnswer, Settled, Submitted, attempt};
use board_core::{Board, Core};
use board_lock::LockBoard;
use cycle_driver::{WINDOW, turns_for};
use kw_bits::{NoMemory, Sequence};
use one_rule::{Externs, Inputs, Regs, Rows, Stimulus};
use std::alloc::Global;
use std::sync::{Arc, Wait};
use std::thread::Threads;
use typed_core::{Design, Events};

/// The rows of a batch, and what was done at its board: each call with its answer, in order.
#[derive(Drop)]
pub struct Journaled {
    pub rows: Rows,
    pub entries: Sequence<Entry>,
}

/// The rows from one cycle to another, made by workers, and what was done. Whoever calls it finishes what the workers
/// left, as the worker with the number after theirs. The entries are a legal history of the board, in the order in
/// which the board's lock took them, and after it the last cycle is closed.
pub fn run_journal<R: Threads + Wait + Sync, G: Gate + Sync>(
    rt: &R,
    alloc: Global,
    design: Arc<Design>,
    externs: Arc<Externs>,
    stimulus: Arc<Stimulus>,
    regs: Regs,
    from: u32,
    to: u32,
    workers: u32,
    gate: &G,
) -> Result<Journaled, NoMemory>
    requires externs { kept (arc_value externs) ≡ externs_of (arc_value design) }
    requires stimulus { StimulusFits (arc_value design) (arc_value stimulus) }
    requires registers { HaveWidths (register_widths (arc_value design)) regs }
    requires order { from ≤ to }
    requires last { to ≤ MAX_CYCLES }
    requires some { 1 ≤ workers }
    requires most { workers ≤ 64 }
    ensures run { IfOk result (λ made.
        made.rows ≡ run (system_of (arc_value design)) (inputs_of (arc_value stimulus)) regs from to) }
    ensures fit { IfOk result (λ made. RowsFit (arc_value design) made.rows) }
    ensures legal { IfOk result (λ made.
        IsLegal (board_of (arc_value design) (arc_value stimulus) regs from to) made.entries) }
    ensures closes { IfOk result (λ made.
        IsPast (board_of (arc_value design) (arc_value stimulus) regs from to) made.entries) }
    ensures by { IfOk result (λ made. AreBy workers made.entries) }
    ensures in_run { IfOk result (λ made.
        Each (InRun (board_of (arc_value design) (arc_value stimulus) regs from to)) made.entries) }
{
    let turns = turns_for(&design, to - from);
    let core = Core::begin(alloc, design, externs, stimulus, regs, from, to, WINDOW)?;
    let mut board = LockBoard::begin(alloc, core, workers)?;
    let noted = board.journal_all(rt, alloc, gate, turns)?;
    finish(alloc, board.close(), noted.entries, workers)
}

// Settles until the last cycle is closed, does the job of each head for which no attempt stands, and adds its calls to
// what was done.
fn finish(
    alloc: Global,
    mut core: Core,
    mut entries: Sequence<Entry>,
    worker: u32,
) -> Result<Journaled, NoMemory>
    requires { IsRecord worker entries core }
    ensures run { IfOk result (λ made. let o = core.opening in
        made.rows ≡ run (system_of o.design) (inputs_of o.stimulus) o.regs o.from o.to) }
    ensures fit { IfOk result (λ made. RowsFit core.opening.design made.rows) }
    ensures whole { IfOk result (λ made. IsWhole worker core.opening made.entries) }
{
    'cycles: while go_on(alloc, &mut core, &mut entries, worker)? {}
    let rows = core.into_rows();
    Ok(Journaled { rows, entries })
}

// Settles a rule, or closes a cycle, and returns whether there was one to close.
fn go_on(
    alloc: Global,
    core: &mut Core,
    entries: &mut Sequence<Entry>,
    worker: u32,
) -> Result<bool, NoMemory>
    requires { IsRecord worker entries.old core.old }
    ensures record { OnOk result (IsRecord worker entries.new core.new) }
    ensures opening { core.new.opening ≡ core.old.opening }
    ensures less { IfOk result (λ more. more ≡ true → left core.new < left core.old) }
    ensures finished { IfOk result (λ more. more ≡ false → core.new.opening.to < core.new.cycle) }
{
    core.recall();
    match settle_head(core, entries, worker)? {
        Settled::Committed { .. } | Settled::Skipped { .. } | Settled::CycleClosed { .. } => {
            Ok(true)
        }
        Settled::Stale { .. } | Settled::Waiting { .. } => {
            do_head(alloc, core, entries, worker)?;
            Ok(true)
        }
        Settled::Finished => Ok(false),
    }
}

// Does the job of the head, submits its attempt and settles it.
fn do_head(
    alloc: Global,
    core: &mut Core,
    entries: &mut Sequence<Entry>,
    worker: u32,
) -> Result<(), NoMemory>
    requires awaits { AwaitsHead core.old }
    requires record { IsRecord worker entries.old core.old }
    ensures record { OnOk result (IsRecord worker entries.new core.new) }
    ensures opening { core.new.opening ≡ core.old.opening }
    ensures less { OnOk result (left core.new < left core.old) }
{
    match core.job(0)? {
        JobAnswer::Job(job) => {
            let made = attempt(alloc, &job)?;
            let _ = hand_in(alloc, core, entries, worker, made)?;
            settle_head(core, entries, worker)?;
            Ok(())
        }
        JobAnswer::Idle | JobAnswer::Finished => unreachable!(),
    }
}

// Settles the head, and adds the call.
fn settle_head(
    core: &mut Core,
    entries: &mut Sequence<Entry>,
    worker: u32,
) -> Result<Settled, NoMemory>
    requires { IsRecord worker entries.old core.old }
    ensures record { OnOk result (IsRecord worker entries.new core.new) }
    ensures opening { core.new.opening ≡ core.old.opening }
    ensures step { IfOk result (λ told. Does settle core.old (answer.Settle told) core.new) }
    ensures less { IfOk result (λ told. goes_on told ≡ true → left core.new < left core.old) }
    ensures left { IfOk result (λ told. goes_on told ≡ false → left core.new ≡ left core.old) }
    ensures plain { AtPlain core.new }
{
    let answer = core.settle();
    push_settle(entries, worker, &answer)?;
    Ok(answer)
}

// Adds a call that settled.
fn push_settle(entries: &mut Sequence<Entry>, worker: u32, answer: &Settled) -> Result<(), NoMemory>
    ensures { OnOk result (entries.new ≡ entries.old ++ settle_entry worker answer.now ∷ []) }
{
    entries.push(Entry::Settle {
        worker,
        answer: *answer,
    })
}

// Submits an attempt at a rule in a cycle that the board runs, and adds the call.
fn hand_in(
    alloc: Global,
    core: &mut Core,
    entries: &mut Sequence<Entry>,
    worker: u32,
    made: Attempt,
) -> Result<Submitted, NoMemory>
    requires is_for { IsFor (setting_of core.old.opening) made }
    requires in_run { IsCycle core.old.opening made.cycle }
    requires record { IsRecord worker entries.old core.old }
    ensures record { OnOk result (IsRecord worker entries.new core.new) }
    ensures opening { core.new.opening ≡ core.old.opening }
    ensures step { IfOk result (λ told. Does (λ o board. submit o board made) core.old (answer.Submit told) core.new) }
    ensures left { OnOk result (left core.new ≡ left core.old) }
{
    made.recall();
    let cycle = made.cycle();
    let rule = made.rule();
    let inputs = Inputs::from_slice(alloc, made.inputs().as_slice())?;
    let events = Events::from_slice(alloc, made.events().as_slice())?;
    let outcome = *made.outcome();
    let answer = core.submit(made);
    entries.push(Entry::Submit {
        worker,
        cycle,
        rule,
        answer: answer.taken(),
        outcome,
        inputs,
        events,
    })?;
    Ok(answer)
}
