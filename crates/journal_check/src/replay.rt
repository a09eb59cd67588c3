//! Journals: the entries of a batch are made again on a core, and its answers compared.

ghost use Rattle.std.specs.Prelude.{◌≡◌, ◌≤◌, ◌<◌, ◌↔◌, IsTrue, IfOk, IfSome, IsSome, OnOk, length};
ghost use Rattle.std.specs.Arc.{arc_value};
ghost use Rattle.kw_base.specs.Fault.{IfFault};
ghost use Rattle.kw_base.specs.declared.fault.Refusal.TheVariants as refusals;
ghost use Rattle.typed_core.specs.Widths.{HaveWidths, input_widths, register_widths};
ghost use Rattle.attempt_log.specs.Setting.{IsFor};
ghost use Rattle.attempt_log.specs.Trace.{IsTrace};
ghost use Rattle.board_core.specs.Board.{opened, setting_of};
ghost use Rattle.board_core.specs.History as history;
ghost use Rattle.board_core.specs.History.{IsLegal};
ghost use Rattle.board_core.specs.Kept.{StandsFor};
ghost use Rattle.board_core.specs.declared.event.BoardEvent.TheVariants as event;
ghost use Rattle.board_core.specs.declared.kept.TheConstants.{MAX_CYCLES};
ghost use Rattle.journal_check.specs.Checking.{BatchFits, Closes, IsFaultOfEntries, IsFirstWrong, SubmitsRule, at_line, opening_of};
ghost use Rattle.journal_check.specs.inner.Replaying.{Answers, AnswersOtherwise, IsFaultAt, Leaves, Makes};

use crate::journal::Batch;
use attempt_log::{Attempt, Entry, Settled, Taken};
use board_core::Core;
use kw_base::fault_number::{NO_TRACE, WRONG_ANSWER, WRONG_BATCH};
use kw_base::{Fault, Place, Refusal};
use kw_bits::NoMemory;
use one_rule::{Inputs, Regs, Workload};
use std::alloc::Global;
use std::sync::Arc;
use typed_core::{Events, Outcome};

/// How many cycles workers may be ahead, the current one included.
const WINDOW: u32 = 4;

/// A core on these registers that the entries of a batch leave, if they are legal and close all its cycles.
pub(crate) fn replay(
    alloc: Global,
    workload: &Workload,
    regs: Regs,
    batch: &Batch,
) -> Result<Core, Refusal>
    requires registers { HaveWidths (register_widths (arc_value workload.now.design)) regs }
    requires order { batch.now.from ≤ batch.now.to }
    requires last { batch.now.to ≤ MAX_CYCLES }
    requires fits { BatchFits (arc_value workload.now.design) (arc_value workload.now.stimulus) batch.now }
    ensures legal { let o = opening_of (arc_value workload.now.design) (arc_value workload.now.stimulus) regs batch.now in IfOk result (λ core. IsLegal o batch.now.entries) }
    ensures closes { let o = opening_of (arc_value workload.now.design) (arc_value workload.now.stimulus) regs batch.now in IfOk result (λ core. Closes o batch.now.entries) }
    ensures leaves { let o = opening_of (arc_value workload.now.design) (arc_value workload.now.stimulus) regs batch.now in IfOk result (λ core. Leaves o batch.now.entries core) }
    ensures fault { IfFault result (IsFaultOfEntries (opening_of (arc_value workload.now.design) (arc_value workload.now.stimulus) regs batch.now) batch.now) }
{
    let Workload {
        design,
        externs,
        stimulus,
    } = workload.try_clone()?;
    let mut core = Core::begin(
        alloc, design, externs, stimulus, regs, batch.from, batch.to, WINDOW,
    )?;
    make_entries(alloc, workload, &mut core, batch)?;
    if !has_closed_all(&core) {
        return Err(refusal(WRONG_BATCH, batch.line));
    }
    Ok(core)
}

// Whether the last cycle is closed: the core has a row for its opening and one for each cycle that is.
fn has_closed_all(core: &Core) -> bool
    ensures { IsTrue result ↔ core.now.opening.to < core.now.cycle }
{
    let rows = core.rows().len();
    rows == (core.last() - core.first()) as usize + 1
}

// Makes the entries of a batch on a core that has made none, up to the first that is wrong.
fn make_entries(
    alloc: Global,
    workload: &Workload,
    core: &mut Core,
    batch: &Batch,
) -> Result<(), Refusal>
    requires design { core.old.opening.design ≡ arc_value workload.now.design }
    requires fits { BatchFits (arc_value workload.now.design) core.old.opening.stimulus batch.now }
    requires opened { StandsFor core.old (opened core.old.opening) }
    ensures legal { OnOk result (IsLegal core.old.opening batch.now.entries) }
    ensures leaves { OnOk result (Leaves core.old.opening batch.now.entries core.new) }
    ensures fault { IfFault result (IsFirstWrong core.old.opening batch.now) }
{
    for (number, entry) in batch.entries.as_slice().iter().enumerate() {
        make_entry(alloc, workload, core, entry, batch.lines[number])?;
    }
    Ok(())
}

// Makes an entry, if its attempt is a trace and the core answers as it says.
fn make_entry(
    alloc: Global,
    workload: &Workload,
    core: &mut Core,
    entry: &Entry,
    line: u32,
) -> Result<(), Refusal>
    requires design { core.old.opening.design ≡ arc_value workload.now.design }
    requires fits { SubmitsRule (arc_value workload.now.design) core.old.opening.stimulus entry.now }
    ensures ok { OnOk result (Makes core.old entry.now core.new) }
    ensures fault { IfFault result (IsFaultAt core.old entry.now line) }
{
    core.recall();
    match entry {
        Entry::Submit {
            cycle,
            rule,
            inputs,
            events,
            outcome,
            answer,
            ..
        } => {
            let claim = Claim {
                cycle: *cycle,
                rule: *rule,
                inputs,
                events,
                outcome: *outcome,
            };
            let made = traced(alloc, workload, &claim)?;
            match made {
                Some(attempt) => submit(core, attempt, *answer, line),
                None => Err(refusal(NO_TRACE, line)),
            }
        }
        Entry::Settle { answer, .. } => settle(core, *answer, line),
    }
}

// What an entry says that an attempt is.
#[derive(Clone, Copy)]
struct Claim<'a> {
    cycle: u32,
    rule: u32,
    inputs: &'a Inputs,
    events: &'a Events,
    outcome: Outcome,
}

// The attempt of a copy of a claim's inputs and events, if they are a trace of its rule with its outcome.
fn traced(
    alloc: Global,
    workload: &Workload,
    claim: &Claim<'_>,
) -> Result<Option<Attempt>, NoMemory>
    requires rule { claim.now.rule < length (arc_value workload.now.design).rules }
    requires inputs { HaveWidths (input_widths (arc_value workload.now.design)) claim.now.inputs.now }
    ensures some { IfOk result (λ made. IsSome made ↔ IsTrace (arc_value workload.now.design) claim.now.rule claim.now.inputs.now (record { events = claim.now.events.now; outcome = claim.now.outcome })) }
    ensures attempt { IfOk result (λ made. IfSome made (λ a. a ≡ record {
      design = arc_value workload.now.design;
      cycle = claim.now.cycle;
      rule = claim.now.rule;
      inputs = claim.now.inputs.now;
      run = record { events = claim.now.events.now; outcome = claim.now.outcome };
    })) }
{
    let inputs = Inputs::from_slice(alloc, claim.inputs.as_slice())?;
    let events = Events::from_slice(alloc, claim.events.as_slice())?;
    let design = Arc::try_clone(&workload.design)?;
    let externs = &workload.externs;
    let (cycle, rule, outcome) = (claim.cycle, claim.rule, claim.outcome);
    Attempt::of_trace(alloc, design, externs, cycle, rule, inputs, events, outcome)
}

// Submits an attempt, which is to be answered so.
fn submit(core: &mut Core, attempt: Attempt, answer: Taken, line: u32) -> Result<(), Refusal>
    requires { IsFor (setting_of core.old.opening) attempt }
    ensures ok { OnOk result (Answers core.old (event.Submit attempt) (history.Submit answer) core.new) }
    ensures fault { IfFault result (λ fault. (fault ≡ at_line 82 line) × AnswersOtherwise core.old (event.Submit attempt) (history.Submit answer)) }
{
    let given = core.submit(attempt);
    if given.taken() != answer {
        return Err(refusal(WRONG_ANSWER, line));
    }
    Ok(())
}

// Settles the head, which is to be answered so.
fn settle(core: &mut Core, answer: Settled, line: u32) -> Result<(), Refusal>
    ensures ok { OnOk result (Answers core.old event.Settle (history.Settle answer) core.new) }
    ensures fault { IfFault result (λ fault. (fault ≡ at_line 82 line) × AnswersOtherwise core.old event.Settle (history.Settle answer)) }
{
    if !is_answer(&core.settle(), &answer) {
        return Err(refusal(WRONG_ANSWER, line));
    }
    Ok(())
}

fn is_answer(given: &Settled, said: &Settled) -> bool
    ensures { IsTrue result ↔ (given.now ≡ said.now) }
{
    given == said
}

/// The refusal with a fault of this number on a line.
pub(crate) fn refusal(number: u32, line: u32) -> Refusal
    ensures { result ≡ refusals.Fault (at_line number line) }
{
    Refusal::Fault(Fault::new(number, Place { line, column: 1 }))
}
