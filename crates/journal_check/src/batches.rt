//! Journals: whether a journal is good, and the rows of its run.

ghost use Rattle.std.specs.Prelude.{◌≡◌, ◌≤◌, ◌<◌, ◌++◌, ◌↔◌, ℕ, [], IsTrue, IfOk, OnOk, drop, length};
ghost use Rattle.std.specs.Arc.{arc_value};
ghost use Rattle.std.specs.List.{AllByRecursion};
ghost use Rattle.kw_base.specs.Fault.{IfFault};
ghost use Rattle.typed_core.specs.Valid.{externs_of};
ghost use Rattle.typed_core.specs.Widths.{HaveWidths, register_widths};
ghost use Rattle.one_rule.specs.Externs.{kept};
ghost use Rattle.one_rule.specs.Rows.{RowsFit};
ghost use Rattle.one_rule.specs.Run.{InputsByCycle, last_registers, run_of};
ghost use Rattle.one_rule.specs.Stimulus.{StimulusFits, inputs_of};
ghost use Rattle.board_core.specs.declared.kept.TheConstants.{MAX_CYCLES};
ghost use Rattle.journal_check.specs.Checking.{BatchFits, IsDue, IsFaultOf, IsFirstJournalFault, IsGood, IsGoodBatch, left_by, opening_of};

use crate::journal::{Batch, Journal};
use crate::replay::{refusal, replay};
use kw_base::Refusal;
use kw_base::fault_number::WRONG_BATCH;
use kw_bits::{NoMemory, Sequence};
use one_rule::{Externs, Regs, Row, Rows, Stimulus, Workload, first_values, opening};
use std::alloc::Global;
use std::sync::Arc;
use typed_core::Design;

/// A batch has at most this many cycles.
const BATCH_CYCLES: u32 = 256;

/// The rows of the run of n cycles that a good journal shows, or the first fault of a journal that isn't good. No rule
/// is run on the run's registers: the rows are those that the entries leave on boards.
pub fn recheck(
    alloc: Global,
    design: Arc<Design>,
    externs: Arc<Externs>,
    stimulus: Arc<Stimulus>,
    journal: Journal,
    n: u32,
) -> Result<Rows, Refusal>
    requires externs { kept (arc_value externs) ≡ externs_of (arc_value design) }
    requires stimulus { StimulusFits (arc_value design) (arc_value stimulus) }
    requires last { n ≤ MAX_CYCLES }
    requires fits { AllByRecursion (BatchFits (arc_value design) (arc_value stimulus)) journal.batches }
    ensures good { IfOk result (λ rows. IsGood (arc_value design) (arc_value stimulus) n journal) }
    ensures run { IfOk result (λ rows. rows ≡ run_of (arc_value design) (inputs_of (arc_value stimulus)) n) }
    ensures fit { IfOk result (λ rows. RowsFit (arc_value design) rows) }
    ensures fault { IfFault result (λ fault. IsFirstJournalFault (arc_value design) (arc_value stimulus) n journal fault) }
{
    let workload = Workload {
        design,
        externs,
        stimulus,
    };
    runs_fit(&workload.design, &workload.stimulus);
    let rows = first_rows(alloc, &workload.design)?;
    let mut done = Rechecked { cycle: 0, rows };
    for batch in journal.batches.as_slice() {
        let regs = last_regs(alloc, &done.rows)?;
        recheck_batch(alloc, &workload, regs, &mut done, n, batch)?;
    }
    if done.cycle != n {
        return Err(refusal(WRONG_BATCH, journal.line));
    }
    Ok(done.rows)
}

// How far a run is rechecked: up to this cycle, with its rows up to there.
#[derive(Drop)]
struct Rechecked {
    cycle: u32,
    rows: Rows,
}

// The rows of each run of a design fit it, with a stimulus for its inputs.
fn runs_fit(design: &Design, stimulus: &Stimulus)
    requires { StimulusFits design.now stimulus.now }
    ensures { (n : ℕ) → RowsFit design.now (run_of design.now (inputs_of stimulus.now) n) }
{
    design.recall();
    stimulus.recall();
}

// The row that a run begins with.
fn first_rows(alloc: Global, design: &Design) -> Result<Rows, NoMemory>
    ensures { IfOk result (λ rows. (inputs : InputsByCycle) → rows ≡ run_of design.now inputs 0) }
{
    let regs = first_values(alloc, design)?;
    let mut rows = Rows::new(alloc);
    rows.push(opening(alloc, design, regs)?)?;
    Ok(rows)
}

// Adds the rows of a batch, if it is good after the cycles that are done, which left these registers in the last row.
fn recheck_batch(
    alloc: Global,
    workload: &Workload,
    regs: Regs,
    done: &mut Rechecked,
    n: u32,
    batch: &Batch,
) -> Result<(), Refusal>
    requires within { done.old.cycle ≤ n }
    requires last { n ≤ MAX_CYCLES }
    requires fits { BatchFits (arc_value workload.now.design) (arc_value workload.now.stimulus) batch.now }
    requires rows { done.old.rows ≡ run_of (arc_value workload.now.design) (inputs_of (arc_value workload.now.stimulus)) done.old.cycle }
    requires registers { regs ≡ last_registers [] done.old.rows }
    requires widths { HaveWidths (register_widths (arc_value workload.now.design)) regs }
    ensures cycle { OnOk result (done.new.cycle ≡ batch.now.to) }
    ensures rows { OnOk result (done.new.rows ≡ run_of (arc_value workload.now.design) (inputs_of (arc_value workload.now.stimulus)) batch.now.to) }
    ensures good { let o = opening_of (arc_value workload.now.design) (arc_value workload.now.stimulus) regs batch.now in OnOk result (IsGoodBatch n done.old.cycle o batch.now) }
    ensures left { let o = opening_of (arc_value workload.now.design) (arc_value workload.now.stimulus) regs batch.now in OnOk result (left_by o batch.now.entries ≡ last_registers [] done.new.rows) }
    ensures fault { let o = opening_of (arc_value workload.now.design) (arc_value workload.now.stimulus) regs batch.now in IfFault result (IsFaultOf n done.old.cycle o batch.now) }
{
    if !is_due(batch, done.cycle, n) {
        return Err(refusal(WRONG_BATCH, batch.line));
    }
    let core = replay(alloc, workload, regs, batch)?;
    add_rows(alloc, &mut done.rows, later_rows(core.rows()))?;
    done.cycle = batch.to;
    Ok(())
}

// Whether a batch is of the cycles that come next.
fn is_due(batch: &Batch, from: u32, n: u32) -> bool
    requires last { n ≤ MAX_CYCLES }
    requires within { from ≤ n }
    ensures { IsTrue result ↔ IsDue n from batch.now }
{
    batch.from == from && batch.to == (from + BATCH_CYCLES).min(n) && from < batch.to
}

/// The registers of the last row.
pub fn last_regs(alloc: Global, rows: &Rows) -> Result<Regs, NoMemory>
    requires { 0 < length rows.now }
    ensures { IfOk result (λ regs. regs ≡ last_registers [] rows.now) }
{
    let last = rows.get(rows.len() - 1);
    Regs::from_slice(alloc, last.regs.as_slice())
}

// The rows after the first.
fn later_rows(rows: &[Row]) -> &[Row]
    ensures { result.now ≡ drop 1 rows.now }
{
    rows.get(1..).unwrap_or(&[])
}

// Adds copies of rows.
fn add_rows(alloc: Global, rows: &mut Rows, more: &[Row]) -> Result<(), NoMemory>
    ensures { OnOk result (rows.new ≡ rows.old ++ more.now) }
{
    for row in more {
        rows.push(copied(alloc, row)?)?;
    }
    Ok(())
}

fn copied(alloc: Global, row: &Row) -> Result<Row, NoMemory>
    ensures { IfOk result (λ copy. copy ≡ row.now) }
{
    Ok(Row {
        regs: Sequence::from_slice(alloc, row.regs.as_slice())?,
        fired: Sequence::from_slice(alloc, row.fired.as_slice())?,
    })
}
