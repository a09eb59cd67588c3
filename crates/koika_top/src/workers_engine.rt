//! Engines: workers in threads, which run rule by rule and meet at a board.

ghost use Rattle.std.specs.Prelude.{◌≡◌, ◌≤◌, IfOk};
ghost use Rattle.std.specs.Arc.{arc_value};
ghost use Rattle.std.specs.Thread.{IsSync};
ghost use Rattle.one_rule.specs.Cycle.{system_of};
ghost use Rattle.one_rule.specs.Rows.{RowsFit};
ghost use Rattle.one_rule.specs.Run.{run, run_of};
ghost use Rattle.one_rule.specs.Stimulus.{StimulusFits, inputs_of};
ghost use Rattle.typed_core.specs.Widths.{HaveWidths, register_widths};
ghost use Rattle.koika_top.specs.inner.Engines.{HasRun};

use crate::ends::Ends;
use crate::engine::Engine;
use crate::last_row::{first_row, go_on, no_row};
use crate::teller::Teller;
use attempt_log::Gate;
use board_lock::LockBoard;
use cycle_driver::run_batch;
use front_end::Lowered;
use kw_bits::NoMemory;
use one_rule::{Regs, Row, Rows};
use std::alloc::Global;
use std::mem;
use std::sync::{Arc, Wait};
use std::thread::Threads;
use stim_report::Shape;

/// A design that workers, which a gate may hold, run rule by rule on a stimulus. Each batch has a board and threads of
/// its own.
#[derive(Drop)]
pub(crate) struct WorkersEngine<'r, R, G> {
    rt: &'r R,
    gate: G,
    lowered: &'r Lowered,
    workers: u32,
    // The row of the cycle up to which it has run.
    last: Row,
    at: u32,
    ghost stimulus_fits: { StimulusFits (arc_value lowered.now.design) (arc_value lowered.now.stimulus) },
    ghost some: { 1 ≤ workers },
    ghost most: { workers ≤ 64 },
}

impl<'r, R, G: Drop> WorkersEngine<'r, R, G> {
    /// Before all cycles. It waits for nobody.
    pub(crate) fn begin(
        rt: &'r R,
        alloc: Global,
        gate: G,
        lowered: &'r Lowered,
        workers: u32,
    ) -> Result<WorkersEngine<'r, R, G>, NoMemory>
        requires stimulus { StimulusFits (arc_value lowered.now.design) (arc_value lowered.now.stimulus) }
        requires some { 1 ≤ workers }
        requires most { workers ≤ 64 }
        ensures lowered { IfOk result (λ engine. engine.lowered.now ≡ lowered.now) }
        ensures at { IfOk result (λ engine. engine.at ≡ 0) }
        ensures stands { IfOk result (λ engine. HasRun (arc_value engine.lowered.now.design)
            (arc_value engine.lowered.now.stimulus) engine.at engine.last) }
    {
        let last = first_row(alloc, &lowered.design)?;
        Ok(WorkersEngine {
            rt,
            gate,
            lowered,
            workers,
            last,
            at: 0,
        })
    }
}

impl<'r, R: Threads + Wait + Sync> Engine for WorkersEngine<'r, R, &'r (dyn Gate + Sync)> {
    ghost rows_to = { λ e n. run_of (arc_value e.lowered.now.design) (inputs_of (arc_value e.lowered.now.stimulus)) n };

    ghost at = { λ e. e.at };

    ghost stands = { λ e. IsSync R.row
        × HasRun (arc_value e.lowered.now.design) (arc_value e.lowered.now.stimulus) e.at e.last };

    fn batch(&mut self, alloc: Global, to: u32) -> Result<Rows, NoMemory> {
        let mut rows = self.made_by_workers(alloc, to)?;
        let first = mem::replace(&mut self.last, no_row(alloc));
        let last = go_on(alloc, &mut rows, first)?;
        self.last = last;
        self.at = to;
        Ok(rows)
    }

    fn count(
        &mut self,
        alloc: Global,
        ends: Ends,
        shape: &Shape,
        teller: &mut Teller,
    ) -> Result<(), NoMemory> {
        let rows = self.batch(alloc, ends.to)?;
        let _text = teller.take(alloc, shape, &rows, ends.from)?;
        Ok(())
    }
}

impl<'r, R: Threads + Wait + Sync> WorkersEngine<'r, R, &'r (dyn Gate + Sync)> {
    // The rows from the cycle up to which it has run to another, made by workers: the registers that the first one left,
    // and the rows of the cycles after it.
    fn made_by_workers(&self, alloc: Global, to: u32) -> Result<Rows, NoMemory>
        requires shared { IsSync R.row }
        requires registers { HaveWidths (register_widths (arc_value self.now.lowered.now.design)) self.now.last.regs }
        requires order { self.now.at ≤ to }
        requires few { to ≤ 16777216 }
        ensures run { IfOk result (λ rows. rows ≡ run (system_of (arc_value self.now.lowered.now.design))
            (inputs_of (arc_value self.now.lowered.now.stimulus)) self.now.last.regs self.now.at to) }
        ensures fit { IfOk result (λ rows. RowsFit (arc_value self.now.lowered.now.design) rows) }
    {
        let design = Arc::try_clone(&self.lowered.design)?;
        let externs = Arc::try_clone(&self.lowered.externs)?;
        let stimulus = Arc::try_clone(&self.lowered.stimulus)?;
        let first = Regs::from_slice(alloc, self.last.regs.as_slice())?;
        run_batch::<LockBoard, R>(
            self.rt,
            alloc,
            design,
            externs,
            stimulus,
            first,
            self.at,
            to,
            self.workers,
            self.gate,
        )
    }
}
