//! Journals: the run that `sim --journal` asks for, written batch by batch as what was done at its boards.

ghost use Rattle.std.specs.Prelude.{◌≡◌, ◌≤◌, ◌<◌, [], false, IfOk, length};
ghost use Rattle.std.specs.Arc.{arc_value};
ghost use Rattle.kw_base.specs.Fault.{IfFault};
ghost use Rattle.typed_core.specs.Valid.{IsValid};
ghost use Rattle.typed_core.specs.Widths.{HaveWidths, register_widths};
ghost use Rattle.koika_check.specs.Typing.{IsTypedDesign};
ghost use Rattle.one_rule.specs.Hosts.{host_specs};
ghost use Rattle.one_rule.specs.Cycle.{system_of};
ghost use Rattle.one_rule.specs.Rows.{RowsFit};
ghost use Rattle.one_rule.specs.Run.{run};
ghost use Rattle.one_rule.specs.Stimulus.{AlwaysFits, StimulusFits, inputs_of};
ghost use Rattle.koika_top.specs.Histories.{board_of};
ghost use Rattle.koika_top.specs.inner.Histories.{IsWhole};
ghost use Rattle.koika_top.specs.Journal.{HasJournal, HasNoJournal, is_too_heavy};
ghost use Rattle.koika_top.specs.inner.Journaling.{WritesBatch, WritesJournal};
ghost use Rattle.front_end.specs.Lengths.{is_too_long_for};
ghost use Rattle.front_end.specs.Sources.{longest_source};
ghost use Rattle.front_end.specs.Streams.{stream};

use crate::ends::Ends;
use crate::journaled::{Journaled, run_journal};
use attempt_log::{Entry, Gate};
use front_end::{
    BATCH, Lowered, Untold, fault_of_source, is_too_long_for, read_source, write_text,
};
use host_fn::HostFn;
use journal_check::{Batch, last_regs, print_batch, print_begin};
use koika_check::Checked;
use kw_base::{Refusal, fault_number};
use kw_bits::{NoMemory, Sequence};
use kw_io::Sink;
use one_rule::{Regs, first_values};
use std::alloc::Global;
use std::sync::{Arc, Wait};
use std::thread::Threads;

// The cycles of a run times one more than the design's weight may be this much where its journal is wanted.
const MOST_WORK: u64 = 16_384;

/// The run whose journal is asked for: of that many cycles, by that many workers.
#[derive(Drop)]
pub(crate) struct JournalRun {
    pub(crate) lowered: Lowered,
    pub(crate) cycles: u32,
    pub(crate) workers: u32,
    ghost within: { is_too_long_for cycles lowered.checked ≡ false },
    ghost light: { is_too_heavy cycles lowered.checked ≡ false },
    ghost some: { 1 ≤ workers },
    ghost most: { workers ≤ 8 },
}

impl JournalRun {
    /// The run that a source spells, or the fault with which the source is refused.
    pub(crate) fn read(
        alloc: Global,
        cycles: u32,
        workers: u32,
        hosts: &[HostFn],
        source: &[u8],
    ) -> Result<JournalRun, Refusal>
        requires short { length source.now ≤ longest_source }
        requires some { 1 ≤ workers }
        requires most { workers ≤ 8 }
        ensures run { IfOk result (λ run.
            HasJournal (host_specs hosts.now) cycles source.now run.lowered.checked (arc_value run.lowered.stimulus)) }
        ensures typed { IfOk result (λ run. IsTypedDesign run.lowered.checked) }
        ensures cycles { IfOk result (λ run. run.cycles ≡ cycles) }
        ensures workers { IfOk result (λ run. run.workers ≡ workers) }
        ensures refused { IfFault result (HasNoJournal (host_specs hosts.now) cycles source.now) }
    {
        let spelled = read_source(alloc, hosts, source)?;
        if is_too_long_for(cycles as u64, &spelled.design) {
            return Err(Refusal::Fault(fault_of_source(fault_number::RUN_TOO_LONG)));
        }
        if is_too_heavy(cycles, &spelled.design) {
            return Err(Refusal::Fault(fault_of_source(fault_number::JOURNAL_TOO_LONG)));
        }
        let lowered = Lowered::new(alloc, spelled, hosts)?;
        Ok(JournalRun {
            lowered,
            cycles,
            workers,
        })
    }

    /// Has workers in threads make the run, and writes its journal batch by batch.
    pub(crate) fn write<R: Threads + Wait + Sync, K: Sink>(
        &self,
        rt: &R,
        alloc: Global,
        gate: &(dyn Gate + Sync),
        sink: &mut K,
    ) -> Result<(), Untold>
        ensures { WritesJournal (arc_value self.now.lowered.design) (arc_value self.now.lowered.stimulus)
            self.now.cycles self.now.workers (stream K.written K.faults sink.old sink.new) result }
    {
        self.fits();
        let begin = print_begin(alloc, self.workers)?;
        write_text(sink, begin.as_slice())?;
        let mut regs = first_values(alloc, &self.lowered.design)?;
        let mut from = 0;
        while from < self.cycles {
            let to = self.cycles.min(from + BATCH);
            regs = self.write_batch(rt, alloc, gate, regs, Ends { from, to }, sink)?;
            from = to;
        }
        Ok(())
    }

    // Has workers run the cycles of a batch on these registers, writes its lines, and returns the registers that it
    // leaves.
    fn write_batch<R: Threads + Wait + Sync, K: Sink>(
        &self,
        rt: &R,
        alloc: Global,
        gate: &(dyn Gate + Sync),
        regs: Regs,
        ends: Ends,
        sink: &mut K,
    ) -> Result<Regs, Untold>
        requires registers { HaveWidths (register_widths (arc_value self.now.lowered.design)) regs }
        requires order { ends.from < ends.to }
        requires last { ends.to ≤ 16777216 }
        ensures batch { WritesBatch (arc_value self.now.lowered.design) (arc_value self.now.lowered.stimulus)
            self.now.workers regs ends.from ends.to (stream K.written K.faults sink.old sink.new) result }
        ensures widths { IfOk result (HaveWidths (register_widths (arc_value self.now.lowered.design))) }
    {
        self.fits();
        let made = self.make_batch(rt, alloc, gate, regs, ends)?;
        let left = last_regs(alloc, &made.rows)?;
        let batch = batch_of(alloc, ends, made.entries);
        let text = print_batch(alloc, &self.lowered.design, &batch)?;
        write_text(sink, text.as_slice())?;
        Ok(left)
    }

    // Has workers run the cycles of a batch on these registers.
    fn make_batch<R: Threads + Wait + Sync>(
        &self,
        rt: &R,
        alloc: Global,
        gate: &(dyn Gate + Sync),
        regs: Regs,
        ends: Ends,
    ) -> Result<Journaled, NoMemory>
        requires registers { HaveWidths (register_widths (arc_value self.now.lowered.design)) regs }
        requires order { ends.from ≤ ends.to }
        requires last { ends.to ≤ 16777216 }
        ensures run { IfOk result (λ made. made.rows ≡ run (system_of (arc_value self.now.lowered.design))
            (inputs_of (arc_value self.now.lowered.stimulus)) regs ends.from ends.to) }
        ensures fit { IfOk result (λ made. RowsFit (arc_value self.now.lowered.design) made.rows) }
        ensures whole { IfOk result (λ made. IsWhole self.now.workers (board_of (arc_value self.now.lowered.design)
            (arc_value self.now.lowered.stimulus) regs ends.from ends.to) made.entries) }
    {
        self.fits();
        let design = Arc::try_clone(&self.lowered.design)?;
        let externs = Arc::try_clone(&self.lowered.externs)?;
        let stimulus = Arc::try_clone(&self.lowered.stimulus)?;
        run_journal(
            rt,
            alloc,
            design,
            externs,
            stimulus,
            regs,
            ends.from,
            ends.to,
            self.workers,
            &gate,
        )
    }

    // The design is valid, the stimulus is for its inputs, and a board can have that many cycles.
    fn fits(&self)
        ensures design { IsValid (arc_value self.now.lowered.design) }
        ensures stimulus { StimulusFits (arc_value self.now.lowered.design) (arc_value self.now.lowered.stimulus) }
        ensures always { AlwaysFits (arc_value self.now.lowered.stimulus) }
        ensures few { self.now.cycles ≤ 16777216 }
    {
        self.lowered.design.recall();
        self.lowered.stimulus.recall();
    }
}

// A batch that stands in no source yet.
fn batch_of(alloc: Global, ends: Ends, entries: Sequence<Entry>) -> Batch
    ensures { result ≡ record { from = ends.from; to = ends.to; line = 0; entries = entries; lines = [] } }
{
    Batch {
        from: ends.from,
        to: ends.to,
        line: 0,
        entries,
        lines: Sequence::new(alloc),
    }
}

/// Whether the journal of a run of the design for these cycles would be too long.
pub(crate) fn is_too_heavy(cycles: u32, design: &Checked) -> bool
    requires { IsTypedDesign design.now }
    ensures { result ≡ is_too_heavy cycles design.now }
{
    u64::from(cycles) * (u64::from(design.counts().weight) + 1) > MOST_WORK
}
