//! Commands: the waves of a run, its value change dump.

ghost use Rattle.std.specs.Prelude.{◌≡◌, ◌≤◌, ◌++◌, IfOk, OnOk, false, length};
ghost use Rattle.std.specs.Arc.{arc_value};
ghost use Rattle.kw_base.specs.Fault.{IfFault};
ghost use Rattle.one_rule.specs.Hosts.{host_specs};
ghost use Rattle.one_rule.specs.Stimulus.{inputs_of};
ghost use Rattle.front_end.specs.Lengths.{HasNoRun, is_too_long_for};
ghost use Rattle.front_end.specs.Sources.{Spells, longest_source};
ghost use Rattle.front_end.specs.Streams.{stream};
ghost use Rattle.front_end.specs.Told.{Told};
ghost use Rattle.lab_top.specs.Runs.{waves_in};
ghost use Rattle.lab_top.specs.inner.Registers.{registers_after};
ghost use Rattle.lab_top.specs.inner.Waves.{HasTaken, edges_to};

use crate::runs::read_run;
use front_end::{BATCH, Lowered, Untold, write_text};
use host_fn::HostFn;
use kw_base::Refusal;
use kw_bits::{NoMemory, Text};
use kw_io::Sink;
use one_rule::{Externs, Regs, Stimulus, first_values};
use plain_run::run_from;
use std::alloc::Global;
use typed_core::Design;
use wave_text::{Waves, head};

/// The run whose waves are asked for: that many of its cycles.
#[derive(Drop)]
pub(crate) struct WavesRun {
    pub(crate) lowered: Lowered,
    pub(crate) cycles: u32,
    ghost within: { is_too_long_for cycles lowered.checked ≡ false },
}

impl WavesRun {
    /// The run that a source spells, or the fault with which the source is refused.
    pub(crate) fn read(
        alloc: Global,
        cycles: u32,
        hosts: &[HostFn],
        source: &[u8],
    ) -> Result<WavesRun, Refusal>
        requires { length source.now ≤ longest_source }
        ensures run { IfOk result (λ run.
            Spells (host_specs hosts.now) source.now run.lowered.checked (arc_value run.lowered.stimulus)) }
        ensures cycles { IfOk result (λ run. run.cycles ≡ cycles) }
        ensures refused { IfFault result (HasNoRun (host_specs hosts.now) cycles source.now) }
    {
        let lowered = read_run(alloc, u64::from(cycles), hosts, source)?;
        Ok(WavesRun { lowered, cycles })
    }

    /// Makes the run and writes its dump, batch by batch.
    pub(crate) fn write<K: Sink>(&self, alloc: Global, sink: &mut K) -> Result<(), Untold>
        ensures { Told
            (waves_in self.now.lowered.checked (inputs_of (arc_value self.now.lowered.stimulus)) self.now.cycles)
            (stream K.written K.faults sink.old sink.new) result }
    {
        let shape = &self.lowered.shape;
        let head = head(alloc, shape)?;
        let mut waves = self.begin(alloc)?;
        write_text(sink, head.as_slice())?;
        self.write_edges(alloc, &mut waves, sink)?;
        let ending = waves.ending(alloc, shape)?;
        write_text(sink, ending.as_slice())
    }

    // The waves before all cycles. Of this one row nothing is written yet.
    fn begin(&self, alloc: Global) -> Result<Waves, NoMemory>
        ensures { IfOk result
            (HasTaken self.now.lowered.checked (inputs_of (arc_value self.now.lowered.stimulus)) 0) }
    {
        let design: &Design = &self.lowered.design;
        let externs: &Externs = &self.lowered.externs;
        let stimulus: &Stimulus = &self.lowered.stimulus;
        design.recall();
        stimulus.recall();
        let regs = first_values(alloc, design)?;
        let rows = run_from(alloc, design, externs, stimulus, &regs, 0, 0)?;
        let mut waves = Waves::new(alloc, &self.lowered.shape)?;
        waves.take(alloc, &self.lowered.shape, stimulus, &rows)?;
        Ok(waves)
    }

    // Makes the run and writes its edges but the last one, each batch when it was made.
    fn write_edges<K: Sink>(
        &self,
        alloc: Global,
        waves: &mut Waves,
        sink: &mut K,
    ) -> Result<(), Untold>
        requires { HasTaken self.now.lowered.checked (inputs_of (arc_value self.now.lowered.stimulus)) 0 waves.old }
        ensures told { Told
            (edges_to self.now.lowered.checked (inputs_of (arc_value self.now.lowered.stimulus)) self.now.cycles)
            (stream K.written K.faults sink.old sink.new) result }
        ensures taken { OnOk result (HasTaken
            self.now.lowered.checked (inputs_of (arc_value self.now.lowered.stimulus)) self.now.cycles waves.new) }
    {
        let design: &Design = &self.lowered.design;
        let mut regs = first_values(alloc, design)?;
        let mut at = 0;
        while at < self.cycles {
            let to = self.cycles.min(at + BATCH);
            let text = self.take_batch(alloc, at, to, &mut regs, waves)?;
            write_text(sink, text.as_slice())?;
            at = to;
        }
        Ok(())
    }

    // Makes the run from one cycle to another, and gives what is written of it. The registers are those that it finds,
    // and then those that it leaves.
    fn take_batch(
        &self,
        alloc: Global,
        from: u32,
        to: u32,
        regs: &mut Regs,
        waves: &mut Waves,
    ) -> Result<Text, NoMemory>
        requires registers { regs.old ≡ registers_after
            (arc_value self.now.lowered.design) (inputs_of (arc_value self.now.lowered.stimulus)) from }
        requires taken { HasTaken
            self.now.lowered.checked (inputs_of (arc_value self.now.lowered.stimulus)) from waves.old }
        requires order { from ≤ to }
        requires few { to ≤ 16777216 }
        ensures text { IfOk result (λ text.
            edges_to self.now.lowered.checked (inputs_of (arc_value self.now.lowered.stimulus)) to
            ≡ edges_to self.now.lowered.checked (inputs_of (arc_value self.now.lowered.stimulus)) from ++ text) }
        ensures registers { OnOk result (regs.new ≡ registers_after
            (arc_value self.now.lowered.design) (inputs_of (arc_value self.now.lowered.stimulus)) to) }
        ensures taken { OnOk result (HasTaken
            self.now.lowered.checked (inputs_of (arc_value self.now.lowered.stimulus)) to waves.new) }
    {
        let design: &Design = &self.lowered.design;
        let externs: &Externs = &self.lowered.externs;
        let stimulus: &Stimulus = &self.lowered.stimulus;
        design.recall();
        stimulus.recall();
        let rows = run_from(alloc, design, externs, stimulus, regs, from, to)?;
        let text = waves.take(alloc, &self.lowered.shape, stimulus, &rows)?;
        let last = rows.get(rows.len() - 1);
        *regs = Regs::from_slice(alloc, last.regs.as_slice())?;
        Ok(text)
    }
}
