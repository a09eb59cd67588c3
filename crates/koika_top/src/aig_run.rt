//! Engines: the run of an AIGER text that `aigsim` asks for.

ghost use Rattle.std.specs.Prelude.{◌≡◌, ◌≤◌, ◌<◌, ◌^◌, ◌⊎◌, IfOk, OnOk, true, length};
ghost use Rattle.kw_base.specs.Fault.{IfFault};
ghost use Rattle.aig_blast.specs.Aigs.{input_word_widths};
ghost use Rattle.aiger_text.specs.AigShapes as shapes;
ghost use Rattle.one_rule.specs.Stimulus.{inputs_of};
ghost use Rattle.stim_report.specs.Cuts.{parts_of};
ghost use Rattle.koika_top.specs.Aigsim.{HasNoStimulus, IsRefusal, RunsTooLong};
ghost use Rattle.koika_top.specs.Btorsim.{longest_circuit};
ghost use Rattle.front_end.specs.Streams.{stream};
ghost use Rattle.koika_top.specs.inner.AigTexts.{HoldsGraph, HoldsGraphRun, shown_graph};
ghost use Rattle.front_end.specs.Told.{Told};

use crate::circuit_run::fits;
use crate::machine_run::MachineRun;
use crate::shown::Shown;
use aig_blast::{Aig, AigSim};
use aiger_text::{aig_shape, read_aiger};
use front_end::Untold;
use kw_base::Refusal;
use kw_io::Sink;
use one_rule::Stimulus;
use std::alloc::Global;
use stim_report::{Shape, SourceParts, read_stimulus, source_parts};

/// The run of an AIGER text that is asked for: its bit-level circuit, the stimulus, for how many cycles, and what is
/// shown of it.
#[derive(Drop)]
pub(crate) struct AigRun {
    pub(crate) aig: Aig,
    pub(crate) stimulus: Stimulus,
    pub(crate) shape: Shape,
    pub(crate) cycles: u32,
    pub(crate) shown: Shown,
    ghost shape_fits: { shape ≡ shapes.shape_of aig },
    ghost stimulus_fits: { stimulus.widths ≡ input_word_widths aig.inputs },
    ghost few_cycles: { cycles ≤ 16777216 },
}

impl AigRun {
    /// The run of the text that a source holds, or the fault with which the source is refused.
    pub(crate) fn read(
        alloc: Global,
        cycles: u32,
        shown: Shown,
        source: &[u8],
    ) -> Result<AigRun, Refusal>
        requires { length source.now ≤ longest_circuit }
        ensures run { IfOk result (λ run. HoldsGraphRun cycles source.now run.aig run.stimulus) }
        ensures cycles { IfOk result (λ run. run.cycles ≡ cycles) }
        ensures shown { IfOk result (λ run. run.shown ≡ shown) }
        ensures refused { IfFault result (IsRefusal cycles source.now) }
    {
        let parts = source_parts(source);
        let aig = read_aiger(alloc, parts.design)?;
        run_of(alloc, cycles, shown, source, parts, aig)
    }

    /// Runs the circuit and writes what is shown of its rows, batch by batch.
    pub(crate) fn write<K: Sink>(&self, alloc: Global, sink: &mut K) -> Result<(), Untold>
        ensures { Told (shown_graph self.now.shown self.now.aig self.now.stimulus self.now.cycles)
            (stream K.written K.faults sink.old sink.new) result }
    {
        self.aig.recall();
        let sim = AigSim::begin(alloc, &self.aig)?;
        let run = MachineRun {
            machine: sim,
            stimulus: &self.stimulus,
            cycles: self.cycles,
        };
        run.tell_shown(alloc, &self.shape, self.shown, sink)
    }
}

// The run of a source's circuit, or the fault of its stimulus or of its length.
fn run_of(
    alloc: Global,
    cycles: u32,
    shown: Shown,
    source: &[u8],
    parts: SourceParts<'_>,
    aig: Aig,
) -> Result<AigRun, Refusal>
    requires stimulus { parts.stimulus.now ≡ (parts_of source.now).stimulus }
    requires first_line { parts.first_line ≡ (parts_of source.now).first_line }
    requires aig { HoldsGraph source.now aig }
    requires few { length aig.inputs < 2 ^ 32 }
    ensures run { IfOk result (λ run. HoldsGraphRun cycles source.now run.aig run.stimulus) }
    ensures cycles { IfOk result (λ run. run.cycles ≡ cycles) }
    ensures shown { IfOk result (λ run. run.shown ≡ shown) }
    ensures refused { IfFault result (λ fault.
        HasNoStimulus source.now fault ⊎ RunsTooLong cycles source.now fault) }
{
    aig.recall();
    let shape = aig_shape(alloc, &aig)?;
    let stimulus = read_stimulus(alloc, parts.stimulus, parts.first_line, &shape)?;
    fits(cycles, &shape)?;
    Ok(AigRun {
        aig,
        stimulus,
        shape,
        cycles,
        shown,
    })
}
