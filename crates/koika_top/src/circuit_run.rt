//! Engines: the run of a BTOR2 text that `btorsim` asks for.

ghost use Rattle.std.specs.Prelude.{◌≡◌, ◌≤◌, ◌<◌, ◌+◌, ◌^◌, ◌⊎◌, IfOk, OnOk, List, false, true, length};
ghost use Rattle.kw_base.specs.Fault.{IfFault};
ghost use Rattle.btor2_text.specs.declared.line.Line.{Line as LineOf};
ghost use Rattle.circuit_eval.specs.Circuits.{input_widths};
ghost use Rattle.one_rule.specs.Stimulus.{inputs_of};
ghost use Rattle.stim_report.specs.Cuts.{parts_of};
ghost use Rattle.koika_top.specs.Btorsim.{HasNoLines, HasNoStimulus, HasNoText, HoldsRun, HoldsText, IsRefusal, RunsTooLong, is_too_long, longest_circuit, shown_run};
ghost use Rattle.koika_top.specs.inner.CircuitRuns.{HasFewLines, IsCircuitOf};
ghost use Rattle.koika_top.specs.CircuitShapes as circuits;
ghost use Rattle.front_end.specs.Lengths as lengths;
ghost use Rattle.front_end.specs.Sources.{fault_of_source};
ghost use Rattle.front_end.specs.Streams.{stream};
ghost use Rattle.front_end.specs.Told.{Told};

use crate::machine_run::MachineRun;
use crate::shown::Shown;
use crate::teller::Teller;
use crate::text_circuit::{TextCircuit, bad_watch};
use btor2_model::{Btor, accept};
use btor2_text::read_lines;
use circuit_eval::{Circuit, WordSim};
use front_end::{Untold, fault_of_source, is_too_long};
use kw_base::{Refusal, fault_number};
use kw_bits::{Sequence, Text};
use kw_io::Sink;
use one_rule::Stimulus;
use std::alloc::Global;
use stim_report::{Shape, SourceParts, read_stimulus, source_parts};

/// The run of a BTOR2 text that is asked for: its circuit, which after the text's outputs has one more for each bad line,
/// and their names; the stimulus, what reports show of the text, for how many cycles, and what is shown of the run.
#[derive(Drop)]
pub(crate) struct CircuitRun {
    pub(crate) circuit: Circuit,
    pub(crate) bads: Sequence<Text>,
    pub(crate) stimulus: Stimulus,
    pub(crate) shape: Shape,
    pub(crate) cycles: u32,
    pub(crate) shown: Shown,
    ghost registers_fit: { shape.registers ≡ (circuits.shape_of circuit).registers },
    ghost rules_fit: { length shape.rules ≤ length (circuits.shape_of circuit).rules },
    ghost stimulus_fits: { stimulus.widths ≡ input_widths circuit.inputs },
    ghost few_flags: { length shape.rules + length bads < 2 ^ 32 },
    ghost few_cycles: { cycles ≤ 16777216 },
}

impl CircuitRun {
    /// The run of the text that a source holds, or the fault with which the source is refused.
    pub(crate) fn read(
        alloc: Global,
        cycles: u32,
        shown: Shown,
        source: &[u8],
    ) -> Result<CircuitRun, Refusal>
        requires { length source.now ≤ longest_circuit }
        ensures run { IfOk result (λ run. (lines : List LineOf) × HoldsRun source.now lines run.stimulus
            × IsCircuitOf lines run.circuit run.shape run.bads × (is_too_long cycles lines ≡ false)) }
        ensures cycles { IfOk result (λ run. run.cycles ≡ cycles) }
        ensures shown { IfOk result (λ run. run.shown ≡ shown) }
        ensures refused { IfFault result (IsRefusal cycles source.now) }
    {
        let parts = source_parts(source);
        let text = read_text(alloc, source, parts.design)?;
        run_of(alloc, cycles, shown, source, parts, text)
    }

    /// Runs the circuit and writes what is shown of its rows, batch by batch, and after them the violations.
    pub(crate) fn write<K: Sink>(&self, alloc: Global, sink: &mut K) -> Result<(), Untold>
        ensures { (lines : List LineOf) → IsCircuitOf lines self.now.circuit self.now.shape self.now.bads
            → Told (shown_run self.now.shown lines (inputs_of self.now.stimulus) self.now.cycles)
            (stream K.written K.faults sink.old sink.new) result }
    {
        self.circuit.recall();
        self.stimulus.recall();
        let watch = bad_watch(alloc, self.shape.rules.len(), self.bads.as_slice())?;
        let teller = Teller::new(alloc, &self.shape, self.shown, watch)?;
        let sim = WordSim::begin(alloc, &self.circuit)?;
        let run = MachineRun {
            machine: sim,
            stimulus: &self.stimulus,
            cycles: self.cycles,
        };
        run.tell(alloc, &self.shape, teller, sink)
    }
}

// The run of a source's text, or the fault of its stimulus or of its length. The text isn't kept.
fn run_of(
    alloc: Global,
    cycles: u32,
    shown: Shown,
    source: &[u8],
    parts: SourceParts<'_>,
    text: Btor,
) -> Result<CircuitRun, Refusal>
    requires stimulus { parts.stimulus.now ≡ (parts_of source.now).stimulus }
    requires first_line { parts.first_line ≡ (parts_of source.now).first_line }
    requires text { HoldsText source.now text }
    requires few { HasFewLines text }
    ensures run { IfOk result (λ run. HoldsRun source.now text run.stimulus) }
    ensures circuit { IfOk result (λ run. IsCircuitOf text run.circuit run.shape run.bads) }
    ensures within { OnOk result (is_too_long cycles text ≡ false) }
    ensures cycles { IfOk result (λ run. run.cycles ≡ cycles) }
    ensures shown { IfOk result (λ run. run.shown ≡ shown) }
    ensures refused { IfFault result (λ fault.
        HasNoStimulus source.now fault ⊎ RunsTooLong cycles source.now fault) }
{
    let made = TextCircuit::of(alloc, text)?;
    made.circuit.recall();
    let stimulus = read_stimulus(alloc, parts.stimulus, parts.first_line, &made.shape)?;
    fits(cycles, &made.shape)?;
    let TextCircuit {
        circuit,
        shape,
        bads,
    } = made;
    Ok(CircuitRun {
        circuit,
        bads,
        stimulus,
        shape,
        cycles,
        shown,
    })
}

/// The fault of a run that is longer than runs may be.
pub(crate) fn fits(cycles: u32, shape: &Shape) -> Result<(), Refusal>
    ensures within { OnOk result (lengths.is_too_long cycles (length shape.now.registers) (length shape.now.rules) ≡ false) }
    ensures refused { IfFault result (λ fault. (fault ≡ fault_of_source 45)
        × (lengths.is_too_long cycles (length shape.now.registers) (length shape.now.rules) ≡ true)) }
{
    if is_too_long(cycles as u64, shape.registers.len(), shape.rules.len()) {
        return Err(Refusal::Fault(fault_of_source(fault_number::RUN_TOO_LONG)));
    }
    Ok(())
}

// The text that a source holds with its design part, or the fault of its lines.
fn read_text(alloc: Global, source: &[u8], design: &[u8]) -> Result<Btor, Refusal>
    requires short { length source.now ≤ longest_circuit }
    requires cut { design.now ≡ (parts_of source.now).design }
    requires within { length design.now ≤ length source.now }
    ensures text { IfOk result (HoldsText source.now) }
    ensures few { IfOk result HasFewLines }
    ensures refused { IfFault result (λ fault. HasNoLines source.now fault ⊎ HasNoText source.now fault) }
{
    let lines = read_lines(alloc, design)?;
    accept(alloc, lines)
}
