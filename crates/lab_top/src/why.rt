//! Commands: why the rules of a run fired or didn't.

ghost use Rattle.std.specs.Prelude.{◌≡◌, ◌-◌, ◌≤◌, ℕ, IfOk, OnOk, Some, false, length};
ghost use Rattle.std.specs.Arc.{arc_value};
ghost use Rattle.kw_base.specs.Fault.{IfFault};
ghost use Rattle.koika_check.specs.Typing.{IsTypedDesign};
ghost use Rattle.koika_check.specs.declared.checked.Checked.{Checked};
ghost use Rattle.koika_lower.specs.Lowering.{IsLowered};
ghost use Rattle.one_rule.specs.Hosts.{host_specs};
ghost use Rattle.one_rule.specs.Stimulus.{inputs_of};
ghost use Rattle.front_end.specs.Lengths.{is_too_long_for};
ghost use Rattle.front_end.specs.Sources.{Spells, longest_source};
ghost use Rattle.front_end.specs.Streams.{stream};
ghost use Rattle.front_end.specs.Told.{Told};
ghost use Rattle.lab_top.specs.Runs.{asked_of, text_in, why_text};
ghost use Rattle.lab_top.specs.Why.{AnswersWhy, last_of};
ghost use Rattle.lab_top.specs.inner.Registers.{registers_after};
ghost use Rattle.lab_top.specs.declared.answer.LabAnswer.TheVariants.{Refused};

use crate::fault_number::NO_SUCH_RULE;
use crate::runs::{read_run, registers_after};
use front_end::{Lowered, Untold, fault_of_source, write_text};
use host_fn::HostFn;
use kw_base::Refusal;
use kw_bits::{NoMemory, Text};
use kw_io::Sink;
use lab_core::{rule_named, why_cycle};
use one_rule::{Environment, Externs, Regs, Stimulus};
use std::alloc::Global;
use typed_core::Design;

/// What is asked of a run: that many of its cycles from one on, and the rule that is asked for, or none where it is all
/// of them.
#[derive(Drop)]
pub(crate) struct WhyRun {
    pub(crate) lowered: Lowered,
    pub(crate) cycle: u32,
    pub(crate) cycles: u32,
    pub(crate) only: Option<u32>,
    ghost within: { is_too_long_for (last_of cycle cycles) lowered.checked ≡ false },
    ghost first: { 1 ≤ cycle },
}

impl WhyRun {
    /// The run that a source spells, or the fault with which the source is refused.
    pub(crate) fn read(
        alloc: Global,
        cycle: u32,
        cycles: u32,
        name: Option<Text>,
        hosts: &[HostFn],
        source: &[u8],
    ) -> Result<WhyRun, Refusal>
        requires short { length source.now ≤ longest_source }
        requires first { 1 ≤ cycle }
        requires some { 1 ≤ cycles }
        ensures run { IfOk result (λ run.
            Spells (host_specs hosts.now) source.now run.lowered.checked (arc_value run.lowered.stimulus)) }
        ensures cycle { IfOk result (λ run. run.cycle ≡ cycle) }
        ensures cycles { IfOk result (λ run. run.cycles ≡ cycles) }
        ensures asked { IfOk result (λ run. asked_of run.lowered.checked name ≡ Some run.only) }
        ensures refused { IfFault result (λ fault.
            AnswersWhy (host_specs hosts.now) cycle cycles name source.now (Refused fault)) }
    {
        let lowered = read_run(alloc, last_of(cycle, cycles), hosts, source)?;
        match asked_of(&lowered.design, name) {
            Some(only) => Ok(WhyRun {
                lowered,
                cycle,
                cycles,
                only,
            }),
            None => Err(Refusal::Fault(fault_of_source(NO_SUCH_RULE))),
        }
    }

    /// Makes the run and writes the trials of its cycles, each when it was made.
    pub(crate) fn write<K: Sink>(&self, alloc: Global, sink: &mut K) -> Result<(), Untold>
        ensures { Told
            (why_text self.now.lowered.checked self.now.only (inputs_of (arc_value self.now.lowered.stimulus))
            self.now.cycle self.now.cycles)
            (stream K.written K.faults sink.old sink.new) result }
    {
        let mut regs = self.registers_before(alloc)?;
        for cycle in self.cycle..self.cycle + self.cycles {
            self.write_cycle(alloc, cycle, &mut regs, sink)?;
        }
        Ok(())
    }

    // The registers that the first cycle finds.
    fn registers_before(&self, alloc: Global) -> Result<Regs, NoMemory>
        ensures { IfOk result (λ regs.
            regs ≡ registers_after (arc_value self.now.lowered.design) (inputs_of (arc_value self.now.lowered.stimulus))
            (self.now.cycle - 1)) }
    {
        let design: &Design = &self.lowered.design;
        let externs: &Externs = &self.lowered.externs;
        let stimulus: &Stimulus = &self.lowered.stimulus;
        registers_after(alloc, design, externs, stimulus, self.cycle - 1)
    }

    // Writes the trials of a cycle, and takes the registers through it.
    fn write_cycle<K: Sink>(
        &self,
        alloc: Global,
        cycle: u32,
        regs: &mut Regs,
        sink: &mut K,
    ) -> Result<(), Untold>
        requires first { 1 ≤ cycle }
        requires registers { regs.old ≡ registers_after
            (arc_value self.now.lowered.design) (inputs_of (arc_value self.now.lowered.stimulus)) (cycle - 1) }
        ensures told { Told
            (text_in self.now.lowered.checked self.now.only (inputs_of (arc_value self.now.lowered.stimulus)) cycle)
            (stream K.written K.faults sink.old sink.new) result }
        ensures registers { OnOk result (regs.new ≡ registers_after
            (arc_value self.now.lowered.design) (inputs_of (arc_value self.now.lowered.stimulus)) cycle) }
    {
        let design: &Design = &self.lowered.design;
        let externs: &Externs = &self.lowered.externs;
        let stimulus: &Stimulus = &self.lowered.stimulus;
        design.recall();
        stimulus.recall();
        let inputs = stimulus.inputs(cycle)?;
        let env = Environment {
            design,
            externs,
            inputs: &inputs,
        };
        let text = why_cycle(alloc, &env, self.only, cycle, regs)?;
        write_text(sink, text.as_slice())
    }
}

// The last of that many cycles from this one on.
fn last_of(cycle: u32, cycles: u32) -> u64
    requires { 1 ≤ cycle }
    ensures { result ≡ last_of cycle cycles }
{
    u64::from(cycle) + u64::from(cycles) - 1
}

// The rule that is asked for, or none where it is all of them; it has to be there.
fn asked_of(design: &Design, name: Option<Text>) -> Option<Option<u32>>
    ensures { (d : Checked) → IsLowered d design.now → result ≡ asked_of d name }
{
    match name {
        None => Some(None),
        Some(name) => match rule_named(design, name.as_slice()) {
            Some(rule) => Some(Some(rule)),
            None => None,
        },
    }
}
