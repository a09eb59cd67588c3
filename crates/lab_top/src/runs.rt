//! Runs: the design and the stimulus of which the lab makes a run, and the registers that its first cycles leave.

ghost use Rattle.std.specs.Prelude.{◌≡◌, ◌≤◌, IfOk, false, length};
ghost use Rattle.std.specs.Arc.{arc_value};
ghost use Rattle.kw_base.specs.Fault.{IfFault};
ghost use Rattle.koika_check.specs.Typing.{IsTypedDesign};
ghost use Rattle.typed_core.specs.Valid.{externs_of};
ghost use Rattle.typed_core.specs.Widths.{HaveWidths, register_widths};
ghost use Rattle.one_rule.specs.Cycle.{system_of};
ghost use Rattle.one_rule.specs.Externs.{kept};
ghost use Rattle.one_rule.specs.Hosts.{host_specs};
ghost use Rattle.one_rule.specs.Run.{last_registers, run};
ghost use Rattle.one_rule.specs.Stimulus.{StimulusFits, inputs_of};
ghost use Rattle.front_end.specs.Lengths.{HasNoRun, is_too_long_for};
ghost use Rattle.front_end.specs.Sources.{Spells, longest_source};
ghost use Rattle.lab_top.specs.inner.Registers.{registers_after};

use front_end::{BATCH, Lowered, fault_of_source, is_too_long_for, read_source};
use host_fn::HostFn;
use kw_base::{Refusal, fault_number};
use kw_bits::NoMemory;
use one_rule::{Externs, Regs, Stimulus, first_values};
use plain_run::run_from;
use std::alloc::Global;
use typed_core::Design;

/// The design and the stimulus that a source spells, lowered, if it has a run of that many cycles.
pub(crate) fn read_run(
    alloc: Global,
    cycles: u64,
    hosts: &[HostFn],
    source: &[u8],
) -> Result<Lowered, Refusal>
    requires { length source.now ≤ longest_source }
    ensures spelled { IfOk result (λ lowered.
        Spells (host_specs hosts.now) source.now lowered.checked (arc_value lowered.stimulus)) }
    ensures typed { IfOk result (λ lowered. IsTypedDesign lowered.checked) }
    ensures within { IfOk result (λ lowered. is_too_long_for cycles lowered.checked ≡ false) }
    ensures refused { IfFault result (HasNoRun (host_specs hosts.now) cycles source.now) }
{
    let spelled = read_source(alloc, hosts, source)?;
    if is_too_long_for(cycles, &spelled.design) {
        return Err(Refusal::Fault(fault_of_source(fault_number::RUN_TOO_LONG)));
    }
    let lowered = Lowered::new(alloc, spelled, hosts)?;
    Ok(lowered)
}

/// The registers that the first cycles of a run leave. The plain engine makes them, in batches whose rows are dropped.
pub(crate) fn registers_after(
    alloc: Global,
    design: &Design,
    externs: &Externs,
    stimulus: &Stimulus,
    cycles: u32,
) -> Result<Regs, NoMemory>
    requires externs { kept externs.now ≡ externs_of design.now }
    requires stimulus { StimulusFits design.now stimulus.now }
    requires few { cycles ≤ 16777216 }
    ensures { IfOk result (λ regs. regs ≡ registers_after design.now (inputs_of stimulus.now) cycles) }
{
    let mut regs = first_values(alloc, design)?;
    let mut at = 0;
    while at < cycles {
        let to = cycles.min(at + BATCH);
        regs = left_by_batch(alloc, design, externs, &regs, stimulus, at, to)?;
        at = to;
    }
    Ok(regs)
}

// The registers that the cycles from one to another leave.
fn left_by_batch(
    alloc: Global,
    design: &Design,
    externs: &Externs,
    regs: &Regs,
    stimulus: &Stimulus,
    from: u32,
    to: u32,
) -> Result<Regs, NoMemory>
    requires externs { kept externs.now ≡ externs_of design.now }
    requires stimulus { StimulusFits design.now stimulus.now }
    requires registers { HaveWidths (register_widths design.now) regs.now }
    requires order { from ≤ to }
    ensures left { IfOk result (λ left.
        left ≡ last_registers regs.now (run (system_of design.now) (inputs_of stimulus.now) regs.now from to)) }
    ensures fits { IfOk result (λ left. HaveWidths (register_widths design.now) left) }
{
    let rows = run_from(alloc, design, externs, stimulus, regs, from, to)?;
    let last = rows.get(rows.len() - 1);
    Regs::from_slice(alloc, last.regs.as_slice())
}
