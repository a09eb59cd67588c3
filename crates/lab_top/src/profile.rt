//! Commands: how often the rules of a run fired or didn't.

ghost use Rattle.std.specs.Prelude.{◌≡◌, ◌≤◌, ◌&&◌, IfOk, length};
ghost use Rattle.kw_base.specs.Fault.{IfFault};
ghost use Rattle.koika_lower.specs.Lowering.{IsLowered, typed_input_widths};
ghost use Rattle.typed_core.specs.Valid.{externs_of};
ghost use Rattle.one_rule.specs.Externs.{kept};
ghost use Rattle.one_rule.specs.Hosts.{host_specs};
ghost use Rattle.one_rule.specs.Stimulus.{inputs_of};
ghost use Rattle.front_end.specs.Lengths.{HasNoRun};
ghost use Rattle.front_end.specs.Sources.{longest_source};
ghost use Rattle.lab_top.specs.Profile.{CountsRun};
ghost use Rattle.lab_top.specs.Runs.{numbers_in};

use crate::runs::read_run;
use host_fn::HostFn;
use koika_check::Checked;
use kw_base::Refusal;
use kw_bits::{NoMemory, Text};
use lab_core::Profile;
use one_rule::{Externs, Stimulus, first_values};
use std::alloc::Global;
use typed_core::Design;

/// What is written of the trials of a run, and whether some assertion was violated or not watched.
#[derive(Debug, Drop)]
pub(crate) struct Counted {
    pub(crate) text: Text,
    pub(crate) is_in_doubt: bool,
}

impl Counted {
    /// Whether a call fails by the assertions: a strict one does where one of them is in doubt.
    pub(crate) fn fails(&self, is_strict: bool) -> bool
        ensures { result ≡ (is_strict && self.now.is_in_doubt) }
    {
        is_strict && self.is_in_doubt
    }
}

/// The numbers of a source's run for these cycles, or the fault with which the source is refused.
pub(crate) fn count_source(
    alloc: Global,
    cycles: u32,
    hosts: &[HostFn],
    source: &[u8],
) -> Result<Counted, Refusal>
    requires { length source.now ≤ longest_source }
    ensures counts { IfOk result (λ counted.
        CountsRun (host_specs hosts.now) cycles source.now counted.text counted.is_in_doubt) }
    ensures refused { IfFault result (HasNoRun (host_specs hosts.now) cycles source.now) }
{
    let lowered = read_run(alloc, u64::from(cycles), hosts, source)?;
    let design: &Design = &lowered.design;
    let externs: &Externs = &lowered.externs;
    let stimulus: &Stimulus = &lowered.stimulus;
    let profile = count(alloc, &lowered.checked, design, externs, stimulus, cycles)?;
    let marks = lowered.checked.asserts();
    let text = profile.text(alloc, design, marks)?;
    Ok(Counted {
        text,
        is_in_doubt: profile.fails_strictly(marks),
    })
}

// The numbers of a run for these cycles.
fn count(
    alloc: Global,
    checked: &Checked,
    design: &Design,
    externs: &Externs,
    stimulus: &Stimulus,
    cycles: u32,
) -> Result<Profile, NoMemory>
    requires lowered { IsLowered checked.now design.now }
    requires externs { kept externs.now ≡ externs_of design.now }
    requires stimulus { stimulus.now.widths ≡ typed_input_widths checked.now }
    ensures { IfOk result (λ profile. profile ≡ numbers_in checked.now (inputs_of stimulus.now) cycles) }
{
    let _checked = checked;
    design.recall();
    stimulus.recall();
    let mut regs = first_values(alloc, design)?;
    let mut profile = Profile::new(alloc, design)?;
    for before in 0..cycles {
        let cycle = before + 1;
        let inputs = stimulus.inputs(cycle)?;
        profile.add_cycle(alloc, design, externs, cycle, &inputs, &mut regs)?;
    }
    Ok(profile)
}
