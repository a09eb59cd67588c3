//! The plain program for the trials of a cycle, beside the one that the commands use.

ghost use Rattle.std.specs.Prelude.{◌≡◌, ◌≤◌, length};
ghost use Rattle.koika_lower.specs.Lowering.{IsLowered, typed_input_widths};
ghost use Rattle.typed_core.specs.Valid.{externs_of};
ghost use Rattle.one_rule.specs.Externs.{kept};
ghost use Rattle.front_end.specs.Sources.{longest_source};

use crate::ROOM;
use front_end::{Lowered, read_source};
use host_fn::HostFn;
use koika_check::Checked;
use kw_base::Refusal;
use kw_bits::{NoMemory, Sequence};
use lab_core::{Trial, slow_trials, trials};
use one_rule::{Externs, Stimulus, first_values};
use std::alloc::Global;
use std::io;
use typed_core::Design;

// The trials of a cycle by both programs.
#[derive(Drop)]
struct Both {
    plain: Sequence<Trial>,
    used: Sequence<Trial>,
}

/// Writes the trials of the first cycle of a source as the plain program finds them, and says whether the other one finds
/// the same.
pub(crate) fn run_slow(rt: &HostRuntime, source: &[u8]) -> io::Result<()> {
    if source.len() > ROOM {
        return println!(rt; "too long");
    }
    match trials_of(rt.alloc(), &[], source) {
        Ok(both) => write_trials(rt, &both),
        Err(_) => println!(rt; "no trials"),
    }
}

// The trials of the first cycle of a source.
fn trials_of(alloc: Global, hosts: &[HostFn], source: &[u8]) -> Result<Both, Refusal>
    requires { length source.now ≤ longest_source }
{
    let spelled = read_source(alloc, hosts, source)?;
    let lowered = Lowered::new(alloc, spelled, hosts)?;
    let design: &Design = &lowered.design;
    let externs: &Externs = &lowered.externs;
    let stimulus: &Stimulus = &lowered.stimulus;
    let both = first_trials(alloc, &lowered.checked, design, externs, stimulus)?;
    Ok(both)
}

// The trials of the first cycle of a run.
fn first_trials(
    alloc: Global,
    checked: &Checked,
    design: &Design,
    externs: &Externs,
    stimulus: &Stimulus,
) -> Result<Both, NoMemory>
    requires lowered { IsLowered checked.now design.now }
    requires externs { kept externs.now ≡ externs_of design.now }
    requires stimulus { stimulus.now.widths ≡ typed_input_widths checked.now }
{
    let _checked = checked;
    let mut regs = first_values(alloc, design)?;
    let inputs = stimulus.inputs(1)?;
    let plain = slow_trials(alloc, design, externs, &inputs, &regs)?;
    let used = trials(alloc, design, externs, &inputs, &mut regs)?;
    Ok(Both { plain, used })
}

// Writes the trials by the plain program: the rule's number, the verdict, and how many events it has.
fn write_trials(rt: &HostRuntime, both: &Both) -> io::Result<()> {
    for trial in both.plain.as_slice() {
        let events = trial.events.len();
        println!(rt; "rule {}, {events} events: {:?}", trial.rule, trial.verdict)?;
    }
    let plain = format!(in rt.alloc(); "{:?}", both.plain)?;
    let used = format!(in rt.alloc(); "{:?}", both.used)?;
    if plain.as_str() == used.as_str() {
        println!(rt; "the same trials")
    } else {
        println!(rt; "other trials")
    }
}
