//! The lab: why rules fired in a cycle or didn't, as text.

ghost use Rattle.std.specs.Prelude.{◌≡◌, ◌++◌, IfOk, OnOk, length};
ghost use Rattle.std.specs.List.{filter, flat_map};
ghost use Rattle.one_rule.specs.Cycle as cycles;
ghost use Rattle.one_rule.specs.Cycle.{system_of};
ghost use Rattle.one_rule.specs.Externs.{kept};
ghost use Rattle.journal_check.specs.Printing.{spaced};
ghost use Rattle.stim_report.specs.Report.{registers_text};
ghost use Rattle.stim_report.specs.Shapes.{widths_of};
ghost use Rattle.typed_core.specs.Valid.{externs_of};
ghost use Rattle.typed_core.specs.Widths.{HaveWidths, input_widths, register_widths};
ghost use Rattle.lab_core.specs.Trials.{untried};
ghost use Rattle.lab_core.specs.inner.Lines.{asked_line};
ghost use Rattle.lab_core.specs.Why as texts;
ghost use Rattle.lab_core.specs.Why.{cycle_line, cycle_text, is_asked, trial_line, untried_line, verdict_tokens};

use crate::table::verdicts_of;
use crate::trial::{Trial, TrialVerdict};
use crate::walk::trials;
use journal_check::{
    name_of, position_of_rule, push_cause, push_events, push_number, push_token, push_value,
};
use kw_bits::{Bits, NoMemory, Text};
use one_rule::{Environment, Externs, Inputs, Regs};
use std::alloc::Global;
use stim_report::{NameWidth, shape_of};
use typed_core::Design;

/// The text of a cycle: its inputs, the registers that it finds, and its trials, or those of one rule. It leaves the
/// registers of the cycle's row; an `Err` leaves any.
pub fn why_cycle(
    alloc: Global,
    env: &Environment<Externs>,
    only: Option<u32>,
    cycle: u32,
    regs: &mut Regs,
) -> Result<Text, NoMemory>
    requires externs { kept env.now.externs.now ≡ externs_of env.now.design.now }
    requires inputs { HaveWidths (input_widths env.now.design.now) env.now.inputs.now }
    requires registers { HaveWidths (register_widths env.now.design.now) regs.old }
    ensures text { IfOk result (λ text. text ≡ cycle_text env.now.design.now only cycle env.now.inputs.now regs.old) }
    ensures registers { OnOk result (regs.new ≡ (cycles.cycle (system_of env.now.design.now) env.now.inputs.now regs.old).regs) }
    ensures fits { OnOk result (HaveWidths (register_widths env.now.design.now) regs.new) }
{
    let design = env.design;
    let mut text = Text::new(alloc);
    push_cycle(alloc, &mut text, design, cycle, env.inputs, regs)?;
    let tried = trials(alloc, design, env.externs, env.inputs, regs)?;
    push_trials(&mut text, design, only, tried.as_slice())?;
    push_untried(alloc, &mut text, design, only, tried.as_slice())?;
    Ok(text)
}

/// The number of the first rule of a name.
pub fn rule_named(design: &Design, name: &[u8]) -> Option<u32>
    ensures { result ≡ texts.rule_named design.now name.now }
{
    position_of_rule(design, name)
}

// Adds the line of a cycle.
fn push_cycle(
    alloc: Global,
    text: &mut Text,
    design: &Design,
    cycle: u32,
    inputs: &Inputs,
    regs: &Regs,
) -> Result<(), NoMemory>
    requires inputs { HaveWidths (input_widths design.now) inputs.now }
    requires registers { HaveWidths (register_widths design.now) regs.now }
    ensures { OnOk result (text.new ≡ text.old ++ cycle_line design.now cycle inputs.now regs.now) }
{
    let shape = shape_of(alloc, design)?;
    text.extend_from_slice(b"cycle")?;
    push_number(text, cycle)?;
    push_values(text, shape.inputs.as_slice(), inputs.as_slice())?;
    push_values(text, shape.registers.as_slice(), regs.as_slice())?;
    text.push(b'\n')
}

// Adds a space, the name, `=` and the value of each.
fn push_values(text: &mut Text, named: &[NameWidth], values: &[Bits]) -> Result<(), NoMemory>
    requires { HaveWidths (widths_of named.now) values.now }
    ensures { OnOk result (text.new ≡ text.old ++ registers_text named.now values.now) }
{
    for (number, one) in named.iter().enumerate() {
        push_token(text, one.name.as_slice())?;
        text.push(b'=')?;
        push_value(text, values[number])?;
    }
    Ok(())
}

// Adds the lines of trials, of those that are asked for.
fn push_trials(
    text: &mut Text,
    design: &Design,
    only: Option<u32>,
    tried: &[Trial],
) -> Result<(), NoMemory>
    ensures { OnOk result (text.new ≡ text.old ++ flat_map (trial_line design.now) (filter (λ t. is_asked only t.rule) tried.now)) }
{
    for trial in tried {
        if is_asked(only, trial.rule as usize) {
            push_trial(text, design, trial)?;
        }
    }
    Ok(())
}

// Whether lines of the rule are asked for.
fn is_asked(only: Option<u32>, rule: usize) -> bool
    ensures { result ≡ is_asked only rule }
{
    match only {
        Some(only) => rule == only as usize,
        None => true,
    }
}

// Adds the line of a trial.
fn push_trial(text: &mut Text, design: &Design, trial: &Trial) -> Result<(), NoMemory>
    ensures { OnOk result (text.new ≡ text.old ++ trial_line design.now trial.now) }
{
    text.extend_from_slice(name_of(design, trial.rule as usize))?;
    push_verdict(text, design, &trial.verdict)?;
    push_token(text, b":")?;
    push_events(text, design, trial.events.as_slice())?;
    text.push(b'\n')
}

fn push_verdict(text: &mut Text, design: &Design, verdict: &TrialVerdict) -> Result<(), NoMemory>
    ensures { OnOk result (text.new ≡ text.old ++ flat_map spaced (verdict_tokens design.now verdict.now)) }
{
    match verdict {
        TrialVerdict::Fired => push_token(text, b"fired"),
        TrialVerdict::Refused(cause) => push_cause(text, design, cause),
    }
}

// Adds the lines of rules without a trial, of those that are asked for.
fn push_untried(
    alloc: Global,
    text: &mut Text,
    design: &Design,
    only: Option<u32>,
    tried: &[Trial],
) -> Result<(), NoMemory>
    ensures { OnOk result (text.new ≡ text.old ++ flat_map (untried_line design.now) (filter (is_asked only) (untried (length design.now.rules) tried.now))) }
{
    let verdicts = verdicts_of(alloc, design.rules.len(), tried)?;
    for rule in 0..verdicts.len() {
        push_if_untried(text, design, only, rule, verdicts[rule])?;
    }
    Ok(())
}

// Adds the line of a rule that has no verdict, if it is asked for.
fn push_if_untried(
    text: &mut Text,
    design: &Design,
    only: Option<u32>,
    rule: usize,
    verdict: Option<TrialVerdict>,
) -> Result<(), NoMemory>
    ensures { OnOk result (text.new ≡ text.old ++ asked_line design.now only rule verdict) }
{
    match verdict {
        Some(_) => Ok(()),
        None => {
            if is_asked(only, rule) {
                push_untried_line(text, design, rule)
            } else {
                Ok(())
            }
        }
    }
}

// Adds the line of a rule without a trial.
fn push_untried_line(text: &mut Text, design: &Design, rule: usize) -> Result<(), NoMemory>
    ensures { OnOk result (text.new ≡ text.old ++ untried_line design.now rule) }
{
    text.extend_from_slice(name_of(design, rule))?;
    push_token(text, b"untried")?;
    text.push(b'\n')
}
