//! The lab: the walk through a cycle, trial by trial.

ghost use Rattle.std.specs.Prelude.{◌≡◌, ◌<◌, ◌++◌, ◌∷◌, [], IfOk, OnOk, length};
ghost use Rattle.one_rule.specs.Cycle.{cycle, fire, system_of};
ghost use Rattle.one_rule.specs.Externs.{kept};
ghost use Rattle.one_rule.specs.Walk.{goes_on, pass};
ghost use Rattle.typed_core.specs.Continuations.{is_at, root};
ghost use Rattle.typed_core.specs.Valid.{externs_of};
ghost use Rattle.typed_core.specs.Widths.{HaveWidths, input_widths, register_widths};
ghost use Rattle.lab_core.specs.Trials.{trial_at, trial_of, trials};
ghost use Rattle.lab_core.specs.inner.Steps.{state_of, walk_at};

use crate::judge::judge;
use crate::trial::{Trial, TrialVerdict};
use crate::tried::Tried;
use kw_bits::{NoMemory, Sequence};
use one_rule::{Environment, Externs, Inputs, Regs, alone};
use std::alloc::Global;
use typed_core::{Design, Next, Node, apply};

/// The trials of a cycle, in the order of the walk. It leaves the registers of the cycle's row; an `Err` leaves any.
pub fn trials(
    alloc: Global,
    design: &Design,
    externs: &Externs,
    inputs: &Inputs,
    regs: &mut Regs,
) -> Result<Sequence<Trial>, NoMemory>
    requires externs { kept externs.now ≡ externs_of design.now }
    requires inputs { HaveWidths (input_widths design.now) inputs.now }
    requires registers { HaveWidths (register_widths design.now) regs.old }
    ensures trials { IfOk result (λ list. list ≡ trials (system_of design.now) inputs.now regs.old) }
    ensures registers { OnOk result (regs.new ≡ (cycle (system_of design.now) inputs.now regs.old).regs) }
    ensures fits { OnOk result (HaveWidths (register_widths design.now) regs.new) }
{
    let env = Environment {
        design,
        externs,
        inputs,
    };
    let mut tried = Tried::new(alloc, design.regs.len())?;
    walk(&env, regs, &mut tried)?;
    Ok(tried.into_list())
}

/// The trials of a cycle, as a plain program finds them: it compares each access with all that were made before.
pub fn slow_trials(
    alloc: Global,
    design: &Design,
    externs: &Externs,
    inputs: &Inputs,
    regs: &Regs,
) -> Result<Sequence<Trial>, NoMemory>
    requires externs { kept externs.now ≡ externs_of design.now }
    requires inputs { HaveWidths (input_widths design.now) inputs.now }
    requires registers { HaveWidths (register_widths design.now) regs.now }
    ensures { IfOk result (λ list. list ≡ trials (system_of design.now) inputs.now regs.now) }
{
    let env = Environment {
        design,
        externs,
        inputs,
    };
    let mut regs = Sequence::from_slice(alloc, regs.as_slice())?;
    let mut tried = Tried::new(alloc, 0)?;
    walk(&env, &mut regs, &mut tried)?;
    Ok(tried.into_list())
}

// Walks through a cycle in which nothing is tried yet.
fn walk(env: &Environment<Externs>, regs: &mut Regs, tried: &mut Tried) -> Result<(), NoMemory>
    requires externs { kept env.now.externs.now ≡ externs_of env.now.design.now }
    requires inputs { HaveWidths (input_widths env.now.design.now) env.now.inputs.now }
    requires registers { HaveWidths (register_widths env.now.design.now) regs.old }
    requires none { tried.old ≡ [] }
    ensures trials { OnOk result (tried.new ≡ trials (system_of env.now.design.now) env.now.inputs.now regs.old) }
    ensures registers { OnOk result (regs.new ≡ (cycle (system_of env.now.design.now) env.now.inputs.now regs.old).regs) }
    ensures fits { OnOk result (HaveWidths (register_widths env.now.design.now) regs.new) }
{
    let design = env.design;
    let nodes = design.nodes.as_slice();
    let mut at = design.root();
    for (number, node) in nodes.iter().enumerate() {
        at = pass(env, number, node, at, regs, tried)?;
    }
    Ok(())
}

// Tries the rule of the node of this number if the walk is at it, and returns where the walk is then.
fn pass(
    env: &Environment<Externs>,
    number: usize,
    node: &Node,
    at: Next,
    regs: &mut Regs,
    tried: &mut Tried,
) -> Result<Next, NoMemory>
    requires externs { kept env.now.externs.now ≡ externs_of env.now.design.now }
    requires rule { node.now.rule < length env.now.design.now.rules }
    requires inputs { HaveWidths (input_widths env.now.design.now) env.now.inputs.now }
    requires registers { HaveWidths (register_widths env.now.design.now) regs.old }
    ensures pass { IfOk result (λ next. pass (fire (system_of env.now.design.now) env.now.inputs.now) number node.now (walk_at regs.old tried.old at) ≡ walk_at regs.new tried.new next) }
    ensures trials { OnOk result (tried.new ≡ tried.old ++ trial_at (system_of env.now.design.now) env.now.inputs.now number node.now (walk_at regs.old tried.old at)) }
    ensures fits { OnOk result (HaveWidths (register_widths env.now.design.now) regs.new) }
{
    if at.is_at(number) {
        visit(env, node, regs, tried)
    } else {
        Ok(at)
    }
}

// Tries the rule of a node, and returns where the walk goes on.
fn visit(
    env: &Environment<Externs>,
    node: &Node,
    regs: &mut Regs,
    tried: &mut Tried,
) -> Result<Next, NoMemory>
    requires externs { kept env.now.externs.now ≡ externs_of env.now.design.now }
    requires rule { node.now.rule < length env.now.design.now.rules }
    requires inputs { HaveWidths (input_widths env.now.design.now) env.now.inputs.now }
    requires registers { HaveWidths (register_widths env.now.design.now) regs.old }
    ensures visit { IfOk result (λ next. goes_on node.now (state_of regs.old tried.old) (fire (system_of env.now.design.now) env.now.inputs.now node.now.rule (state_of regs.old tried.old)) ≡ walk_at regs.new tried.new next) }
    ensures trials { OnOk result (tried.new ≡ tried.old ++ trial_of (system_of env.now.design.now) env.now.inputs.now node.now.rule (state_of regs.old tried.old) ∷ []) }
    ensures fits { OnOk result (HaveWidths (register_widths env.now.design.now) regs.new) }
{
    let alloc = tried.allocator();
    let run = alone(alloc, env.design, env.externs, node.rule, env.inputs, regs)?;
    let judged = judge(tried, &run);
    let mut events = run.events;
    events.truncate(judged.shown);
    let trial = Trial {
        rule: node.rule,
        verdict: judged.verdict,
        events,
    };
    match judged.verdict {
        TrialVerdict::Fired => {
            apply(regs, &trial.events);
            tried.push(trial)?;
            Ok(node.yes)
        }
        TrialVerdict::Refused(_) => {
            tried.push(trial)?;
            Ok(node.no)
        }
    }
}
