//! Engines: the walk of a cycle over the scheduler's nodes.

ghost use Rattle.std.specs.Prelude.{◌≡◌, ◌<◌, IfOk, length};
ghost use Rattle.kw_bits.specs.BitVector.{BitVector};
ghost use Rattle.typed_core.specs.Evaluation.{Progress};
ghost use Rattle.typed_core.specs.Valid.{externs_of};
ghost use Rattle.typed_core.specs.Widths.{HaveWidths, input_widths, register_widths};
ghost use Rattle.typed_core.specs.declared.design.Parts.{Parts};
ghost use Rattle.typed_core.specs.declared.outcome.Stopped.{Stopped};
ghost use Rattle.one_rule.specs.Externs.{kept};
ghost use Rattle.one_rule.specs.PortRun.{PortState, merge, port_fire, port_walk};
ghost use Rattle.one_rule.specs.Walk.{goes_on, pass};
ghost use Rattle.typed_core.specs.Continuations.{is_at, root};
ghost use Rattle.rule_log.specs.StandsFor.{StandsFor, WritesFollow, registers};
ghost use Rattle.action_interp.specs.Runs.{end_of};
ghost use Rattle.plain_run.specs.inner.Walking.{IsAt, IsEmpty, Stands, begin};

use action_interp::{LoggedRun, RuleEnd, run_logged};
use kw_bits::NoMemory;
use one_rule::{Environment, Externs, FiredSet, Regs};
use rule_log::Log;
use typed_core::{Next, Node};

// A place in a cycle's walk: the log of the rules that fired so far, these rules, and where the walk goes on.
#[derive(Debug, Drop)]
pub(crate) struct Walking {
    pub(crate) sched: Log,
    pub(crate) fired: FiredSet,
    pub(crate) at: Next,
}

// Walks from the root to the end of a cycle that begins on these registers. The log of no access is handed back.
pub(crate) fn walk(
    env: &Environment<Externs>,
    regs: &Regs,
    walking: &mut Walking,
    log: Box<Log>,
) -> Result<Box<Log>, NoMemory>
    requires externs { kept env.now.externs.now ≡ externs_of env.now.design.now }
    requires inputs { HaveWidths (input_widths env.now.design.now) env.now.inputs.now }
    requires registers { HaveWidths (register_widths env.now.design.now) regs.now }
    requires begin { Stands env.now.design.now walking.old begin }
    requires root { walking.old.at ≡ root env.now.design.now.nodes }
    requires log { IsEmpty env.now.design.now log.value }
    ensures walk { IfOk result (λ _. Stands env.now.design.now walking.new (port_walk env.now.design.now env.now.inputs.now regs.now)) }
    ensures log { IfOk result (λ log. IsEmpty env.now.design.now log.value) }
{
    let design = env.design;
    let nodes = design.nodes.as_slice();
    let mut log = log;
    for (number, node) in nodes.iter().enumerate() {
        log = pass(env, regs, number, node, walking, log)?;
    }
    Ok(log)
}

// Visits the node of this number if the walk is at it.
fn pass(
    env: &Environment<Externs>,
    regs: &Regs,
    number: usize,
    node: &Node,
    walking: &mut Walking,
    log: Box<Log>,
) -> Result<Box<Log>, NoMemory>
    requires externs { kept env.now.externs.now ≡ externs_of env.now.design.now }
    requires inputs { HaveWidths (input_widths env.now.design.now) env.now.inputs.now }
    requires registers { HaveWidths (register_widths env.now.design.now) regs.now }
    requires rule { node.now.rule < length env.now.design.now.rules }
    requires stands { (state : PortState) × Stands env.now.design.now walking.old state }
    requires log { IsEmpty env.now.design.now log.value }
    ensures pass { IfOk result (λ _. (state : PortState) → Stands env.now.design.now walking.old state
        → IsAt env.now.design.now walking.new (pass (port_fire env.now.design.now env.now.inputs.now regs.now) number node.now (record { state = state; at = walking.old.at }))) }
    ensures log { IfOk result (λ log. IsEmpty env.now.design.now log.value) }
{
    if walking.at.is_at(number) {
        visit(env, regs, node, walking, log)
    } else {
        Ok(log)
    }
}

// Tries the rule of a node. Where it fires, its log joins that of the rules before it.
fn visit(
    env: &Environment<Externs>,
    regs: &Regs,
    node: &Node,
    walking: &mut Walking,
    log: Box<Log>,
) -> Result<Box<Log>, NoMemory>
    requires externs { kept env.now.externs.now ≡ externs_of env.now.design.now }
    requires inputs { HaveWidths (input_widths env.now.design.now) env.now.inputs.now }
    requires registers { HaveWidths (register_widths env.now.design.now) regs.now }
    requires rule { node.now.rule < length env.now.design.now.rules }
    requires stands { (state : PortState) × Stands env.now.design.now walking.old state }
    requires log { IsEmpty env.now.design.now log.value }
    ensures visit { IfOk result (λ _. (state : PortState) → Stands env.now.design.now walking.old state
        → IsAt env.now.design.now walking.new (goes_on node.now state (port_fire env.now.design.now env.now.inputs.now regs.now node.now.rule state))) }
    ensures log { IfOk result (λ log. IsEmpty env.now.design.now log.value) }
{
    let LoggedRun { end, mut log } = run_logged(env, node.rule, regs, &walking.sched, log)?;
    settle(node, end, &log, walking);
    log.clear();
    Ok(log)
}

// Where the rule of a node fires, its log joins that of the rules before it.
fn settle(node: &Node, end: RuleEnd, log: &Log, walking: &mut Walking)
    requires rule { node.now.rule < length walking.old.fired }
    requires registers { registers log.now ≡ registers walking.old.sched }
    ensures { (design : Parts) (state : PortState) (p : Progress BitVector Stopped) → Stands design walking.old state
        → end ≡ end_of p.ending → StandsFor (register_widths design) log.now p.events → WritesFollow state.log p.events
        → IsAt design walking.new (goes_on node.now state (merge state node.now.rule p.events p.ending)) }
{
    match end {
        RuleEnd::Fired => {
            walking.sched.merge(log);
            walking.fired.set(node.rule as usize, true);
            walking.at = node.yes;
        }
        RuleEnd::Aborted | RuleEnd::Blocked(_) => walking.at = node.no,
    }
}
