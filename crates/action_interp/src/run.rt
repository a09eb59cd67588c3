//! Engines: the run of one rule by the port rules.

ghost use Rattle.std.specs.Prelude.{◌≡◌, ◌<◌, [], IfOk, List, length, slice_get};
ghost use Rattle.typed_core.specs.Valid.{externs_of};
ghost use Rattle.typed_core.specs.Widths.{HaveWidths, input_widths, register_widths};
ghost use Rattle.typed_core.specs.declared.access.Event.{Event};
ghost use Rattle.one_rule.specs.Cycle.{environment};
ghost use Rattle.one_rule.specs.Externs.{kept};
ghost use Rattle.one_rule.specs.PortRun.{port_run_if};
ghost use Rattle.rule_log.specs.StandsFor.{StandsFor, WritesFollow};
ghost use Rattle.action_interp.specs.Runs.{IsLoggedRun, IsRun};
ghost use Rattle.action_interp.specs.inner.ByLog.{Ends};

use crate::ports::RulePorts;
use kw_bits::{Bits, NoMemory};
use one_rule::{Environment, Externs, Inputs, Interrupt, Regs, evaluate};
use rule_log::Log;
use std::alloc::Global;
use typed_core::{Access, Design, Scope, Stopped};

/// A rule's run after a scheduler log.
#[derive(Debug, Drop)]
pub enum RuleRun {
    /// The rule reaches its end. These are its reads and writes.
    Fired(Log),
    /// It reaches an abort.
    Aborted,
    /// This is its first access that is refused.
    Blocked(Access),
}

/// How a rule's run after a scheduler log ends.
#[derive(Clone, Copy, Debug, PartialEq, Eq)]
pub enum RuleEnd {
    /// The rule reaches its end.
    Fired,
    /// It reaches an abort.
    Aborted,
    /// This is its first access that is refused.
    Blocked(Access),
}

/// How a rule's run ends, and its reads and writes up to there.
#[derive(Debug, Drop)]
pub struct LoggedRun {
    pub end: RuleEnd,
    pub log: Box<Log>,
}

/// Runs a rule after a scheduler log, in a cycle that began on these registers.
pub fn run_rule(
    alloc: Global,
    design: &Design,
    externs: &Externs,
    rule: u32,
    inputs: &Inputs,
    regs: &Regs,
    sched: &Log,
) -> Result<RuleRun, NoMemory>
    requires externs { kept externs.now ≡ externs_of design.now }
    requires rule { rule < length design.now.rules }
    requires inputs { HaveWidths (input_widths design.now) inputs.now }
    requires registers { HaveWidths (register_widths design.now) regs.now }
    requires sched { (events : List Event) × StandsFor (register_widths design.now) sched.now events }
    ensures run { IfOk result (λ run. (events : List Event) → StandsFor (register_widths design.now) sched.now events
        → IsRun (register_widths design.now) run (port_run_if (environment design.now inputs.now) events regs.now (slice_get design.now.rules rule))) }
{
    let log = Box::new(alloc, Log::new(alloc, design)?)?;
    let env = Environment {
        design,
        externs,
        inputs,
    };
    let run = run_logged(&env, rule, regs, sched, log)?;
    Ok(match run.end {
        RuleEnd::Fired => RuleRun::Fired(Box::into_inner(run.log)),
        RuleEnd::Aborted => RuleRun::Aborted,
        RuleEnd::Blocked(access) => RuleRun::Blocked(access),
    })
}

/// The same, with a log of no access that the rule's reads and writes are noted in. Nothing here takes memory:
/// `NoMemory` is only passed on, as ports in general may answer it.
pub fn run_logged(
    env: &Environment<Externs>,
    rule: u32,
    regs: &Regs,
    sched: &Log,
    log: Box<Log>,
) -> Result<LoggedRun, NoMemory>
    requires externs { kept env.now.externs.now ≡ externs_of env.now.design.now }
    requires rule { rule < length env.now.design.now.rules }
    requires inputs { HaveWidths (input_widths env.now.design.now) env.now.inputs.now }
    requires registers { HaveWidths (register_widths env.now.design.now) regs.now }
    requires sched { (events : List Event) × StandsFor (register_widths env.now.design.now) sched.now events }
    requires log { StandsFor (register_widths env.now.design.now) log.value [] }
    ensures run { IfOk result (λ run. (events : List Event) → StandsFor (register_widths env.now.design.now) sched.now events
        → IsLoggedRun (register_widths env.now.design.now) run (port_run_if (environment env.now.design.now env.now.inputs.now) events regs.now (slice_get env.now.design.now.rules rule))) }
    ensures follows { IfOk result (λ run. (events : List Event) → StandsFor (register_widths env.now.design.now) sched.now events
        → WritesFollow events (port_run_if (environment env.now.design.now env.now.inputs.now) events regs.now (slice_get env.now.design.now.rules rule)).events) }
{
    let design = env.design;
    let mut ports = RulePorts { regs, sched, log };
    let body = &design.rules.get(rule as usize).body;
    let value = evaluate(env, &mut ports, body, &Scope::empty());
    let end = end_of(value)?;
    Ok(LoggedRun {
        end,
        log: ports.log,
    })
}

// How a rule's run ends.
fn end_of(value: Result<Option<Bits>, Interrupt>) -> Result<RuleEnd, NoMemory>
    ensures { IfOk result (λ end. Ends value end) }
{
    match value {
        Ok(_) => Ok(RuleEnd::Fired),
        Err(Interrupt::Stop(Stopped::Abort)) => Ok(RuleEnd::Aborted),
        Err(Interrupt::Stop(Stopped::Refused(access))) => Ok(RuleEnd::Blocked(access)),
        Err(Interrupt::NoMemory) => Err(NoMemory),
    }
}
