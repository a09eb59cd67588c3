//! Engines: a cycle of whole rules, one after another, as a plain program.

ghost use Rattle.std.specs.Prelude.{◌≡◌, ◌<◌, [], ◌∷◌, IfOk, length, map};
ghost use Rattle.typed_core.specs.Valid.{externs_of};
ghost use Rattle.typed_core.specs.Widths.{HaveWidths, input_widths, register_widths};
ghost use Rattle.one_rule.specs.Rows.{RowFits};
ghost use Rattle.one_rule.specs.Externs.{kept};
ghost use Rattle.one_rule.specs.Cycle.{clash_with, clash_with_access, clash_with_events, cycle, fire, fires, flags, is_among, numbers, system_of, walk_of};
ghost use Rattle.one_rule.specs.Walk.{goes_on, pass};

use crate::evaluation::Environment;
use crate::externs::Externs;
use crate::rows::{FiredSet, Inputs, Regs, Row};
use crate::rule::alone;
use kw_bits::{NoMemory, Sequence};
use std::alloc::Global;
use typed_core::{Access, Alone, Design, Events, Next, Node, Outcome, apply};

/// A rule that fired in a cycle, with the events of its run.
#[derive(Debug, Drop)]
pub struct Fired {
    /// The rule's number.
    pub rule: u32,
    /// What it read and wrote, in order.
    pub events: Events,
}

/// What the rules that fired so far in a cycle left by running whole, and these rules in order. The definition of a cycle
/// walks over such states.
#[derive(Debug, Drop)]
pub struct State {
    /// The registers.
    pub regs: Regs,
    /// The rules that fired.
    pub past: Sequence<Fired>,
}

/// The row that a cycle leaves: whole rules, one after another in scheduler order.
pub fn slow_cycle(
    alloc: Global,
    design: &Design,
    externs: &Externs,
    inputs: &Inputs,
    regs: &Regs,
) -> Result<Row, NoMemory>
    requires externs { kept externs.now ≡ externs_of design.now }
    requires inputs { HaveWidths (input_widths design.now) inputs.now }
    requires registers { HaveWidths (register_widths design.now) regs.now }
    ensures cycle { IfOk result (λ row. row ≡ cycle (system_of design.now) inputs.now regs.now) }
    ensures fits { IfOk result (λ row. RowFits design.now row) }
{
    let env = Environment {
        design,
        externs,
        inputs,
    };
    let end = walk_of(alloc, &env, regs)?;
    let fired = flags(alloc, design.rules.len(), &end.past)?;
    Ok(Row {
        regs: end.regs,
        fired,
    })
}

// The state at the end of a cycle's walk.
fn walk_of(alloc: Global, env: &Environment<Externs>, regs: &Regs) -> Result<State, NoMemory>
    requires externs { kept env.now.externs.now ≡ externs_of env.now.design.now }
    requires inputs { HaveWidths (input_widths env.now.design.now) env.now.inputs.now }
    requires registers { HaveWidths (register_widths env.now.design.now) regs.now }
    ensures walk { IfOk result (λ end. end ≡ (walk_of (system_of env.now.design.now) env.now.inputs.now regs.now).state) }
    ensures fits { IfOk result (λ end. HaveWidths (register_widths env.now.design.now) end.regs) }
{
    let design = env.design;
    let nodes = design.nodes.as_slice();
    let mut state = State {
        regs: Sequence::from_slice(alloc, regs.as_slice())?,
        past: Sequence::new(alloc),
    };
    let mut at = design.root();
    for (number, node) in nodes.iter().enumerate() {
        at = pass(alloc, env, number, node, at, &mut state)?;
    }
    Ok(state)
}

// Visits the node of this number if the walk is at it, and says where the walk is then.
fn pass(
    alloc: Global,
    env: &Environment<Externs>,
    number: usize,
    node: &Node,
    at: Next,
    state: &mut State,
) -> Result<Next, NoMemory>
    requires externs { kept env.now.externs.now ≡ externs_of env.now.design.now }
    requires rule { node.now.rule < length env.now.design.now.rules }
    requires inputs { HaveWidths (input_widths env.now.design.now) env.now.inputs.now }
    requires registers { HaveWidths (register_widths env.now.design.now) state.old.regs }
    ensures pass { IfOk result (λ next. pass (fire (system_of env.now.design.now) env.now.inputs.now) number node.now (record { state = state.old; at = at }) ≡ record { state = state.new; at = next }) }
    ensures fits { IfOk result (λ next. HaveWidths (register_widths env.now.design.now) state.new.regs) }
{
    if at.is_at(number) {
        visit(alloc, env, node, state)
    } else {
        Ok(at)
    }
}

// Tries the rule of a node, and says where the walk goes on.
fn visit(
    alloc: Global,
    env: &Environment<Externs>,
    node: &Node,
    state: &mut State,
) -> Result<Next, NoMemory>
    requires externs { kept env.now.externs.now ≡ externs_of env.now.design.now }
    requires rule { node.now.rule < length env.now.design.now.rules }
    requires inputs { HaveWidths (input_widths env.now.design.now) env.now.inputs.now }
    requires registers { HaveWidths (register_widths env.now.design.now) state.old.regs }
    ensures visit { IfOk result (λ next. goes_on node.now state.old (fire (system_of env.now.design.now) env.now.inputs.now node.now.rule state.old) ≡ record { state = state.new; at = next }) }
    ensures fits { IfOk result (λ next. HaveWidths (register_widths env.now.design.now) state.new.regs) }
{
    let run = alone(
        alloc,
        env.design,
        env.externs,
        node.rule,
        env.inputs,
        &state.regs,
    )?;
    if !fires(&state.past, &run) {
        return Ok(node.no);
    }
    apply(&mut state.regs, &run.events);
    state.past.push(Fired {
        rule: node.rule,
        events: run.events,
    })?;
    Ok(node.yes)
}

fn fires(past: &Sequence<Fired>, run: &Alone) -> bool
    ensures { result ≡ fires past.now run.now }
{
    run.outcome == Outcome::Done && !clash_with(&run.events, past)
}

fn clash_with(events: &Events, past: &Sequence<Fired>) -> bool
    ensures { result ≡ clash_with events.now past.now }
{
    past.as_slice()
        .iter()
        .any(|fired| clash_with_events(events, &fired.events))
}

// Whether one of the events clashes with one of an earlier rule's.
fn clash_with_events(events: &Events, earlier: &Events) -> bool
    ensures { result ≡ clash_with_events events.now earlier.now }
{
    earlier
        .as_slice()
        .iter()
        .any(|e| clash_with_access(events, &e.access))
}

// Whether one of the events clashes with an earlier access.
fn clash_with_access(events: &Events, earlier: &Access) -> bool
    ensures { result ≡ clash_with_access events.now earlier.now }
{
    events
        .as_slice()
        .iter()
        .any(|event| event.access.clashes_after(earlier))
}

#[tactic(auto, using(crate::proofs::Flags::map_range_more))]
fn flags(alloc: Global, rules: usize, past: &Sequence<Fired>) -> Result<FiredSet, NoMemory>
    ensures flags { IfOk result (λ fired. fired ≡ flags rules (numbers past.now)) }
    ensures count { IfOk result (λ fired. length fired ≡ rules) }
{
    let mut fired = FiredSet::new(alloc);
    for rule in 0..rules {
        fired.push(has_fired(rule, past))?;
    }
    Ok(fired)
}

fn has_fired(rule: usize, past: &Sequence<Fired>) -> bool
    ensures { result ≡ is_among (numbers past.now) rule }
{
    past.as_slice()
        .iter()
        .map(|fired| fired.rule as usize)
        .any(|number| number == rule)
}
