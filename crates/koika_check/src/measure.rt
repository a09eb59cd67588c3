//! Checker: weight and depth.

ghost use Rattle.std.specs.Prelude.{◌≡◌, ◌+◌, ◌^◌, ◌≤◌, List, map, min, slice_get, IfOk};
ghost use Rattle.koika_check.specs.Capped as counts;
ghost use Rattle.koika_check.specs.inner.Capped as inner_counts;
ghost use Rattle.koika_check.specs.Sizes as sizes;
ghost use Rattle.koika_check.specs.inner.Sizes as inner_sizes;

use crate::checked::Checked;
use crate::typed::{BlockStep, Operation, Typed};
use kw_bits::{NoMemory, Sequence};
use std::alloc::Global;
use typed_core::Node;

/// The heaviest design that is accepted.
pub const MAX_WEIGHT: u32 = 32_768;

/// The deepest design that is accepted.
pub const MAX_DEPTH: u32 = 512;

/// A weight and a depth. What is above a limit is given as the limit and one.
#[derive(Clone, Copy, Debug, PartialEq, Eq)]
pub struct Measure {
    pub weight: u32,
    pub depth: u32,
}

impl Measure {
    /// So heavy, and so deep.
    pub(crate) fn of(weight: usize, depth: usize) -> Measure
        ensures { result ≡ counts.capped (sizes.size weight depth) }
    {
        Measure {
            weight: weight.min(MAX_WEIGHT as usize + 1) as u32,
            depth: depth.min(MAX_DEPTH as usize + 1) as u32,
        }
    }

    /// Both weights, and the greater depth.
    pub(crate) fn and(self, other: Measure) -> Measure
        ensures { result ≡ inner_counts.both self other }
    {
        Measure {
            weight: self.weight.saturating_add(other.weight).min(MAX_WEIGHT + 1),
            depth: self.depth.max(other.depth),
        }
    }

    /// The same, so much deeper.
    pub(crate) fn deeper(self, depth: usize) -> Measure
        ensures { result ≡ inner_counts.deeper depth self }
    {
        let depth = depth.min(MAX_DEPTH as usize + 1) as u32;
        Measure {
            weight: self.weight,
            depth: self.depth.saturating_add(depth).min(MAX_DEPTH + 1),
        }
    }

    /// The same, so much heavier.
    pub(crate) fn heavier(self, weight: usize) -> Measure
        ensures { result ≡ inner_counts.heavier weight self }
    {
        let weight = weight.min(MAX_WEIGHT as usize + 1) as u32;
        Measure {
            weight: self.weight.saturating_add(weight).min(MAX_WEIGHT + 1),
            depth: self.depth,
        }
    }
}

/// The weight and the depth of a design.
pub fn measure_of(alloc: Global, design: &Checked) -> Result<Measure, NoMemory>
    ensures { IfOk result (λ measure. measure ≡ counts.capped (sizes.design_size design.now)) }
{
    let rules = rule_measures(alloc, design)?;
    Ok(all_rules(rules.as_slice()).and(all_nodes(rules.as_slice(), design.nodes.as_slice())))
}

/// The weight and the depth of each rule's body.
pub fn rule_measures(alloc: Global, design: &Checked) -> Result<Sequence<Measure>, NoMemory>
    ensures { IfOk result (λ measures. measures ≡ map counts.capped (sizes.rule_sizes design.now)) }
{
    let bodies = function_measures(alloc, design)?;
    rules_over(alloc, design, bodies.as_slice())
}

// The weights and depths of the bodies of functions, each of which rests on those before it.
fn function_measures(alloc: Global, design: &Checked) -> Result<Sequence<Measure>, NoMemory>
    ensures { IfOk result (λ measures. measures ≡ map counts.capped (sizes.rests design.now).bodies) }
{
    let mut measures = Sequence::new(alloc);
    let functions = design.functions.as_slice();
    for function in functions {
        measures.push(weigh(design, measures.as_slice(), &function.body))?;
    }
    Ok(measures)
}

// Those of the bodies of rules.
fn rules_over(
    alloc: Global,
    design: &Checked,
    bodies: &[Measure],
) -> Result<Sequence<Measure>, NoMemory>
    requires { bodies.now ≡ map counts.capped (sizes.rests design.now).bodies }
    ensures { IfOk result (λ measures. measures ≡ map counts.capped (sizes.rule_sizes design.now)) }
{
    let mut measures = Sequence::new(alloc);
    let rules = design.rules.as_slice();
    for rule in rules {
        measures.push(weigh(design, bodies, &rule.body))?;
    }
    Ok(measures)
}

// All rules together.
fn all_rules(rules: &[Measure]) -> Measure
    ensures { (parts : List sizes.Size) → rules.now ≡ map counts.capped parts → result ≡ counts.capped (sizes.side_by_side parts) }
{
    let mut all = Measure::of(0, 0);
    for rule in rules {
        all = all.and(*rule);
    }
    all
}

// The rules of all nodes together.
fn all_nodes(rules: &[Measure], nodes: &[Node]) -> Measure
    ensures { (parts : List sizes.Size) → rules.now ≡ map counts.capped parts → result ≡ counts.capped (sizes.size (sizes.node_weights parts nodes.now) 0) }
{
    let mut weight = Measure::of(0, 0);
    for node in nodes {
        weight = weight.heavier(body_of(rules, node.rule).weight as usize);
    }
    weight
}

// How many inputs of this many bits there are, or more than the heaviest design weighs.
fn inputs(width: u32) -> usize
    ensures { min result (MAX_WEIGHT + 1) ≡ min (2 ^ width) (MAX_WEIGHT + 1) }
{
    if width < 16 {
        1 << width
    } else {
        MAX_WEIGHT as usize + 1
    }
}

// The weight and the depth of an expression, where the bodies of the design's functions are so heavy and so deep.
#[cycle(measure)]
#[tactic(auto, using(crate::proofs::Equations::equations, crate::proofs::Caps::capping))]
fn weigh(design: &Checked, bodies: &[Measure], of: &Typed) -> Measure
    ensures { (parts : List sizes.Size) → bodies.now ≡ map counts.capped parts → result ≡ counts.capped (sizes.size_of (record { design = design.now; bodies = parts }) of.now) }
{
    match of {
        Typed::Constant(_) => Measure::of(1, 1),
        Typed::Local(_) => Measure::of(1, 1),
        Typed::Input(_) => Measure::of(1, 1),
        Typed::Apply(operation, operands) => {
            weigh_operation(design, bodies, operation, operands.as_slice())
        }
        Typed::If {
            conditions,
            bodies: arms,
        } => {
            let measure = weigh_conditions(design, bodies, conditions.as_slice());
            measure
                .and(weigh_bodies(design, bodies, conditions.len(), arms.as_slice()))
                .heavier(conditions.len())
        }
        Typed::Block(steps) => weigh_steps(design, bodies, steps.as_slice()).heavier(1),
    }
}

#[cycle(measure)]
fn weigh_operation(
    design: &Checked,
    bodies: &[Measure],
    operation: &Operation,
    operands: &[Typed],
) -> Measure
    ensures { (parts : List sizes.Size) → bodies.now ≡ map counts.capped parts → result ≡ counts.capped (sizes.operation_size (record { design = design.now; bodies = parts }) operation.now (map (sizes.size_of (record { design = design.now; bodies = parts })) operands.now)) }
{
    match operation {
        Operation::Chain { operators, .. } => {
            weigh_chain(design, bodies, operators.len(), operands).heavier(operators.len())
        }
        Operation::Call(number) => {
            let body = body_of(bodies, *number);
            weigh_conditions(design, bodies, operands)
                .and(body.deeper(operands.len().saturating_add(1)))
                .heavier(1)
        }
        _ => weigh_parts(design, bodies, operands)
            .deeper(own_depth(operation, operands.len()))
            .heavier(own_weight(design, operation)),
    }
}

// How much an operation weighs besides its operands.
fn own_weight(design: &Checked, operation: &Operation) -> usize
    ensures { min result (MAX_WEIGHT + 1) ≡ min (sizes.own_weight design.now operation.now) (MAX_WEIGHT + 1) }
{
    match operation {
        Operation::Unary(operators) => operators.len(),
        Operation::Select(selections) => selections.len(),
        Operation::Table(number) => inputs_of_table(design, *number),
        Operation::Host(number) => inputs_of_host(design, *number),
        _ => 1,
    }
}

// How deep below an operation its operands are.
fn own_depth(operation: &Operation, operands: usize) -> usize
    ensures { result ≡ sizes.own_depth operation.now operands }
{
    match operation {
        Operation::Unary(operators) => operators.len(),
        Operation::Select(selections) => selections.len(),
        Operation::Table(_) | Operation::Host(_) => operands,
        _ => 1,
    }
}

// Operands side by side.
#[cycle(measure)]
fn weigh_parts(design: &Checked, bodies: &[Measure], operands: &[Typed]) -> Measure
    ensures { (parts : List sizes.Size) → bodies.now ≡ map counts.capped parts → result ≡ counts.capped (sizes.side_by_side (map (sizes.size_of (record { design = design.now; bodies = parts })) operands.now)) }
{
    let mut all = Measure::of(0, 0);
    for operand in operands {
        all = all.and(weigh(design, bodies, operand));
    }
    all
}

// Operands each of which is one deeper than the one before, the first by one.
#[cycle(measure)]
fn weigh_conditions(design: &Checked, bodies: &[Measure], operands: &[Typed]) -> Measure
    ensures { (parts : List sizes.Size) → bodies.now ≡ map counts.capped parts → result ≡ counts.capped (sizes.one_deeper (map (sizes.size_of (record { design = design.now; bodies = parts })) operands.now)) }
{
    let mut all = Measure::of(0, 0);
    for index in 0..operands.len() {
        all = all.and(weigh(design, bodies, &operands[index]).deeper(index + 1));
    }
    all
}

// Bodies each of which is one deeper than the one before, up to that many.
#[cycle(measure)]
fn weigh_bodies(design: &Checked, bodies: &[Measure], arms: usize, operands: &[Typed]) -> Measure
    ensures { (parts : List sizes.Size) → bodies.now ≡ map counts.capped parts → result ≡ counts.capped (sizes.arms_size arms (map (sizes.size_of (record { design = design.now; bodies = parts })) operands.now)) }
{
    let mut all = Measure::of(0, 0);
    for index in 0..operands.len() {
        let depth = (index + 1).min(arms);
        all = all.and(weigh(design, bodies, &operands[index]).deeper(depth));
    }
    all
}

// Operands of a chain: the first is below all its operators, each other below its own and those after it.
#[cycle(measure)]
fn weigh_chain(
    design: &Checked,
    bodies: &[Measure],
    operators: usize,
    operands: &[Typed],
) -> Measure
    ensures { (parts : List sizes.Size) → bodies.now ≡ map counts.capped parts → result ≡ counts.capped (sizes.chain_size operators (map (sizes.size_of (record { design = design.now; bodies = parts })) operands.now)) }
{
    let mut all = Measure::of(0, 0);
    for index in 0..operands.len() {
        let depth = operators - index.saturating_sub(1).min(operators);
        all = all.and(weigh(design, bodies, &operands[index]).deeper(depth));
    }
    all
}

// Steps of a block: each is one deeper than the statement before, the first by one. Where no last expression stands,
// its place is as deep.
#[cycle(measure)]
fn weigh_steps(design: &Checked, bodies: &[Measure], steps: &[BlockStep]) -> Measure
    ensures { (parts : List sizes.Size) → bodies.now ≡ map counts.capped parts → result ≡ counts.capped (sizes.steps_size (map (inner_sizes.size_of_step (record { design = design.now; bodies = parts })) steps.now)) }
{
    let mut all = Measure::of(0, 0);
    let mut depth = 1;
    for step in steps {
        let own = step_weight(step);
        all = all.and(weigh_step(design, bodies, step).deeper(depth).heavier(own));
        depth += own;
    }
    all.and(Measure::of(0, depth))
}

// How much a step weighs besides its value: 1 where it is a statement.
#[tactic(auto, using(crate::proofs::Equations::equations))]
fn step_weight(step: &BlockStep) -> usize
    ensures statement { (parts : sizes.Rests) → result ≡ (inner_sizes.size_of_step parts step.now).statement }
    ensures few { result ≤ 1 }
{
    match step {
        BlockStep::Let(_) => 1,
        BlockStep::Do(_) => 1,
        BlockStep::Give(_) => 0,
    }
}

#[cycle(measure)]
#[tactic(auto, using(crate::proofs::Equations::equations))]
fn weigh_step(design: &Checked, bodies: &[Measure], step: &BlockStep) -> Measure
    ensures { (parts : List sizes.Size) → bodies.now ≡ map counts.capped parts → result ≡ counts.capped (inner_sizes.size_of_step (record { design = design.now; bodies = parts }) step.now).value }
{
    match step {
        BlockStep::Let(value) => weigh(design, bodies, value),
        BlockStep::Do(value) => weigh(design, bodies, value),
        BlockStep::Give(value) => weigh(design, bodies, value),
    }
}

// The body of the function of this number.
fn body_of(bodies: &[Measure], number: u32) -> Measure
    ensures { (parts : List sizes.Size) → bodies.now ≡ map counts.capped parts → result ≡ counts.capped (sizes.body_of (slice_get parts number)) }
{
    match bodies.get(number as usize) {
        Some(body) => *body,
        None => Measure::of(0, 0),
    }
}

// How many inputs the table of this number has.
fn inputs_of_table(design: &Checked, number: u32) -> usize
    ensures { min result (MAX_WEIGHT + 1) ≡ min (2 ^ sizes.input_of_table (slice_get design.now.tables number)) (MAX_WEIGHT + 1) }
{
    match design.tables.as_slice().get(number as usize) {
        Some(table) => inputs(table.spec.in_width),
        None => 1,
    }
}

// How many inputs the host function of this number has.
fn inputs_of_host(design: &Checked, number: u32) -> usize
    ensures { min result (MAX_WEIGHT + 1) ≡ min (2 ^ sizes.input_of_host (slice_get design.now.hosts number)) (MAX_WEIGHT + 1) }
{
    match design.hosts.as_slice().get(number as usize) {
        Some(host) => inputs(host.spec.in_width),
        None => 1,
    }
}
