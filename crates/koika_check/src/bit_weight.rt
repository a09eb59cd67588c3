//! Checker: the bit weight of a design, which tells how many gates its circuit may have.

ghost use Rattle.std.specs.Prelude.{◌≡◌, ◌+◌, ◌<◌, [], All, length, sum_by};
ghost use Rattle.koika_check.specs.BitWeights as weights;
ghost use Rattle.koika_check.specs.inner.BitWeights.{AppliesAmong, IsStepAmong, IsTypedAmong, cap, step_squares};
ghost use Rattle.koika_check.specs.Typing.{IsTypedDesign};

use crate::checked::{Checked, CheckedFunction};
use crate::typed::{BlockStep, Operation, Typed};
use koika_syntax::BinaryOperator;
use typed_core::Node;

// How much a unit of the weight weighs.
const BITS_OF_WEIGHT: u64 = 128;

impl Checked {
    /// The bit weight of the design: 128 for each unit of its weight, w * w for each operator `*` on w bits as often as
    /// it weighs, and the bits of its registers for each node of its scheduler.
    pub fn bit_weight(&self) -> u64
        requires { IsTypedDesign self.now }
        ensures { result ≡ weights.bit_weight self.now }
    {
        let weighed = BITS_OF_WEIGHT * u64::from(self.weight);
        let rules = squares_of_rules(self);
        let squares = rules.saturating_add(squares_of_nodes(self));
        let bits = register_bits(self);
        let nodes = self.nodes.len() as u64;
        let held = nodes.saturating_mul(bits);
        let both = weighed.saturating_add(squares);
        both.saturating_add(held)
    }
}

// The bits of all registers.
fn register_bits(design: &Checked) -> u64
    ensures { result ≡ cap (weights.register_bits design.now) }
{
    let mut bits: u64 = 0;
    for register in design.registers.as_slice() {
        bits = bits.saturating_add(u64::from(register.width));
    }
    bits
}

// The squares of all rules.
fn squares_of_rules(design: &Checked) -> u64
    requires { IsTypedDesign design.now }
    ensures { result ≡ cap (sum_by (weights.rule_squares design.now) design.now.rules) }
{
    let mut all: u64 = 0;
    for rule in design.rules.as_slice() {
        all = all.saturating_add(squares(design.functions.as_slice(), &rule.body));
    }
    all
}

// For each node of the scheduler the squares of its rule.
fn squares_of_nodes(design: &Checked) -> u64
    requires { IsTypedDesign design.now }
    ensures { result ≡ cap (sum_by (weights.node_squares design.now) design.now.nodes) }
{
    let mut squares: u64 = 0;
    for node in design.nodes.as_slice() {
        squares = squares.saturating_add(node_squares(design, node));
    }
    squares
}

fn node_squares(design: &Checked, node: &Node) -> u64
    requires design { IsTypedDesign design.now }
    requires rule { node.now.rule < length design.now.rules }
    ensures { result ≡ cap (weights.node_squares design.now node.now) }
{
    let rule = &design.rules[node.rule as usize];
    squares(design.functions.as_slice(), &rule.body)
}

// The squares of an expression, which may call these functions.
#[cycle(squares)]
fn squares(functions: &[CheckedFunction], of: &Typed) -> u64
    requires { IsTypedAmong functions.now of.now }
    ensures { result ≡ cap (weights.squares (weights.bodies_after [] functions.now) of.now) }
{
    match of {
        Typed::Constant(_) => 0,
        Typed::Local(_) => 0,
        Typed::Input(_) => 0,
        Typed::Apply(operation, operands) => {
            let operands = squares_in(functions, operands.as_slice());
            let own = own_squares(functions, operation);
            operands.saturating_add(own)
        }
        Typed::If { conditions, bodies } => {
            let conditions = squares_in(functions, conditions.as_slice());
            let bodies = squares_in(functions, bodies.as_slice());
            conditions.saturating_add(bodies)
        }
        Typed::Block(steps) => squares_of_steps(functions, steps.as_slice()),
    }
}

// What an operation adds to the squares of its operands.
#[cycle(squares)]
fn own_squares(functions: &[CheckedFunction], operation: &Operation) -> u64
    requires { AppliesAmong functions.now operation.now }
    ensures { result ≡ cap (weights.own_squares (weights.bodies_after [] functions.now) operation.now) }
{
    match operation {
        Operation::Chain { operators, width } => chain_squares(operators.as_slice(), *width),
        Operation::Call(number) => {
            let number = *number as usize;
            squares(&functions[..number], &functions[number].body)
        }
        _ => 0,
    }
}

// The squares of a chain of operators whose first operand has this width.
fn chain_squares(operators: &[BinaryOperator], width: u32) -> u64
    ensures { result ≡ cap (sum_by (weights.square width) operators.now) }
{
    let mut squares: u64 = 0;
    for operator in operators {
        squares = squares.saturating_add(square(width, *operator));
    }
    squares
}

fn square(width: u32, operator: BinaryOperator) -> u64
    ensures { result ≡ weights.square width operator }
{
    match operator {
        BinaryOperator::Multiply => u64::from(width) * u64::from(width),
        _ => 0,
    }
}

#[cycle(squares)]
fn squares_in(functions: &[CheckedFunction], operands: &[Typed]) -> u64
    requires { All (IsTypedAmong functions.now) operands.now }
    ensures { result ≡ cap (sum_by (weights.squares (weights.bodies_after [] functions.now)) operands.now) }
{
    let mut all: u64 = 0;
    for operand in operands {
        all = all.saturating_add(squares(functions, operand));
    }
    all
}

#[cycle(squares)]
fn squares_of_steps(functions: &[CheckedFunction], steps: &[BlockStep]) -> u64
    requires { All (IsStepAmong functions.now) steps.now }
    ensures { result ≡ cap (sum_by (step_squares (weights.bodies_after [] functions.now)) steps.now) }
{
    let mut all: u64 = 0;
    for step in steps {
        all = all.saturating_add(squares_of_step(functions, step));
    }
    all
}

#[cycle(squares)]
fn squares_of_step(functions: &[CheckedFunction], step: &BlockStep) -> u64
    requires { IsStepAmong functions.now step.now }
    ensures { result ≡ cap (step_squares (weights.bodies_after [] functions.now) step.now) }
{
    match step {
        BlockStep::Let(value) => squares(functions, value),
        BlockStep::Do(value) => squares(functions, value),
        BlockStep::Give(value) => squares(functions, value),
    }
}
