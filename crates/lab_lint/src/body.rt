//! Lint: the occurrences of bodies, as a plain program lists them.

ghost use Rattle.std.specs.Prelude.{◌≡◌, ◌++◌, IfOk, OnOk, length, map};
ghost use Rattle.koika_check.specs.declared.typed.Operation.TheVariants as operation;
ghost use Rattle.lab_lint.specs.Rules.{numbers};
ghost use Rattle.lab_lint.specs.declared.occurrence.Occurrence.TheVariants as occurrence;
ghost use Rattle.lab_lint.specs.Occurrences.{bodies_before, choice, in_turn, own, part_of, rule_part};
ghost use Rattle.lab_lint.specs.inner.Occurrences.{part_of_step};

use crate::occurrence::Occurrence;
use koika_check::{BlockStep, Checked, Operation, Typed};
use kw_bits::{NoMemory, Sequence};
use std::alloc::Global;
use typed_core::Access;

/// The occurrences of each rule's body, in the order of evaluation.
pub fn all_occurrences(
    alloc: Global,
    design: &Checked,
) -> Result<Sequence<Sequence<Occurrence>>, NoMemory>
    ensures { IfOk result (λ all. all ≡ map (λ rule. (rule_part design.now rule).all) (numbers design.now.rules)) }
{
    let mut all = Sequence::new(alloc);
    for rule in 0..design.rules.len() {
        all.push(occurrences(alloc, design, rule)?)?;
    }
    Ok(all)
}

/// The occurrences of a rule's body, in the order of evaluation: none where there is no such rule.
pub fn occurrences(
    alloc: Global,
    design: &Checked,
    rule: usize,
) -> Result<Sequence<Occurrence>, NoMemory>
    ensures { IfOk result (λ all. all ≡ (rule_part design.now rule).all) }
{
    match design.rules.as_slice().get(rule) {
        Some(rule) => body_occurrences(alloc, design, &rule.body),
        None => Ok(Sequence::new(alloc)),
    }
}

// Those of a body in which all functions may be called.
fn body_occurrences(
    alloc: Global,
    design: &Checked,
    body: &Typed,
) -> Result<Sequence<Occurrence>, NoMemory>
    ensures { IfOk result (λ all. all ≡ (part_of (bodies_before design.now (length design.now.functions)) body.now).all) }
{
    let mut all = Sequence::new(alloc);
    push_all(design, design.functions.len(), body, &mut all)?;
    Ok(all)
}

// Adds the occurrences of an expression that may call the first that many functions.
#[cycle(body)]
#[tactic(auto, using(crate::proofs::Layers::listing))]
fn push_all(
    design: &Checked,
    functions: usize,
    of: &Typed,
    all: &mut Sequence<Occurrence>,
) -> Result<(), NoMemory>
    ensures { OnOk result (all.new ≡ all.old ++ (part_of (bodies_before design.now functions) of.now).all) }
{
    match of {
        Typed::Constant(_) => Ok(()),
        Typed::Local(_) => Ok(()),
        Typed::Input(number) => all.push(Occurrence::Input(*number)),
        Typed::Apply(operation, operands) => {
            push_operands(design, functions, operands.as_slice(), all)?;
            push_operation(design, functions, operation, all)
        }
        Typed::If { conditions, bodies } => push_choice(
            design,
            functions,
            conditions.as_slice(),
            bodies.as_slice(),
            all,
        ),
        Typed::Block(steps) => push_steps(design, functions, steps.as_slice(), all),
    }
}

// Adds those of operands, from left to right.
#[cycle(body)]
fn push_operands(
    design: &Checked,
    functions: usize,
    operands: &[Typed],
    all: &mut Sequence<Occurrence>,
) -> Result<(), NoMemory>
    ensures { OnOk result (all.new ≡ all.old ++ (in_turn (map (part_of (bodies_before design.now functions)) operands.now)).all) }
{
    for operand in operands {
        push_all(design, functions, operand, all)?;
    }
    Ok(())
}

// Adds those of the steps of a block.
#[cycle(body)]
fn push_steps(
    design: &Checked,
    functions: usize,
    steps: &[BlockStep],
    all: &mut Sequence<Occurrence>,
) -> Result<(), NoMemory>
    ensures { OnOk result (all.new ≡ all.old ++ (in_turn (map (part_of_step (bodies_before design.now functions)) steps.now)).all) }
{
    for step in steps {
        push_step(design, functions, step, all)?;
    }
    Ok(())
}

#[cycle(body)]
#[tactic(auto, using(crate::proofs::Layers::listing))]
fn push_step(
    design: &Checked,
    functions: usize,
    step: &BlockStep,
    all: &mut Sequence<Occurrence>,
) -> Result<(), NoMemory>
    ensures { OnOk result (all.new ≡ all.old ++ (part_of_step (bodies_before design.now functions) step.now).all) }
{
    match step {
        BlockStep::Let(value) => push_all(design, functions, value, all),
        BlockStep::Do(value) => push_all(design, functions, value, all),
        BlockStep::Give(value) => push_all(design, functions, value, all),
    }
}

// Adds those of conditions, each with its body, and of the body after the last `else`.
#[cycle(body)]
fn push_choice(
    design: &Checked,
    functions: usize,
    conditions: &[Typed],
    bodies: &[Typed],
    all: &mut Sequence<Occurrence>,
) -> Result<(), NoMemory>
    ensures { OnOk result (all.new ≡ all.old ++ (choice (map (part_of (bodies_before design.now functions)) conditions.now) (map (part_of (bodies_before design.now functions)) bodies.now)).all) }
{
    match bodies.split_first() {
        Some((body, later)) => match conditions.split_first() {
            Some((condition, conditions)) => {
                push_all(design, functions, condition, all)?;
                push_all(design, functions, body, all)?;
                push_choice(design, functions, conditions, later, all)
            }
            None => push_all(design, functions, body, all),
        },
        None => Ok(()),
    }
}

// Adds those of an operation besides its operands.
#[cycle(body)]
fn push_operation(
    design: &Checked,
    functions: usize,
    operation: &Operation,
    all: &mut Sequence<Occurrence>,
) -> Result<(), NoMemory>
    ensures { OnOk result (all.new ≡ all.old ++ (own (bodies_before design.now functions) operation.now).all) }
{
    match operation {
        Operation::Read { port, register } => all.push(access(false, *port, *register)),
        Operation::Write { port, register } => all.push(access(true, *port, *register)),
        Operation::Table(number) => all.push(Occurrence::Table(*number)),
        Operation::Host(number) => all.push(Occurrence::Host(*number)),
        Operation::Call(number) => push_body(design, functions, *number as usize, all),
        _ => Ok(()),
    }
}

// Adds those of a function's body, if it is one of the first that many. It may call the functions before it.
#[cycle(body)]
fn push_body(
    design: &Checked,
    functions: usize,
    number: usize,
    all: &mut Sequence<Occurrence>,
) -> Result<(), NoMemory>
    ensures { OnOk result (all.new ≡ all.old ++ (own (bodies_before design.now functions) (operation.Call number)).all) }
{
    match design.functions.as_slice().get(number) {
        Some(function) if number < functions => push_all(design, number, &function.body, all),
        _ => Ok(()),
    }
}

fn access(write: bool, port: u32, register: u32) -> Occurrence
    ensures { result ≡ occurrence.Access (record { write = write; port = port; register = register }) }
{
    Occurrence::Access(Access {
        write,
        port,
        register,
    })
}
