//! Lowering: expressions and blocks.

ghost use Rattle.std.specs.Prelude.{◌≡◌, ◌<◌, ◌≤◌, ◌∷◌, [], List, Option, Some, drop, length, slice_get, IfOk};
ghost use Rattle.koika_check.specs.Meaning.{meaning};
ghost use Rattle.koika_check.specs.Typing.{HasType, IsTypedDesign};
ghost use Rattle.koika_check.specs.declared.typed.BlockStep.TheVariants as step;
ghost use Rattle.koika_check.specs.declared.typed.Operation.TheVariants as operation;
ghost use Rattle.koika_check.specs.declared.typed.ValueType.{ValueType};
ghost use Rattle.koika_lower.specs.inner.Expressions.{AreLowered, AreLoweredSteps, AreTyped, AreTypedSteps, IsTyped};
ghost use Rattle.koika_lower.specs.inner.Simulation.{AreNames, IsBody, IsCallee, Lowers, parameter_names};

use crate::applying::{applied, binds_operands, called};
use crate::choosing::{chosen, one_after_another};
use crate::leaves::{constant, input, local};
use crate::lowered::{Bound, Lowered, behind, bind, deeper};
use crate::type_width::width_of;
use koika_check::{BlockStep, Checked, CheckedFunction, Operation, Typed};
use kw_bits::{NoMemory, Sequence};
use std::alloc::Global;
use typed_core::Scope;

/// What expressions are lowered in: a design, of which they may call the first that many functions.
#[derive(Clone, Copy)]
pub(crate) struct Lowering<'a> {
    pub alloc: Global,
    pub design: &'a Checked,
    pub functions: usize,
}

/// An expression. The names are those that are bound round it, and that many `Let`s stand round it.
#[cycle(lower)]
pub(crate) fn lower_expression(
    lowering: &Lowering<'_>,
    names: &Scope<Bound>,
    depth: u32,
    of: &Typed,
) -> Result<Lowered, NoMemory>
    requires { IsTyped lowering.now.design.now lowering.now.functions depth names.now of.now }
    ensures { IfOk result (λ l. (types : List ValueType) (t : Option ValueType)
        → IsTypedDesign lowering.now.design.now → AreNames lowering.now.design.now depth names.now types
        → HasType lowering.now.design.now lowering.now.functions of.now types t
        → Lowers lowering.now.design.now lowering.now.functions depth names.now types t (λ s. meaning s of.now) l) }
{
    let alloc = lowering.alloc;
    let design = lowering.design;
    match of {
        Typed::Constant(value) => Ok(constant(value)),
        Typed::Local(index) => Ok(local(names, depth, *index)),
        Typed::Input(number) => Ok(input(design, *number)),
        Typed::Apply(operation, operands) => {
            let rises = binds_operands(operation);
            let lowered = lower_all(lowering, names, depth, rises, operands.as_slice())?;
            match operation {
                Operation::Call(number) => called(alloc, lower_callee(lowering, *number)?, lowered),
                _ => applied(alloc, design, operation, lowered),
            }
        }
        Typed::If { conditions, bodies } => {
            let tests = lower_all(lowering, names, depth, false, conditions.as_slice())?;
            let branches = lower_all(lowering, names, depth, false, bodies.as_slice())?;
            chosen(alloc, tests, branches)
        }
        Typed::Block(steps) => lower_steps(lowering, names, depth, steps.as_slice()),
    }
}

// Expressions side by side, each of which stands one deeper than the one before where the depth rises.
#[cycle(lower)]
fn lower_all(
    lowering: &Lowering<'_>,
    names: &Scope<Bound>,
    depth: u32,
    rises: bool,
    of: &[Typed],
) -> Result<Sequence<Lowered>, NoMemory>
    requires { AreTyped lowering.now.design.now lowering.now.functions depth names.now of.now }
    ensures { IfOk result (AreLowered lowering.now.design.now lowering.now.functions depth rises names.now of.now) }
{
    let mut all = Sequence::new(lowering.alloc);
    let mut at = depth;
    for one in of {
        let lowered = lower_expression(lowering, names, at, one)?;
        all.push(lowered)?;
        at = behind(at, rises)?;
    }
    Ok(all)
}

// The steps of a block.
#[cycle(lower)]
fn lower_steps(
    lowering: &Lowering<'_>,
    names: &Scope<Bound>,
    depth: u32,
    steps: &[BlockStep],
) -> Result<Lowered, NoMemory>
    requires { AreTypedSteps lowering.now.design.now lowering.now.functions depth names.now steps.now }
    ensures { IfOk result (AreLoweredSteps lowering.now.design.now lowering.now.functions depth names.now steps.now) }
{
    match steps.split_first() {
        Some((step, rest)) => match step {
            BlockStep::Let(value) => lower_let(lowering, names, depth, value, rest),
            BlockStep::Do(value) => {
                let first = lower_expression(lowering, names, depth, value)?;
                let second = lower_steps(lowering, names, depth, rest)?;
                one_after_another(lowering.alloc, first, second)
            }
            BlockStep::Give(value) => lower_expression(lowering, names, depth, value),
        },
        None => Ok(Lowered::unit()),
    }
}

// A value that is bound in the steps after it.
#[cycle(lower)]
fn lower_let(
    lowering: &Lowering<'_>,
    names: &Scope<Bound>,
    depth: u32,
    value: &Typed,
    rest: &[BlockStep],
) -> Result<Lowered, NoMemory>
    requires { AreTypedSteps lowering.now.design.now lowering.now.functions depth names.now
        (step.Let value.now ∷ rest.now) }
    ensures { IfOk result (AreLoweredSteps lowering.now.design.now lowering.now.functions depth names.now
        (step.Let value.now ∷ rest.now)) }
{
    let first = lower_expression(lowering, names, depth, value)?;
    let bound = Bound {
        level: depth,
        width: first.width,
    };
    let inside = Scope::bind(bound, names);
    let second = lower_steps(lowering, &inside, deeper(depth)?, rest)?;
    Ok(Lowered {
        action: bind(lowering.alloc, first.action, second.action)?,
        width: second.width,
    })
}

// The body of a function, anew for each call. It may call the functions before it.
#[cycle(lower)]
fn lower_callee(lowering: &Lowering<'_>, number: u32) -> Result<Lowered, NoMemory>
    requires design { IsTypedDesign lowering.now.design.now }
    requires may_be_called { number < lowering.now.functions }
    requires declared { number < length lowering.now.design.now.functions }
    ensures { IfOk result (IsCallee lowering.now.design.now lowering.now.functions (operation.Call number)) }
{
    let design = lowering.design;
    let functions = number as usize;
    let function = &design.functions.as_slice()[functions];
    let inside = Lowering {
        alloc: lowering.alloc,
        design,
        functions,
    };
    lower_body(&inside, function, &Scope::empty(), 0)
}

// The body of a function, the first after those that may be called, whose parameters before this one are bound.
#[cycle(lower)]
fn lower_body(
    lowering: &Lowering<'_>,
    function: &CheckedFunction,
    names: &Scope<Bound>,
    index: u32,
) -> Result<Lowered, NoMemory>
    requires design { IsTypedDesign lowering.now.design.now }
    requires function { slice_get lowering.now.design.now.functions lowering.now.functions ≡ Some function.now }
    requires index { index ≤ length function.now.parameters }
    requires names { parameter_names lowering.now.design.now index (drop index function.now.parameters) names.now
        ≡ parameter_names lowering.now.design.now 0 function.now.parameters [] }
    ensures { IfOk result (IsBody lowering.now.design.now lowering.now.functions function.now) }
{
    let parameters = function.parameters.as_slice();
    match parameters.get(index as usize) {
        Some(parameter) => {
            let bound = Bound {
                level: index,
                width: width_of(lowering.design, parameter),
            };
            let inside = Scope::bind(bound, names);
            lower_body(lowering, function, &inside, deeper(index)?)
        }
        None => lower_expression(lowering, names, index, &function.body),
    }
}
