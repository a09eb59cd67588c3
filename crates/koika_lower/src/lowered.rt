//! Lowering: an action with the width of its value.

ghost use Rattle.std.specs.Prelude.{◌≡◌, ◌+◌, if◌then◌else◌, IfOk};
ghost use Rattle.koika_lower.specs.inner.Actions.{IsIf, IsLet, IsOne, IsSeq, IsSlice, IsTwo};
ghost use Rattle.typed_core.specs.declared.action.Action.TheVariants as action;

use kw_bits::NoMemory;
use std::alloc::Global;
use typed_core::{Action, OneOp, TwoOp};

/// An action, and the width of its value, 0 where it has none.
#[derive(Drop)]
pub(crate) struct Lowered {
    pub action: Action,
    pub width: u32,
}

/// What a name stands for: the width of its value, and how many `Let`s stand round the one that binds it.
#[derive(Clone, Copy)]
pub(crate) struct Bound {
    pub level: u32,
    pub width: u32,
}

impl Lowered {
    /// An action that does nothing.
    pub(crate) fn unit() -> Lowered
        ensures { result ≡ record { action = action.Unit; width = 0 } }
    {
        Lowered {
            action: Action::Unit,
            width: 0,
        }
    }
}

/// Inside one more `Let`. Their number stays far below what 32 bits hold in a well typed design, in whose weight each
/// one's value is.
pub(crate) fn deeper(depth: u32) -> Result<u32, NoMemory>
    ensures { IfOk result (λ deep. deep ≡ depth + 1) }
{
    match depth.checked_add(1) {
        Some(deep) => Ok(deep),
        None => Err(NoMemory),
    }
}

/// Where the operand after one is.
pub(crate) fn behind(depth: u32, rises: bool) -> Result<u32, NoMemory>
    ensures { IfOk result (λ at. at ≡ (if rises then depth + 1 else depth)) }
{
    if rises { deeper(depth) } else { Ok(depth) }
}

/// An operator on one operand.
pub(crate) fn one(alloc: Global, operator: OneOp, a: Action) -> Result<Action, NoMemory>
    ensures { IfOk result (IsOne operator a) }
{
    Ok(Action::One(operator, Box::new(alloc, a)?))
}

/// An operator on two operands.
pub(crate) fn two(alloc: Global, operator: TwoOp, a: Action, b: Action) -> Result<Action, NoMemory>
    ensures { IfOk result (IsTwo operator a b) }
{
    let a = Box::new(alloc, a)?;
    Ok(Action::Two(operator, a, Box::new(alloc, b)?))
}

/// The bits from the upper bound down to the lower.
pub(crate) fn slice(alloc: Global, a: Action, upper: u32, lower: u32) -> Result<Action, NoMemory>
    ensures { IfOk result (IsSlice a upper lower) }
{
    Ok(Action::Slice(Box::new(alloc, a)?, upper, lower))
}

/// A value, and a body in which it is the innermost name.
pub(crate) fn bind(alloc: Global, value: Action, body: Action) -> Result<Action, NoMemory>
    ensures { IfOk result (IsLet value body) }
{
    let value = Box::new(alloc, value)?;
    Ok(Action::Let(value, Box::new(alloc, body)?))
}

/// A condition and two arms.
pub(crate) fn either(
    alloc: Global,
    condition: Action,
    first: Action,
    second: Action,
) -> Result<Action, NoMemory>
    ensures { IfOk result (IsIf condition first second) }
{
    let condition = Box::new(alloc, condition)?;
    let first = Box::new(alloc, first)?;
    Ok(Action::If(condition, first, Box::new(alloc, second)?))
}

/// One action after another.
pub(crate) fn sequence(alloc: Global, first: Action, second: Action) -> Result<Action, NoMemory>
    ensures { IfOk result (IsSeq first second) }
{
    let first = Box::new(alloc, first)?;
    Ok(Action::Seq(first, Box::new(alloc, second)?))
}
