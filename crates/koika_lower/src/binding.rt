//! Lowering: bodies in which operands are bound.

ghost use Rattle.std.specs.Prelude.{◌-◌, ◌≤◌, IfOk};
ghost use Rattle.koika_lower.specs.inner.Actions.{ComesTo};
ghost use Rattle.koika_lower.specs.inner.Applied.{IsBound, StackFits, names_stacked};
ghost use Rattle.typed_core.specs.Evaluation.{comes_to};

use crate::lowered::{Lowered, bind, two};
use kw_bits::{NoMemory, Sequence};
use std::alloc::Global;
use typed_core::{Action, TwoOp};

/// A body in which the operands are bound, the last of them as the innermost name.
pub(crate) fn all_bound(
    alloc: Global,
    operands: Sequence<Lowered>,
    body: Action,
) -> Result<Action, NoMemory>
    ensures { IfOk result (IsBound operands body) }
{
    let mut operands = operands;
    match operands.pop() {
        Some(last) => {
            let body = bind(alloc, last.action, body)?;
            all_bound(alloc, operands, body)
        }
        None => Ok(body),
    }
}

/// That many innermost names one above the other, the innermost in the most significant bits.
pub(crate) fn stacked(alloc: Global, names: u32) -> Result<Action, NoMemory>
    ensures means { IfOk result (λ action. 1 ≤ names → ComesTo action (λ env ports locals. comes_to (names_stacked (names - 1) locals))) }
    ensures typed { IfOk result (λ action. 1 ≤ names → StackFits names action) }
{
    let mut action = Action::Local(0);
    for name in 1..names {
        action = two(alloc, TwoOp::Concat, action, Action::Local(name))?;
    }
    Ok(action)
}
