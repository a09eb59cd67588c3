//! Lowering: conditions with a body each, and one action after another.

ghost use Rattle.std.specs.Prelude.{◌≡◌, ◌+◌, ◌⊎◌, length, IfOk};
ghost use Rattle.koika_lower.specs.inner.Applied.{IsAfter, IsChoice, IsChosen};

use crate::joining::last_of;
use crate::lowered::{Lowered, either, sequence};
use kw_bits::{NoMemory, Sequence};
use std::alloc::Global;
use typed_core::Action;

/// The body of the first condition that is 1, and where there is one body more, that one where none is.
pub(crate) fn chosen(
    alloc: Global,
    conditions: Sequence<Lowered>,
    bodies: Sequence<Lowered>,
) -> Result<Lowered, NoMemory>
    requires { (length bodies ≡ length conditions) ⊎ (length bodies ≡ length conditions + 1) }
    ensures { IfOk result (IsChoice conditions bodies) }
{
    let mut bodies = bodies;
    if bodies.len() > conditions.len() {
        let last = last_of(&mut bodies);
        chosen_before(alloc, conditions, bodies, last)
    } else {
        chosen_before(alloc, conditions, bodies, Lowered::unit())
    }
}

// The body of the first condition that is 1, or else what comes after them all.
fn chosen_before(
    alloc: Global,
    conditions: Sequence<Lowered>,
    bodies: Sequence<Lowered>,
    behind: Lowered,
) -> Result<Lowered, NoMemory>
    requires { length bodies ≡ length conditions }
    ensures { IfOk result (IsChosen conditions bodies behind) }
{
    let mut conditions = conditions;
    let mut bodies = bodies;
    match conditions.pop() {
        Some(condition) => {
            let body = last_of(&mut bodies);
            let width = body.width;
            let action = either(alloc, condition.action, body.action, behind.action)?;
            chosen_before(alloc, conditions, bodies, Lowered { action, width })
        }
        None => Ok(behind),
    }
}

/// One action after another. A unit that does nothing stands neither in front of an action nor after a unit.
pub(crate) fn one_after_another(
    alloc: Global,
    first: Lowered,
    second: Lowered,
) -> Result<Lowered, NoMemory>
    ensures { IfOk result (IsAfter first second) }
{
    if let Action::Unit = first.action {
        return Ok(second);
    }
    if first.width == 0
        && second.width == 0
        && let Action::Unit = second.action
    {
        return Ok(first);
    }
    Ok(Lowered {
        action: sequence(alloc, first.action, second.action)?,
        width: second.width,
    })
}
