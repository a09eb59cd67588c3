//! Lowering: chains of operators.

ghost use Rattle.std.specs.Prelude.{◌≡◌, ◌+◌, ◌-◌, ◌≤◌, ◌++◌, [], ◌∷◌, length, replicate, IfOk};
ghost use Rattle.koika_lower.specs.inner.Applied.{IsChain};
ghost use Rattle.koika_syntax.specs.declared.operator.BinaryOperator.TheVariants as binary;

use crate::forms::{form_of, formed};
use crate::lowered::Lowered;
use koika_syntax::BinaryOperator;
use kw_bits::{NoMemory, Sequence};
use std::alloc::Global;

/// The last of some operands, which is taken away.
pub(crate) fn last_of(operands: &mut Sequence<Lowered>) -> Lowered
    requires { 1 ≤ length operands.old }
    ensures { operands.old ≡ operands.new ++ result ∷ [] }
{
    match operands.pop() {
        Some(last) => last,
        None => unreachable!(),
    }
}

/// Operands with operators between them, grouped to the left.
pub(crate) fn chained(
    alloc: Global,
    operators: &[BinaryOperator],
    operands: Sequence<Lowered>,
) -> Result<Lowered, NoMemory>
    requires { length operands ≡ length operators.now + 1 }
    ensures { IfOk result (IsChain operators.now operands) }
{
    let mut operands = operands;
    let right = last_of(&mut operands);
    match operators.split_last() {
        Some((operator, before)) => {
            let left = chained(alloc, before, operands)?;
            formed(alloc, form_of(*operator), left, right)
        }
        None => Ok(right),
    }
}

/// Operands one below the other, the first the most significant.
pub(crate) fn joined(alloc: Global, operands: Sequence<Lowered>) -> Result<Lowered, NoMemory>
    requires { 1 ≤ length operands }
    ensures { IfOk result (IsChain (replicate (length operands - 1) binary.Concat) operands) }
{
    let mut operands = operands;
    let low = last_of(&mut operands);
    if operands.is_empty() {
        return Ok(low);
    }
    let high = joined(alloc, operands)?;
    formed(alloc, form_of(BinaryOperator::Concat), high, low)
}
