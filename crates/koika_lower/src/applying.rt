//! Lowering: operations on operands, and calls.

ghost use Rattle.std.specs.Prelude.{◌≡◌, ◌∷◌, ◌*◌, ◌<◌, ◌≤◌, ℕ, List, Option, length, IfOk};
ghost use Rattle.kw_bits.specs.BitVector.{BitVector};
ghost use Rattle.koika_check.specs.Meaning.{prefix_value};
ghost use Rattle.koika_lower.specs.inner.Applied.{CanBeApplied, IsArray, IsAskedHost, IsAskedTable, IsCalled, IsCompared, IsExtended, IsPrefixed, IsUpdated, IsWritten};
ghost use Rattle.koika_check.specs.declared.typed.ValueType.{ValueType};
ghost use Rattle.koika_lower.specs.inner.Simulation.{IsApplied, Lowers, Sense, apply_sense, rises};
ghost use Rattle.koika_lower.specs.declared.lowered.Bound.{Bound};
ghost use Rattle.typed_core.specs.Evaluation.{apply_one};
ghost use Rattle.typed_core.specs.Valid.{OneHasWidth};

use crate::binding::{all_bound, stacked};
use crate::forms::{form_of_comparison, formed};
use crate::joining::{chained, joined, last_of};
use crate::leaves::read;
use crate::lowered::{Lowered, one};
use crate::selecting::{range_of, replaced, selected};
use koika_check::{Checked, Operation, Selection};
use koika_syntax::{Extension, SignedComparison, UnaryOperator};
use kw_bits::{Bits, NoMemory, Sequence};
use std::alloc::Global;
use typed_core::{Action, OneOp};

/// Whether an operation binds its operands, each of which then stands one deeper than the one before.
pub(crate) fn binds_operands(operation: &Operation) -> bool
    ensures { result ≡ rises operation.now }
{
    matches!(
        operation,
        Operation::Update(_) | Operation::Array | Operation::Call(_)
    )
}

/// An operation on operands that is no call.
pub(crate) fn applied(
    alloc: Global,
    design: &Checked,
    operation: &Operation,
    operands: Sequence<Lowered>,
) -> Result<Lowered, NoMemory>
    requires { CanBeApplied design.now operation.now operands }
    ensures { IfOk result (λ l. (functions depth : ℕ) (names : List Bound) (types ts : List ValueType) (of : Option ValueType) (senses : List Sense)
        → IsApplied design.now functions depth names types operation.now ts of senses operands
        → Lowers design.now functions depth names types of (apply_sense operation.now senses) l) }
{
    let mut operands = operands;
    match operation {
        Operation::Unary(operators) => {
            prefixed(alloc, operators.as_slice(), last_of(&mut operands))
        }
        Operation::Chain { operators, .. } => chained(alloc, operators.as_slice(), operands),
        Operation::Select(selections) => {
            selected(alloc, selections.as_slice(), last_of(&mut operands))
        }
        Operation::Update(selection) => updated(alloc, *selection, operands),
        Operation::Struct(_) => joined(alloc, operands),
        Operation::Array => array(alloc, operands),
        Operation::Pack => Ok(last_of(&mut operands)),
        Operation::Unpack(_) => Ok(last_of(&mut operands)),
        Operation::Extend { extension, width } => {
            extended(alloc, *extension, *width, last_of(&mut operands))
        }
        Operation::Compare(comparison) => compared(alloc, *comparison, operands),
        Operation::Table(number) => asked_table(alloc, design, *number, last_of(&mut operands)),
        Operation::Host(number) => asked_host(alloc, design, *number, joined(alloc, operands)?),
        Operation::Call(_) => unreachable!(),
        Operation::Read { port, register } => Ok(read(design, *port, *register)),
        Operation::Write { port, register } => {
            written(alloc, *port, *register, last_of(&mut operands))
        }
        Operation::Abort => Ok(Lowered {
            action: Action::Abort,
            width: 0,
        }),
    }
}

// Prefix operators on an operand, the outermost first.
fn prefixed(
    alloc: Global,
    operators: &[UnaryOperator],
    operand: Lowered,
) -> Result<Lowered, NoMemory>
    ensures { IfOk result (IsPrefixed operators.now operand) }
{
    match operators.split_first() {
        Some((operator, inner)) => {
            let inner = prefixed(alloc, inner, operand)?;
            Ok(Lowered {
                action: one(alloc, one_of(*operator), inner.action)?,
                width: inner.width,
            })
        }
        None => Ok(operand),
    }
}

// The operator of the core.
fn one_of(operator: UnaryOperator) -> OneOp
    ensures value { (x : BitVector) → apply_one result x ≡ prefix_value operator x }
    ensures keeps { (width : ℕ) → OneHasWidth result width width }
{
    match operator {
        UnaryOperator::Not => OneOp::Not,
        UnaryOperator::Negate => OneOp::Neg,
    }
}

// A value with a part replaced by another.
fn updated(
    alloc: Global,
    selection: Selection,
    operands: Sequence<Lowered>,
) -> Result<Lowered, NoMemory>
    requires { 1 ≤ length operands }
    ensures { IfOk result (IsUpdated selection operands) }
{
    let width = first_width(operands.as_slice());
    let body = replaced(alloc, range_of(selection), width)?;
    Ok(Lowered {
        action: all_bound(alloc, operands, body)?,
        width,
    })
}

// The width of the first operand.
fn first_width(operands: &[Lowered]) -> u32
    requires { 1 ≤ length operands.now }
    ensures { (first : Lowered) (rest : List Lowered) → operands.now ≡ first ∷ rest → result ≡ first.width }
{
    operands[0].width
}

// The width of that many values of a width.
fn times(width: u32, count: u32) -> u32
    ensures { count * width ≤ 128 → result ≡ count * width }
{
    width.saturating_mul(count)
}

// How many items there are, where they are few enough for an array: each has a bit.
fn count_of(items: &[Lowered]) -> u32
    ensures { length items.now ≤ 128 → result ≡ length items.now }
{
    items.len().min(Bits::MAX_WIDTH as usize) as u32
}

// An array of its items.
fn array(alloc: Global, items: Sequence<Lowered>) -> Result<Lowered, NoMemory>
    requires { 1 ≤ length items }
    ensures { IfOk result (IsArray items) }
{
    let count = count_of(items.as_slice());
    let width = times(first_width(items.as_slice()), count);
    let body = stacked(alloc, count)?;
    Ok(Lowered {
        action: all_bound(alloc, items, body)?,
        width,
    })
}

// More bits above, where the width is another.
fn extended(
    alloc: Global,
    extension: Extension,
    width: u32,
    operand: Lowered,
) -> Result<Lowered, NoMemory>
    ensures { IfOk result (IsExtended extension width operand) }
{
    if operand.width == width {
        return Ok(operand);
    }
    let a = Box::new(alloc, operand.action)?;
    match extension {
        Extension::Zero => Ok(Lowered {
            action: Action::Zext(a, width),
            width,
        }),
        Extension::Sign => Ok(Lowered {
            action: Action::Sext(a, width),
            width,
        }),
    }
}

// A comparison of two signed numbers.
fn compared(
    alloc: Global,
    comparison: SignedComparison,
    operands: Sequence<Lowered>,
) -> Result<Lowered, NoMemory>
    requires { length operands ≡ 2 }
    ensures { IfOk result (IsCompared comparison operands) }
{
    let mut operands = operands;
    let right = last_of(&mut operands);
    let left = last_of(&mut operands);
    formed(alloc, form_of_comparison(comparison), left, right)
}

// The table of this number.
fn asked_table(
    alloc: Global,
    design: &Checked,
    number: u32,
    operand: Lowered,
) -> Result<Lowered, NoMemory>
    requires { number < length design.now.tables }
    ensures { IfOk result (IsAskedTable design.now number operand) }
{
    let width = design.tables.as_slice()[number as usize].spec.out_width;
    let action = Action::Table(number, Box::new(alloc, operand.action)?);
    Ok(Lowered { action, width })
}

// The host function of this number, asked at its arguments, the first above the second.
fn asked_host(
    alloc: Global,
    design: &Checked,
    number: u32,
    input: Lowered,
) -> Result<Lowered, NoMemory>
    requires { number < length design.now.hosts }
    ensures { IfOk result (IsAskedHost design.now number input) }
{
    let spec = design.hosts.as_slice()[number as usize].spec;
    let width = spec.kind.out_width(spec.in_width);
    let action = Action::Host(number, Box::new(alloc, input.action)?);
    Ok(Lowered { action, width })
}

/// The body of a function, with its arguments bound.
pub(crate) fn called(
    alloc: Global,
    body: Lowered,
    arguments: Sequence<Lowered>,
) -> Result<Lowered, NoMemory>
    ensures { IfOk result (IsCalled body arguments) }
{
    Ok(Lowered {
        action: all_bound(alloc, arguments, body.action)?,
        width: body.width,
    })
}

// A write at a port of a register.
fn written(alloc: Global, port: u32, register: u32, value: Lowered) -> Result<Lowered, NoMemory>
    ensures { IfOk result (IsWritten port register value) }
{
    Ok(Lowered {
        action: Action::Write(port, register, Box::new(alloc, value.action)?),
        width: 0,
    })
}
