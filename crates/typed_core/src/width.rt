//! Core: the width of an action's value.

ghost use Rattle.std.specs.Prelude.{◌≡◌, ◌+◌, ◌-◌, ◌≤◌, ◌<◌, slice_get, Some};
ghost use Rattle.typed_core.specs.inner.Finds.{Finds};
ghost use Rattle.typed_core.specs.Widths.{input_widths, register_widths};
ghost use Rattle.typed_core.specs.Valid.{ActionHasWidth, declarations, HostHasWidth, IsPort, OneHasWidth, TableHasWidth, TwoHasWidth};

use crate::action::{Action, OneOp, TwoOp};
use crate::design::Parts;
use crate::limits::PORTS;
use crate::scope::Scope;
use kw_bits::Bits;

/// The width of an action's value, 0 where it has none, if the action is typed.
#[cycle(width)]
pub(crate) fn width_of(parts: &Parts, action: &Action, scope: &Scope<u32>) -> Option<u32>
    ensures { Finds (ActionHasWidth (declarations parts.now) action.now scope.now) result }
{
    match action {
        Action::Unit | Action::Abort => Some(0),
        Action::Const(value) => Some(value.width()),
        Action::Local(name) => scope.get(*name),
        Action::Input(input) => input_width(parts, *input),
        Action::One(operator, a) => Some(one_width(*operator, operand_width(parts, a, scope)?)),
        Action::Two(operator, a, b) => {
            let left = operand_width(parts, a, scope)?;
            let right = operand_width(parts, b, scope)?;
            two_width(*operator, left, right)
        }
        Action::Slice(a, upper, lower) => {
            slice_width(operand_width(parts, a, scope)?, *upper, *lower)
        }
        Action::Zext(a, to) | Action::Sext(a, to) => {
            extended_width(operand_width(parts, a, scope)?, *to)
        }
        Action::Table(table, a) => table_width(parts, *table, operand_width(parts, a, scope)?),
        Action::Host(host, a) => host_width(parts, *host, operand_width(parts, a, scope)?),
        Action::Let(value, body) => {
            let bound = operand_width(parts, value, scope)?;
            width_of(parts, body, &Scope::bind(bound, &*scope))
        }
        Action::If(condition, first, second) => {
            let condition = width_of(parts, condition, scope)?;
            let first = width_of(parts, first, scope)?;
            let second = width_of(parts, second, scope)?;
            choice_width(condition, first, second)
        }
        Action::Seq(first, second) => {
            width_of(parts, first, scope)?;
            width_of(parts, second, scope)
        }
        Action::Read(port, register) => access_width(parts, *port, *register),
        Action::Write(port, register, value) => {
            let held = width_of(parts, value, scope)?;
            write_width(parts, *port, *register, held)
        }
    }
}

// The width of an action's value, if the action is typed and has a value.
#[cycle(width)]
fn operand_width(parts: &Parts, action: &Action, scope: &Scope<u32>) -> Option<u32>
    ensures width { Finds (λ width. ActionHasWidth (declarations parts.now) action.now scope.now width × (1 ≤ width)) result }
{
    let width = width_of(parts, action, scope)?;
    if width == 0 { None } else { Some(width) }
}

fn input_width(parts: &Parts, input: u32) -> Option<u32>
    ensures { Finds (λ width. slice_get (input_widths parts.now) input ≡ Some width) result }
{
    let decl = parts.inputs.as_slice().get(input as usize)?;
    Some(decl.width)
}

// The width of a register that is accessed at this port.
fn access_width(parts: &Parts, port: u32, register: u32) -> Option<u32>
    ensures { Finds (λ width. IsPort port × (slice_get (register_widths parts.now) register ≡ Some width)) result }
{
    if port >= PORTS {
        return None;
    }
    let decl = parts.regs.as_slice().get(register as usize)?;
    Some(decl.width)
}

fn write_width(parts: &Parts, port: u32, register: u32, held: u32) -> Option<u32>
    ensures { Finds (λ width. IsPort port × (slice_get (register_widths parts.now) register ≡ Some held) × (width ≡ 0)) result }
{
    if access_width(parts, port, register)? == held {
        Some(0)
    } else {
        None
    }
}

fn table_width(parts: &Parts, table: u32, operand: u32) -> Option<u32>
    ensures { Finds (TableHasWidth parts.now.tables table operand) result }
{
    let spec = parts.tables.as_slice().get(table as usize)?;
    if spec.in_width == operand {
        Some(spec.out_width)
    } else {
        None
    }
}

fn host_width(parts: &Parts, host: u32, operand: u32) -> Option<u32>
    ensures { Finds (HostHasWidth parts.now.hosts host operand) result }
{
    let function = parts.hosts.as_slice().get(host as usize)?;
    if function.in_width == operand {
        Some(function.kind.out_width(function.in_width))
    } else {
        None
    }
}

fn one_width(operator: OneOp, operand: u32) -> u32
    ensures { OneHasWidth operator operand result }
{
    match operator {
        OneOp::Not | OneOp::Neg => operand,
        OneOp::RedAnd | OneOp::RedOr | OneOp::RedXor => 1,
    }
}

fn two_width(operator: TwoOp, left: u32, right: u32) -> Option<u32>
    ensures { Finds (TwoHasWidth operator left right) result }
{
    match operator {
        TwoOp::Concat => joined_width(left, right),
        _ if left != right => None,
        TwoOp::EqBits | TwoOp::Ult | TwoOp::Ulte | TwoOp::Slt | TwoOp::Slte => Some(1),
        _ => Some(left),
    }
}

fn joined_width(left: u32, right: u32) -> Option<u32>
    ensures { Finds (λ width. (left + right ≤ 128) × (width ≡ left + right)) result }
{
    if left <= Bits::MAX_WIDTH && right <= Bits::MAX_WIDTH - left {
        Some(left + right)
    } else {
        None
    }
}

fn slice_width(operand: u32, upper: u32, lower: u32) -> Option<u32>
    ensures { Finds (λ width. (lower ≤ upper) × (upper < operand) × (width ≡ upper - lower + 1)) result }
{
    if lower <= upper && upper < operand {
        Some(upper - lower + 1)
    } else {
        None
    }
}

fn extended_width(operand: u32, to: u32) -> Option<u32>
    ensures { Finds (λ width. (operand ≤ to) × (to ≤ 128) × (width ≡ to)) result }
{
    if operand <= to && to <= Bits::MAX_WIDTH {
        Some(to)
    } else {
        None
    }
}

fn choice_width(condition: u32, first: u32, second: u32) -> Option<u32>
    ensures { Finds (λ width. (condition ≡ 1) × (first ≡ width) × (second ≡ width)) result }
{
    if condition == 1 && first == second {
        Some(first)
    } else {
        None
    }
}
