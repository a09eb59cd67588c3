//! Reports: how much memory lines need.

// How much room lines need. There is none where it is more than memory can have.
ghost use Rattle.std.specs.Prelude.{◌≡◌, ◌+◌, ◌/◌, ◌≤◌, ◌<◌, ◌^◌, ℕ, List, length, IfSome, false};
ghost use Rattle.kw_bits.specs.BitVector.{BitVector};
ghost use Rattle.stim_report.specs.Report.{fired_names, lines_from, listed, registers_text};
ghost use Rattle.stim_report.specs.Shapes.{RowsFit};
ghost use Rattle.stim_report.specs.inner.Steps.{shown};

use crate::{NameWidth, Shape};
use kw_bits::Text;
use one_rule::Row;

// Room for the values of registers, for all values.
pub(crate) fn room_of_registers(registers: &[NameWidth]) -> Option<usize>
    ensures { IfSome result (λ room. (values : List BitVector) → length (registers_text registers.now values) ≤ room) }
{
    let mut room: usize = 0;
    for register in registers {
        room = room.checked_add(room_of_register(register)?)?;
    }
    Some(room)
}

fn room_of_register(register: &NameWidth) -> Option<usize>
    ensures { IfSome result (λ room. room ≡ length register.now.name + (register.now.width + 3) / 4 + 2) }
{
    let digits = register.width.div_ceil(4) as usize;
    register.name.len().checked_add(digits)?.checked_add(2)
}

// Room for the names of the rules that fired, or a dash.
fn room_of_fired(rules: &[Text], fired: &[bool]) -> Option<usize>
    requires { length rules.now ≤ length fired.now }
    ensures { IfSome result (λ room. length (listed (fired_names rules.now fired.now)) ≤ room) }
{
    let mut room: usize = 1;
    for (number, rule) in rules.iter().enumerate() {
        room = room_with(room, rule, fired[number])?;
    }
    Some(room)
}

// The room with that for a rule that fired and a comma.
fn room_with(room: usize, rule: &Text, fired: bool) -> Option<usize>
    ensures { IfSome result (λ more. more ≡ room + length (shown false rule.now fired)) }
{
    if !fired {
        return Some(room);
    }
    room.checked_add(rule.len())?.checked_add(1)
}

// Room for the lines of rows.
pub(crate) fn room_of_lines(shape: &Shape, rows: &[Row]) -> Option<usize>
    requires { RowsFit shape.now rows.now }
    ensures { IfSome result (λ room. (cycle : ℕ) → cycle + length rows.now < 2 ^ 64 → length (lines_from shape.now cycle rows.now) ≤ room) }
{
    let registers = room_of_registers(shape.registers.as_slice())?;
    let rules = shape.rules.as_slice();
    let mut room: usize = 0;
    for row in rows {
        room = room.checked_add(room_of_line(registers, rules, row)?)?;
    }
    Some(room)
}

// Room for a line: `@`, at most 20 digits, a space, the rules, the registers and a line feed.
fn room_of_line(registers: usize, rules: &[Text], row: &Row) -> Option<usize>
    requires { length rules.now ≤ length row.now.fired }
    ensures { IfSome result (λ room. 23 + length (listed (fired_names rules.now row.now.fired)) + registers ≤ room) }
{
    let fired = room_of_fired(rules, row.fired.as_slice())?;
    fired.checked_add(registers)?.checked_add(23)
}
