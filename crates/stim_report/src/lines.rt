//! Reports: the report of a run, and of a part of one.

ghost use Rattle.std.specs.Prelude.{◌≡◌, ◌<◌, ◌+◌, ◌^◌, IfOk, length};
ghost use Rattle.stim_report.specs.inner.Pages.{Gains, HasRoom};
ghost use Rattle.stim_report.specs.Report as texts;
ghost use Rattle.stim_report.specs.Shapes.{RowFits, RowsFit};

use crate::Shape;
use crate::fired::push_fired;
use crate::page::{push, push_number};
use crate::registers::push_registers;
use crate::room::room_of_lines;
use kw_bits::{NoMemory, Reserved, Text};
use one_rule::{Row, Rows};
use std::alloc::Global;

/// The report of a run: a line for each row, the first that of cycle 0.
pub fn report(alloc: Global, shape: &Shape, rows: &Rows) -> Result<Text, NoMemory>
    requires { RowsFit shape.now rows.now }
    ensures { IfOk result (λ text. text ≡ texts.report shape.now rows.now) }
{
    lines(alloc, shape, rows.as_slice(), 0)
}

/// The report of a part of a run that goes on from a cycle: a line for each row, where the first is left out unless it
/// is that of cycle 0.
pub fn report_part(alloc: Global, shape: &Shape, rows: &Rows, from: u32) -> Result<Text, NoMemory>
    requires { RowsFit shape.now rows.now }
    ensures { IfOk result (λ text. text ≡ texts.report_part shape.now rows.now from) }
{
    if from == 0 {
        return report(alloc, shape, rows);
    }
    match rows.as_slice().split_first() {
        Some((_, later)) => lines(alloc, shape, later, u64::from(from) + 1),
        None => Ok(Text::new(alloc)),
    }
}

// The lines of rows, the first of them that of this cycle.
fn lines(alloc: Global, shape: &Shape, rows: &[Row], cycle: u64) -> Result<Text, NoMemory>
    requires fit { RowsFit shape.now rows.now }
    requires few { cycle < 2 ^ 33 }
    ensures { IfOk result (λ text. text ≡ texts.lines_from shape.now cycle rows.now) }
{
    let Some(room) = room_of_lines(shape, rows) else {
        return Err(NoMemory);
    };
    let mut page = Reserved::with_capacity(alloc, room)?;
    push_lines(&mut page, shape, rows, cycle);
    Ok(page.into_sequence())
}

fn push_lines(page: &mut Reserved<u8>, shape: &Shape, rows: &[Row], cycle: u64)
    requires fit { RowsFit shape.now rows.now }
    requires few { cycle + length rows.now < 2 ^ 64 }
    requires room { HasRoom page.old (texts.lines_from shape.now cycle rows.now) }
    ensures { Gains page.old page.new (texts.lines_from shape.now cycle rows.now) }
{
    for (number, row) in rows.iter().enumerate() {
        push_line(page, shape, cycle + number as u64, row);
    }
}

fn push_line(page: &mut Reserved<u8>, shape: &Shape, cycle: u64, row: &Row)
    requires fits { RowFits shape.now.registers shape.now.rules row.now }
    requires room { HasRoom page.old (texts.line_of shape.now cycle row.now) }
    ensures { Gains page.old page.new (texts.line_of shape.now cycle row.now) }
{
    push(page, b'@');
    push_number(page, cycle);
    push(page, b' ');
    push_fired(page, shape.rules.as_slice(), row.fired.as_slice());
    push_registers(page, shape.registers.as_slice(), row.regs.as_slice());
    push(page, b'\n');
}
