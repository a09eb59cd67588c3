//! Reports: the names and widths by which texts are read and written.

ghost use Rattle.std.specs.Prelude.{◌≡◌, List, IfOk};
ghost use Rattle.one_rule.specs.Rows as rows;
ghost use Rattle.one_rule.specs.declared.rows.Row.{Row};
ghost use Rattle.stim_report.specs.Shapes as shapes;

use crate::named::try_map;
use kw_bits::{NoMemory, Sequence, Text};
use std::alloc::Global;
use typed_core::Design;

/// A name, and how many bits what it names has.
#[derive(Debug, Drop)]
pub struct NameWidth {
    pub name: Text,
    pub width: u32,
}

/// What texts show of a system: its inputs, its registers and the names of its rules.
#[derive(Debug, Drop)]
pub struct Shape {
    pub inputs: Sequence<NameWidth>,
    pub registers: Sequence<NameWidth>,
    pub rules: Sequence<Text>,
}

/// The shape of a design.
pub fn shape_of(alloc: Global, design: &Design) -> Result<Shape, NoMemory>
    ensures shape { IfOk result (λ shape. shape ≡ shapes.shape_of design.now) }
    ensures matches { IfOk result (λ shape. (run : List Row) → rows.RowsFit design.now run → shapes.RowsMatch shape run) }
    ensures fits { IfOk result (λ shape. (run : List Row) → rows.RowsFit design.now run → shapes.RowsFit shape run) }
{
    let inputs = try_map(alloc, design.inputs.as_slice(), |decl| {
        NameWidth::of(alloc, decl.name.as_slice(), decl.width)
    })?;
    let registers = try_map(alloc, design.regs.as_slice(), |decl| {
        NameWidth::of(alloc, decl.name.as_slice(), decl.width)
    })?;
    let rules = try_map(alloc, design.rules.as_slice(), |rule| {
        Text::from_slice(alloc, rule.name.as_slice())
    })?;
    Ok(Shape {
        inputs,
        registers,
        rules,
    })
}

/// A copy of named things.
pub(crate) fn copy_named(
    alloc: Global,
    named: &[NameWidth],
) -> Result<Sequence<NameWidth>, NoMemory>
    ensures { IfOk result (λ copy. copy ≡ named.now) }
{
    try_map(
        alloc,
        named,
        |one| NameWidth::of(alloc, one.name.as_slice(), one.width),
    )
}

/// A copy of names.
pub(crate) fn copy_names(alloc: Global, names: &[Text]) -> Result<Sequence<Text>, NoMemory>
    ensures { IfOk result (λ copy. copy ≡ names.now) }
{
    try_map(
        alloc,
        names,
        |name| Text::from_slice(alloc, name.as_slice()),
    )
}
