//! Program: what reports show of a design.

ghost use Rattle.std.specs.Prelude.{◌≡◌, ◌<◌, IfOk, length};
ghost use Rattle.koika_check.specs.Typing.{IsTypedDesign};
ghost use Rattle.front_end.specs.Marks.{marked_name, marks_of};
ghost use Rattle.front_end.specs.Sources as sources;

use koika_check::Checked;
use kw_bits::{NoMemory, Sequence, Text};
use std::alloc::Global;
use stim_report::{NameWidth, Shape, try_map};

/// What reports show of a typed design.
pub fn shape_of(alloc: Global, design: &Checked) -> Result<Shape, NoMemory>
    ensures { IfOk result (λ shape. shape ≡ sources.shape_of design.now) }
{
    let inputs = try_map(alloc, design.inputs.as_slice(), |input| {
        NameWidth::of(alloc, input.name.as_slice(), input.width)
    })?;
    let registers = try_map(alloc, design.registers.as_slice(), |register| {
        NameWidth::of(alloc, register.name.as_slice(), register.width)
    })?;
    let rules = try_map(alloc, design.rules.as_slice(), |checked| {
        Text::from_slice(alloc, checked.name.as_slice())
    })?;
    Ok(Shape {
        inputs,
        registers,
        rules,
    })
}

/// The names of the rules that are marked as assertions, in order of the marks.
pub fn marked_names(alloc: Global, design: &Checked) -> Result<Sequence<Text>, NoMemory>
    requires { IsTypedDesign design.now }
    ensures { IfOk result (λ names. names ≡ (marks_of design.now).names) }
{
    let mut names = Sequence::new(alloc);
    for mark in design.asserts() {
        names.push(marked_name(alloc, design, *mark)?)?;
    }
    Ok(names)
}

// The name of the rule of this number.
fn marked_name(alloc: Global, design: &Checked, rule: u32) -> Result<Text, NoMemory>
    requires { rule < length design.now.rules }
    ensures { IfOk result (λ name. name ≡ marked_name design.now rule) }
{
    Text::from_slice(
        alloc,
        design.rules.as_slice()[rule as usize].name.as_slice(),
    )
}
