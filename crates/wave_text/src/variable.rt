//! Waves: the variables of a dump.

ghost use Rattle.std.specs.Prelude.{◌≡◌, ◌++◌, IfOk, OnOk, length, map};
ghost use Rattle.stim_report.specs.declared.shape.NameWidth.{NameWidth as Named};
ghost use Rattle.wave_text.specs.Waves as texts;

use kw_bits::{NoMemory, Sequence, Text};
use std::alloc::Global;
use stim_report::{NameWidth, Shape, try_map};

/// What a variable shows.
#[derive(Clone, Copy, Debug)]
pub(crate) enum VariableKind {
    Input,
    Register,
    Rule,
}

impl VariableKind {
    /// The letter that begins the identifier codes of this kind.
    pub(crate) fn letter(self) -> u8
        ensures { result ≡ texts.letter self }
    {
        match self {
            VariableKind::Input => b'i',
            VariableKind::Register => b'r',
            VariableKind::Rule => b'f',
        }
    }

    /// The type of a variable of this kind.
    pub(crate) fn type_name(self) -> &'static [u8]
        ensures { result.now ≡ texts.type_of self }
    {
        match self {
            VariableKind::Input => b"wire",
            VariableKind::Register => b"reg",
            VariableKind::Rule => b"wire",
        }
    }
}

/// A variable: its number among those of its kind, and how many bits it has.
#[derive(Clone, Copy, Debug)]
pub(crate) struct Variable {
    pub(crate) kind: VariableKind,
    pub(crate) number: usize,
    pub(crate) width: u32,
}

/// The variables of a shape, in order.
pub(crate) fn variables(alloc: Global, shape: &Shape) -> Result<Sequence<Variable>, NoMemory>
    ensures { IfOk result (λ all. all ≡ texts.variables shape.now) }
{
    let rules = named_rules(alloc, shape.rules.as_slice())?;
    let mut all = Sequence::new(alloc);
    push_numbered(&mut all, VariableKind::Input, shape.inputs.as_slice())?;
    push_numbered(&mut all, VariableKind::Register, shape.registers.as_slice())?;
    push_numbered(&mut all, VariableKind::Rule, rules.as_slice())?;
    Ok(all)
}

/// The rules as signals of one bit.
pub(crate) fn named_rules(alloc: Global, rules: &[Text]) -> Result<Sequence<NameWidth>, NoMemory>
    ensures { IfOk result (λ named. named ≡ map texts.of_rule rules.now) }
{
    try_map(
        alloc,
        rules,
        |rule| NameWidth::of(alloc, rule.as_slice(), 1),
    )
}

// Adds the variables of these names and widths, numbered from 0.
fn push_numbered(
    all: &mut Sequence<Variable>,
    kind: VariableKind,
    named: &[NameWidth],
) -> Result<(), NoMemory>
    ensures { OnOk result (all.new ≡ all.old ++ texts.numbered kind 0 named.now) }
{
    for (number, one) in named.iter().enumerate() {
        all.push(Variable {
            kind,
            number,
            width: one.width,
        })?;
    }
    Ok(())
}
