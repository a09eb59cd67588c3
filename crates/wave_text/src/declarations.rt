//! Waves: the declarations of a dump.

ghost use Rattle.std.specs.Prelude.{◌≡◌, ◌++◌, ◌∷◌, codes, IfOk, OnOk};
ghost use Rattle.wave_text.specs.Waves as texts;

use crate::lines::{push_line, push_number};
use crate::variable::{Variable, VariableKind, named_rules};
use kw_bits::{NoMemory, Text};
use std::alloc::Global;
use stim_report::{NameWidth, Shape};

/// What a dump of a system of this shape begins with: the clock, the inputs, the registers and the rules.
pub fn head(alloc: Global, shape: &Shape) -> Result<Text, NoMemory>
    ensures { IfOk result (λ text. text ≡ texts.head shape.now) }
{
    let rules = named_rules(alloc, shape.rules.as_slice())?;
    let mut text = Text::new(alloc);
    push_line(&mut text, b"$timescale 1 ns $end")?;
    push_line(&mut text, b"$scope module design $end")?;
    push_line(&mut text, b"$var wire 1 c clk $end")?;
    push_scope(
        &mut text,
        b"inputs",
        VariableKind::Input,
        shape.inputs.as_slice(),
    )?;
    push_scope(
        &mut text,
        b"registers",
        VariableKind::Register,
        shape.registers.as_slice(),
    )?;
    push_scope(&mut text, b"rules", VariableKind::Rule, rules.as_slice())?;
    push_line(&mut text, b"$upscope $end")?;
    push_line(&mut text, b"$enddefinitions $end")?;
    Ok(text)
}

// A scope with the declarations of a kind.
fn push_scope(
    text: &mut Text,
    name: &[u8],
    kind: VariableKind,
    named: &[NameWidth],
) -> Result<(), NoMemory>
    ensures { OnOk result (text.new ≡ text.old ++ texts.scope name.now (texts.declarations kind 0 named.now)) }
{
    text.extend_from_slice(b"$scope module ")?;
    text.extend_from_slice(name)?;
    push_line(text, b" $end")?;
    push_declarations(text, kind, named)?;
    push_line(text, b"$upscope $end")?;
    Ok(())
}

fn push_declarations(
    text: &mut Text,
    kind: VariableKind,
    named: &[NameWidth],
) -> Result<(), NoMemory>
    ensures { OnOk result (text.new ≡ text.old ++ texts.declarations kind 0 named.now) }
{
    for (number, one) in named.iter().enumerate() {
        let variable = Variable {
            kind,
            number,
            width: one.width,
        };
        push_declaration(text, variable, one.name.as_slice())?;
    }
    Ok(())
}

fn push_declaration(text: &mut Text, variable: Variable, name: &[u8]) -> Result<(), NoMemory>
    ensures { OnOk result (text.new ≡ text.old ++ texts.declaration variable name.now) }
{
    text.extend_from_slice(b"$var ")?;
    text.extend_from_slice(variable.kind.type_name())?;
    text.push(b' ')?;
    push_number(text, u64::from(variable.width))?;
    text.push(b' ')?;
    push_code(text, variable)?;
    text.push(b' ')?;
    text.extend_from_slice(name)?;
    push_line(text, b" $end")?;
    Ok(())
}

/// The identifier code of a variable.
pub(crate) fn push_code(text: &mut Text, variable: Variable) -> Result<(), NoMemory>
    ensures { OnOk result (text.new ≡ text.old ++ texts.code variable) }
{
    text.push(variable.kind.letter())?;
    push_number(text, variable.number as u64)
}
