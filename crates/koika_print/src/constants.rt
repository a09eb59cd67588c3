//! Trees: constants as text.

ghost use Rattle.std.specs.Prelude.{OnOk, map};
ghost use Rattle.koika_syntax.specs.Grammar.{constant_leaves};
ghost use Rattle.koika_syntax.specs.inner.Grammar.{constant_field_leaves};
ghost use Rattle.koika_syntax.specs.Tree.{commas};
ghost use Rattle.koika_print.specs.inner.Printed.{Prints};

use crate::leaves::{comma_behind, literal, name, sign};
use koika_syntax::{Constant, ConstantField, Symbol};
use kw_bits::{NoMemory, Text};

/// Writes a constant.
#[cycle(constant)]
#[tactic(auto, using(crate::proofs::Printing::printing_constants), unfolding(koika_syntax::specs::Grammar::constant_leaves))]
pub(crate) fn constant(out: &mut Text, value: &Constant) -> Result<(), NoMemory>
    ensures { OnOk result (Prints out.old out.new (constant_leaves value.now)) }
{
    match value {
        Constant::Literal(bits) => literal(out, *bits),
        Constant::Member { of, member } => {
            name(out, of)?;
            sign(out, Symbol::ColonColon)?;
            name(out, member)
        }
        Constant::Struct {
            of,
            fields,
            close: _,
        } => {
            name(out, of)?;
            sign(out, Symbol::ColonColon)?;
            sign(out, Symbol::LeftBrace)?;
            constant_fields(out, fields.as_slice())?;
            sign(out, Symbol::RightBrace)
        }
        Constant::Array { place: _, elements } => {
            sign(out, Symbol::LeftBracket)?;
            constants(out, elements.as_slice())?;
            sign(out, Symbol::RightBracket)
        }
    }
}

#[cycle(constant)]
#[tactic(auto, using(crate::proofs::Printing::printing_constants))]
fn constant_field(out: &mut Text, field: &ConstantField) -> Result<(), NoMemory>
    ensures { OnOk result (Prints out.old out.new (constant_field_leaves field.now)) }
{
    name(out, &field.name)?;
    sign(out, Symbol::Colon)?;
    constant(out, &field.value)
}

#[cycle(constant)]
#[tactic(auto, unfolding(koika_syntax::specs::Tree::with_between))]
fn constant_fields(out: &mut Text, fields: &[ConstantField]) -> Result<(), NoMemory>
    ensures { OnOk result (Prints out.old out.new (commas (map constant_field_leaves fields.now))) }
{
    for number in 0..fields.len() {
        comma_behind(out, number)?;
        constant_field(out, &fields[number])?;
    }
    Ok(())
}

#[cycle(constant)]
#[tactic(auto, unfolding(koika_syntax::specs::Tree::with_between))]
fn constants(out: &mut Text, values: &[Constant]) -> Result<(), NoMemory>
    ensures { OnOk result (Prints out.old out.new (commas (map constant_leaves values.now))) }
{
    for number in 0..values.len() {
        comma_behind(out, number)?;
        constant(out, &values[number])?;
    }
    Ok(())
}
