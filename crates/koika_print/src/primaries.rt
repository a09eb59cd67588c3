//! Trees: prefixes, primaries and suffixes of expressions as text.

ghost use Rattle.std.specs.Prelude.{◌≡◌, OnOk, [], ◌∷◌, ◌++◌};
ghost use Rattle.std.specs.List.{flat_map};
ghost use Rattle.koika_syntax.specs.Grammar.{call_leaves, part_leaves, prefix_leaves, suffix_leaves, type_leaves};
ghost use Rattle.koika_syntax.specs.inner.Grammar.{expression_leaves};
ghost use Rattle.koika_syntax.specs.Tree.{extension_word, name_leaves, number_leaves, read_word, sign, word, write_word};
ghost use Rattle.koika_syntax.specs.declared.symbol.Symbol.TheVariants as symbols;
ghost use Rattle.koika_syntax.specs.declared.keyword.Keyword.TheVariants as keywords;
ghost use Rattle.koika_print.specs.inner.Printed.{Prints};

use crate::expressions::expression;
use crate::leaves::{name, number, sign, word};
use crate::types::type_expression;
use koika_syntax::{
    Expression, Extension, Keyword, Name, Number, Prefix, Suffix, Symbol, TypeExpression,
    UpdatedPart, read_word, write_word,
};
use kw_bits::{NoMemory, Sequence, Text};

#[cycle(expression)]
pub(crate) fn prefixed(
    out: &mut Text,
    prefixes: &Sequence<Prefix>,
    operand: &Expression,
) -> Result<(), NoMemory>
    ensures { OnOk result (Prints out.old out.new (flat_map prefix_leaves prefixes.now ++ expression_leaves operand.now)) }
{
    prefix_run(out, prefixes.as_slice())?;
    expression(out, operand)
}

fn prefix_run(out: &mut Text, prefixes: &[Prefix]) -> Result<(), NoMemory>
    ensures { OnOk result (Prints out.old out.new (flat_map prefix_leaves prefixes.now)) }
{
    for one in prefixes {
        prefix(out, *one)?;
    }
    Ok(())
}

fn prefix(out: &mut Text, prefix: Prefix) -> Result<(), NoMemory>
    ensures { OnOk result (Prints out.old out.new (prefix_leaves prefix)) }
{
    sign(out, prefix.operator.symbol())
}

#[cycle(expression)]
pub(crate) fn suffixed(
    out: &mut Text,
    primary: &Expression,
    suffixes: &Sequence<Suffix>,
) -> Result<(), NoMemory>
    ensures { OnOk result (Prints out.old out.new (expression_leaves primary.now ++ flat_map suffix_leaves suffixes.now)) }
{
    expression(out, primary)?;
    suffix_run(out, suffixes.as_slice())
}

fn suffix_run(out: &mut Text, suffixes: &[Suffix]) -> Result<(), NoMemory>
    ensures { OnOk result (Prints out.old out.new (flat_map suffix_leaves suffixes.now)) }
{
    for one in suffixes {
        suffix(out, one)?;
    }
    Ok(())
}

fn suffix(out: &mut Text, of: &Suffix) -> Result<(), NoMemory>
    ensures { OnOk result (Prints out.old out.new (suffix_leaves of.now)) }
{
    match of {
        Suffix::Field(field) => {
            sign(out, Symbol::Dot)?;
            name(out, field)
        }
        Suffix::Index(index) => {
            sign(out, Symbol::LeftBracket)?;
            number(out, *index)?;
            sign(out, Symbol::RightBracket)
        }
        Suffix::Slice { high, low } => {
            sign(out, Symbol::LeftBracket)?;
            number(out, *high)?;
            sign(out, Symbol::Colon)?;
            number(out, *low)?;
            sign(out, Symbol::RightBracket)
        }
    }
}

#[tactic(auto, using(crate::proofs::Printing::printing), unfolding(koika_syntax::specs::Tree::with_between))]
pub(crate) fn read(out: &mut Text, port: u32, register: &Name) -> Result<(), NoMemory>
    ensures { OnOk result (Prints out.old out.new (call_leaves (word (read_word port)) (name_leaves register.now ∷ []))) }
{
    word(out, read_word(port))?;
    sign(out, Symbol::LeftParenthesis)?;
    name(out, register)?;
    sign(out, Symbol::RightParenthesis)
}

#[cycle(expression)]
#[tactic(auto, using(crate::proofs::Printing::printing), unfolding(koika_syntax::specs::Tree::with_between))]
pub(crate) fn write(
    out: &mut Text,
    port: u32,
    register: &Name,
    value: &Expression,
) -> Result<(), NoMemory>
    ensures { OnOk result (Prints out.old out.new
        (call_leaves (word (write_word port)) (name_leaves register.now ∷ expression_leaves value.now ∷ []))) }
{
    word(out, write_word(port))?;
    sign(out, Symbol::LeftParenthesis)?;
    name(out, register)?;
    sign(out, Symbol::Comma)?;
    expression(out, value)?;
    sign(out, Symbol::RightParenthesis)
}

#[cycle(expression)]
#[tactic(auto, using(crate::proofs::Printing::printing), unfolding(koika_syntax::specs::Tree::with_between))]
pub(crate) fn pack(out: &mut Text, value: &Expression) -> Result<(), NoMemory>
    ensures { OnOk result (Prints out.old out.new (call_leaves (word keywords.Pack) (expression_leaves value.now ∷ []))) }
{
    word(out, Keyword::Pack)?;
    sign(out, Symbol::LeftParenthesis)?;
    expression(out, value)?;
    sign(out, Symbol::RightParenthesis)
}

#[cycle(expression)]
#[tactic(auto, using(crate::proofs::Printing::printing), unfolding(koika_syntax::specs::Tree::with_between))]
pub(crate) fn unpack(
    out: &mut Text,
    value: &Expression,
    to: &TypeExpression,
) -> Result<(), NoMemory>
    ensures { OnOk result (Prints out.old out.new
        (call_leaves (word keywords.Unpack) (type_leaves to.now ∷ expression_leaves value.now ∷ []))) }
{
    word(out, Keyword::Unpack)?;
    sign(out, Symbol::LeftParenthesis)?;
    type_expression(out, to)?;
    sign(out, Symbol::Comma)?;
    expression(out, value)?;
    sign(out, Symbol::RightParenthesis)
}

#[cycle(expression)]
#[tactic(auto, using(crate::proofs::Printing::printing), unfolding(koika_syntax::specs::Tree::with_between))]
pub(crate) fn extend(
    out: &mut Text,
    extension: Extension,
    value: &Expression,
    width: Number,
) -> Result<(), NoMemory>
    ensures { OnOk result (Prints out.old out.new
        (call_leaves (word (extension_word extension)) (expression_leaves value.now ∷ number_leaves width ∷ []))) }
{
    word(out, extension.word())?;
    sign(out, Symbol::LeftParenthesis)?;
    expression(out, value)?;
    sign(out, Symbol::Comma)?;
    number(out, width)?;
    sign(out, Symbol::RightParenthesis)
}

// Writes the part that an update replaces, with the comma after it.
pub(crate) fn replaced(out: &mut Text, part: &UpdatedPart) -> Result<(), NoMemory>
    ensures { OnOk result (Prints out.old out.new (part_leaves part.now ++ sign symbols.Comma)) }
{
    match part {
        UpdatedPart::Field(field) => name(out, field)?,
        UpdatedPart::Index(index) => number(out, *index)?,
    }
    sign(out, Symbol::Comma)
}
