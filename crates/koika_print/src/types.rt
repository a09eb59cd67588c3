//! Trees: types as text.

ghost use Rattle.std.specs.Prelude.{OnOk};
ghost use Rattle.koika_syntax.specs.Grammar.{type_leaves};
ghost use Rattle.koika_print.specs.inner.Printed.{Prints};

use crate::leaves::{name, number, sign, width};
use koika_syntax::{Symbol, TypeExpression};
use kw_bits::{NoMemory, Text};

/// Writes a type.
#[cycle(type_expression)]
#[tactic(auto, using(crate::proofs::Printing::printing), unfolding(koika_syntax::specs::Grammar::type_leaves))]
pub(crate) fn type_expression(out: &mut Text, of: &TypeExpression) -> Result<(), NoMemory>
    ensures { OnOk result (Prints out.old out.new (type_leaves of.now)) }
{
    match of {
        TypeExpression::Bits(bits) => width(out, *bits),
        TypeExpression::Named(named) => name(out, named),
        TypeExpression::Array {
            place: _,
            element,
            length,
        } => {
            sign(out, Symbol::LeftBracket)?;
            type_expression(out, element.get())?;
            sign(out, Symbol::Semicolon)?;
            number(out, *length)?;
            sign(out, Symbol::RightBracket)
        }
    }
}
