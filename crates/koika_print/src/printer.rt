//! Trees: a whole tree as text.

ghost use Rattle.std.specs.Prelude.{OnOk, ◌≡◌, IfOk};
ghost use Rattle.std.specs.List.{flat_map};
ghost use Rattle.koika_syntax.specs.Grammar.{IsDesign, declaration_leaves, tree_leaves};
ghost use Rattle.koika_print.specs.Printed.{AreWritable, IsLexedAs, printed};
ghost use Rattle.koika_print.specs.inner.Printed.{Prints};

use crate::declarations::declaration;
use crate::leaves::word;
use crate::scheduler::in_braces;
use koika_syntax::{Declaration, Keyword, Tree};
use kw_bits::{NoMemory, Text};
use std::alloc::Global;

/// The text of a tree: its tokens in order, a line feed after each `;`, `{` and `}` and a space after every
/// other one. Literals and numbers are decimal, without leading zeros.
pub fn print(alloc: Global, tree: &Tree) -> Result<Text, NoMemory>
    ensures text { IfOk result (λ text. text ≡ printed (tree_leaves tree.now)) }

    // What is printed is lexed as the tree's tokens, for each tree of the grammar and for each whose tokens can be
    // written.
    ensures tokens { AreWritable (tree_leaves tree.now) → IfOk result (λ text. IsLexedAs text (tree_leaves tree.now)) }
    ensures derived { IsDesign tree.now → IfOk result (λ text. IsLexedAs text (tree_leaves tree.now)) }
{
    let mut out = Text::new(alloc);
    design(&mut out, tree)?;
    Ok(out)
}

fn design(out: &mut Text, tree: &Tree) -> Result<(), NoMemory>
    ensures { OnOk result (Prints out.old out.new (tree_leaves tree.now)) }
{
    declarations(out, tree.declarations.as_slice())?;
    word(out, Keyword::Schedule)?;
    in_braces(out, &tree.scheduler)
}

fn declarations(out: &mut Text, declarations: &[Declaration]) -> Result<(), NoMemory>
    ensures { OnOk result (Prints out.old out.new (flat_map declaration_leaves declarations.now)) }
{
    for one in declarations {
        declaration(out, one)?;
    }
    Ok(())
}
