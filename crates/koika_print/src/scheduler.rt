//! Trees: the schedule as text.

ghost use Rattle.std.specs.Prelude.{OnOk};
ghost use Rattle.std.specs.List.{flat_map};
ghost use Rattle.koika_syntax.specs.Grammar.{last_leaves, rule_leaves, scheduler_leaves};
ghost use Rattle.koika_syntax.specs.inner.Grammar.{choice_leaves};
ghost use Rattle.koika_syntax.specs.Tree.{in_braces};
ghost use Rattle.koika_print.specs.inner.Printed.{Prints};

use crate::leaves::{name, sign, word};
use koika_syntax::{Choice, Keyword, Name, Scheduler, Symbol};
use kw_bits::{Boxed, NoMemory, Text};

// Writes a scheduler without its brackets.
#[cycle(scheduler)]
#[tactic(auto, using(crate::proofs::Printing::printing_schedulers))]
fn scheduler(out: &mut Text, of: &Scheduler) -> Result<(), NoMemory>
    ensures { OnOk result (Prints out.old out.new (scheduler_leaves of.now)) }
{
    rules(out, of.rules.as_slice())?;
    last(out, &of.last)
}

fn rules(out: &mut Text, rules: &[Name]) -> Result<(), NoMemory>
    ensures { OnOk result (Prints out.old out.new (flat_map rule_leaves rules.now)) }
{
    for rule in rules {
        name(out, rule)?;
        sign(out, Symbol::Semicolon)?;
    }
    Ok(())
}

#[cycle(scheduler)]
fn last(out: &mut Text, last: &Option<Boxed<Choice>>) -> Result<(), NoMemory>
    ensures { OnOk result (Prints out.old out.new (last_leaves last.now choice_leaves)) }
{
    match last {
        None => Ok(()),
        Some(last) => choice(out, last.get()),
    }
}

#[cycle(scheduler)]
#[tactic(auto, using(crate::proofs::Printing::printing_schedulers))]
fn choice(out: &mut Text, of: &Choice) -> Result<(), NoMemory>
    ensures { OnOk result (Prints out.old out.new (choice_leaves of.now)) }
{
    word(out, Keyword::Try)?;
    name(out, &of.rule)?;
    word(out, Keyword::Then)?;
    in_braces(out, &of.then)?;
    word(out, Keyword::Else)?;
    in_braces(out, &of.otherwise)
}

/// Writes a scheduler in its brackets.
#[cycle(scheduler)]
pub(crate) fn in_braces(out: &mut Text, of: &Scheduler) -> Result<(), NoMemory>
    ensures { OnOk result (Prints out.old out.new (in_braces (scheduler_leaves of.now))) }
{
    sign(out, Symbol::LeftBrace)?;
    scheduler(out, of)?;
    sign(out, Symbol::RightBrace)
}
