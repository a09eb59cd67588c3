//! Trees: the reader of the scheduler.

ghost use Rattle.std.specs.Prelude.{All, IfOk, IfSome};
ghost use Rattle.std.specs.List.{flat_map};
ghost use Rattle.koika_syntax.specs.Grammar.{IsName, IsScheduler, last_leaves, rule_leaves, scheduler_leaves};
ghost use Rattle.koika_syntax.specs.inner.Grammar.{choice_leaves};
ghost use Rattle.koika_syntax.specs.Tree.{in_braces};
ghost use Rattle.koika_parse.specs.inner.Expected.{Any, Part, Takes};
ghost use Rattle.koika_parse.specs.inner.Reading.{Reads};
ghost use Rattle.koika_parse.specs.inner.Parts.{IsChoice};
ghost use Rattle.koika_parse.specs.inner.Words.{LastChoiceWord, RulesWord, no_name, no_try};

use crate::cursor::Cursor;
use crate::source::Source;
use crate::stop::Stop;
use koika_syntax::{Choice, Keyword, Name, Scheduler, Symbol};
use kw_bits::{Boxed, Sequence};

impl<'a> Source<'a> {
    /// Reads a scheduler in its brackets.
    #[cycle(scheduler)]
    pub(crate) fn scheduler(&self, cursor: &mut Cursor) -> Result<Scheduler, Stop>
        ensures read { IfOk result (λ found. Reads self.now cursor.old cursor.new (in_braces (scheduler_leaves found))) }
        ensures is { IfOk result IsScheduler }
        ensures takes { Takes self.now cursor.old cursor.new (Part IsScheduler (λ s. in_braces (scheduler_leaves s))) Any result }
    {
        self.sign(cursor, Symbol::LeftBrace)?;
        let rules = self.rules(cursor)?;
        let last = self.last_choice(cursor)?;
        self.sign(cursor, Symbol::RightBrace)?;
        Ok(Scheduler { rules, last })
    }

    // Reads rules, each with a semicolon after it.
    fn rules(&self, cursor: &mut Cursor) -> Result<Sequence<Name>, Stop>
        ensures read { IfOk result (λ found. Reads self.now cursor.old cursor.new (flat_map rule_leaves found)) }
        ensures is { IfOk result (λ found. All IsName found) }
        ensures takes { Takes self.now cursor.old cursor.new RulesWord no_name result }
    {
        let mut all = Sequence::new(self.alloc);
        'more: while self.is_at_name(cursor) {
            let rule = self.name(cursor)?;
            self.sign(cursor, Symbol::Semicolon)?;
            all.push(rule)?;
        }
        Ok(all)
    }

    #[cycle(scheduler)]
    fn last_choice(&self, cursor: &mut Cursor) -> Result<Option<Boxed<Choice>>, Stop>
        ensures read { IfOk result (λ found. Reads self.now cursor.old cursor.new (last_leaves found choice_leaves)) }
        ensures is { IfOk result (λ found. IfSome found IsChoice) }
        ensures takes { Takes self.now cursor.old cursor.new LastChoiceWord no_try result }
    {
        if !self.is_at_word(cursor, Keyword::Try) {
            return Ok(None);
        }
        let choice = self.choice(cursor)?;
        let last = Boxed::new(self.alloc, choice)?;
        Ok(Some(last))
    }

    #[cycle(scheduler)]
    fn choice(&self, cursor: &mut Cursor) -> Result<Choice, Stop>
        ensures read { IfOk result (λ found. Reads self.now cursor.old cursor.new (choice_leaves found)) }
        ensures is { IfOk result IsChoice }
        ensures takes { Takes self.now cursor.old cursor.new (Part IsChoice choice_leaves) Any result }
    {
        self.word(cursor, Keyword::Try)?;
        let rule = self.name(cursor)?;
        self.word(cursor, Keyword::Then)?;
        let then = self.scheduler(cursor)?;
        self.word(cursor, Keyword::Else)?;
        let otherwise = self.scheduler(cursor)?;
        Ok(Choice {
            rule,
            then,
            otherwise,
        })
    }
}
