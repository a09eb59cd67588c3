//! Trees: the tree of a text, or its first fault.

ghost use Rattle.std.specs.Prelude.{◌≡◌, ◌≤◌, All, Err, IfOk, drop, length};
ghost use Rattle.kw_base.specs.Fault.{IfFault, IsFaultUnlessNoMemory, fault_at};
ghost use Rattle.kw_base.specs.Place.{place_at};
ghost use Rattle.kw_base.specs.declared.fault.Fault.{Fault};
ghost use Rattle.std.specs.List.{flat_map};
ghost use Rattle.koika_syntax.specs.Grammar.{Derives, IsDeclaration, IsDesign, declaration_leaves, tree_leaves};
ghost use Rattle.koika_syntax.specs.Tokens.{StandsIn};
ghost use Rattle.koika_syntax.specs.declared.tree.Tree.{Tree};
ghost use Rattle.koika_parse.specs.Brackets.{AreFewOpen};
ghost use Rattle.koika_parse.specs.Faults.{StandsBetween, place_behind};
ghost use Rattle.koika_parse.specs.inner.Expected.{Takes};
ghost use Rattle.koika_parse.specs.Laws.{ReadsBack};
ghost use Rattle.koika_parse.specs.inner.Reading.{Reads};
ghost use Rattle.koika_parse.specs.inner.Stops.{IsFaultOf};
ghost use Rattle.koika_parse.specs.inner.Words.{DeclarationsWord, DesignWord, end_follows, schedule_follows};

use crate::cursor::Cursor;
use crate::source::Source;
use crate::stop::{Stop, Unread};
use koika_syntax::{Declaration, Keyword, Token, Tree};
use kw_base::{Fault, Refusal, fault_number, place_of};
use kw_bits::{Failure, Sequence};
use std::alloc::Global;

/// The tree of a text, whose tokens these are, or the first fault: 11 at a token that no design goes on with, or after
/// the text where no design ends there, and 12 at a 65th open bracket. A tree is answered exactly where one with at
/// most 64 open brackets derives the tokens, and a fault exactly where it is between them, unless memory ran out. Where
/// the tokens are a tree's, as in a printed text, that tree is answered up to places.
pub fn parse(alloc: Global, text: &[u8], tokens: &[Token]) -> Result<Tree, Refusal>
    requires stands { All (StandsIn text.now) tokens.now }
    ensures derived { IfOk result (λ tree. Derives text.now tree tokens.now) }
    ensures few { IfOk result (λ tree. AreFewOpen 0 (tree_leaves tree)) }
    ensures fault { IfFault result (StandsBetween text.now tokens.now) }
    ensures again { ReadsBack text.now tokens.now result }
    ensures refused { (fault : Fault) → StandsBetween text.now tokens.now fault → IsFaultUnlessNoMemory result fault }
{
    let source = Source {
        alloc,
        text,
        tokens,
    };
    let mut cursor = Cursor { at: 0, depth: 0 };
    match source.tree(&mut cursor) {
        Ok(tree) => Ok(tree),
        Err(stop) => Err(source.refusal(&cursor, stop)),
    }
}

impl<'a> Source<'a> {
    // Reads a whole design.
    fn tree(&self, cursor: &mut Cursor) -> Result<Tree, Stop>
        ensures read { IfOk result (λ found. Reads self.now cursor.old cursor.new (tree_leaves found)) }
        ensures is { IfOk result IsDesign }
        ensures all { IfOk result (λ found. length self.now.tokens.now ≤ cursor.new.at) }
        ensures takes { Takes self.now cursor.old cursor.new DesignWord end_follows result }
    {
        let declarations = self.declarations(cursor)?;
        let schedule = self.word_at(cursor, Keyword::Schedule)?;
        let scheduler = self.scheduler(cursor)?;
        if cursor.at < self.tokens.len() {
            return Err(Failure::Why(Unread::Unexpected));
        }
        Ok(Tree {
            declarations,
            schedule,
            scheduler,
        })
    }

    fn declarations(&self, cursor: &mut Cursor) -> Result<Sequence<Declaration>, Stop>
        ensures read { IfOk result (λ found. Reads self.now cursor.old cursor.new (flat_map declaration_leaves found)) }
        ensures is { IfOk result (λ found. All IsDeclaration found) }
        ensures takes { Takes self.now cursor.old cursor.new DeclarationsWord schedule_follows result }
    {
        let mut all = Sequence::new(self.alloc);
        'more: while !self.is_at_word(cursor, Keyword::Schedule) {
            let next = self.declaration(cursor)?;
            all.push(next)?;
        }
        Ok(all)
    }

    // What is answered where reading ends at the next token.
    fn refusal(&self, cursor: &Cursor, stop: Stop) -> Refusal
        ensures { IfFault {X = Tree} (Err result) (IsFaultOf self.now cursor.now stop) }
    {
        match stop {
            Failure::Why(Unread::Unexpected) => Refusal::Fault(self.fault(
                cursor,
                fault_number::UNEXPECTED_TOKEN,
            )),
            Failure::Why(Unread::TooDeep) => Refusal::Fault(self.fault(
                cursor,
                fault_number::BRACKETS_TOO_DEEP,
            )),
            Failure::NoMemory => Refusal::NoMemory,
        }
    }

    fn fault(&self, cursor: &Cursor, number: u32) -> Fault
        ensures { result ≡ fault_at number (place_behind self.now.text.now (drop cursor.now.at self.now.tokens.now)) }
    {
        Fault::new(number, place_of(self.text, self.offset(cursor)))
    }

    // Where the next token begins, or where the text ends.
    fn offset(&self, cursor: &Cursor) -> usize
        ensures place { place_at self.now.text.now result ≡ place_behind self.now.text.now (drop cursor.now.at self.now.tokens.now) }
        ensures within { result ≤ length self.now.text.now }
    {
        if cursor.at < self.tokens.len() {
            self.tokens[cursor.at].start as usize
        } else {
            self.text.len()
        }
    }
}
