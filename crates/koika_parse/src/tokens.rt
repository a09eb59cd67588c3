//! Trees: the next token, and the count of open brackets.

ghost use Rattle.std.specs.Prelude.{ℕ, ◌≡◌, ◌≢◌, ◌<◌, ◌≤◌, ◌^◌, Some, None, IfOk, IfNone, IfErr, IfSome, OnOk, IsTrue, ◌↔◌, length};
ghost use Rattle.koika_syntax.specs.Grammar.{LiteralFits, IsName, NumberFits, IsWidth};
ghost use Rattle.kw_bits.specs.BitVector.{BitVector, IsBits};
ghost use Rattle.koika_syntax.specs.Tree.{Terminal, keyword, literal, literal_leaves, name_leaves, number, number_leaves, placed, sign, symbol, width_leaves, word};
ghost use Rattle.koika_syntax.specs.declared.keyword.Keyword.{Keyword};
ghost use Rattle.koika_syntax.specs.declared.symbol.Symbol.{Symbol};
ghost use Rattle.koika_syntax.specs.declared.token.TokenKind.TheVariants as kinds;
ghost use Rattle.koika_parse.specs.inner.Names.{IsNameIn};
ghost use Rattle.koika_parse.specs.Brackets.{open_behind_symbol};
ghost use Rattle.koika_parse.specs.inner.Brackets.{open_behind_kind};
ghost use Rattle.koika_parse.specs.inner.Expected.{Any, One, Part, Takes};
ghost use Rattle.kw_bits.specs.declared.failure.Failure.TheVariants as failures;
ghost use Rattle.koika_parse.specs.declared.stop.Unread.TheVariants as unread;
ghost use Rattle.koika_parse.specs.inner.Reading.{Reads, kind_at, next, token_at};

use crate::cursor::Cursor;
use crate::source::Source;
use crate::stop::{Stop, Unread};
use koika_syntax::{Keyword, Literal, Name, Number, Symbol, Token, TokenKind, Width};
use kw_bits::{Bits, Failure, Text};

/// At most this many brackets are open at once.
const MOST_OPEN: u32 = 64;

impl<'a> Source<'a> {
    /// What the next token is.
    pub(crate) fn peek(&self, cursor: &Cursor) -> Option<TokenKind>
        ensures { result ≡ kind_at self.now cursor.now }
    {
        if cursor.at < self.tokens.len() {
            Some(self.tokens[cursor.at].kind)
        } else {
            None
        }
    }

    /// Whether the next token is this symbol.
    pub(crate) fn is_at_sign(&self, cursor: &Cursor, wanted: Symbol) -> bool
        ensures { IsTrue result ↔ (next self.now cursor.now ≡ Some (symbol wanted)) }
    {
        match self.symbol_at(cursor) {
            Some(found) => found == wanted,
            None => false,
        }
    }

    /// Whether the next token is this keyword.
    pub(crate) fn is_at_word(&self, cursor: &Cursor, wanted: Keyword) -> bool
        ensures { IsTrue result ↔ (next self.now cursor.now ≡ Some (keyword wanted)) }
    {
        match self.keyword_at(cursor) {
            Some(found) => found == wanted,
            None => false,
        }
    }

    /// The next token, if it is a symbol.
    pub(crate) fn symbol_at(&self, cursor: &Cursor) -> Option<Symbol>
        ensures at { IfSome result (λ found. next self.now cursor.now ≡ Some (symbol found)) }
        ensures none { IfNone result ((found : Symbol) → next self.now cursor.now ≢ Some (symbol found)) }
    {
        match self.peek(cursor) {
            Some(kind) => symbol_of(kind),
            None => None,
        }
    }

    /// The next token, if it is a keyword.
    pub(crate) fn keyword_at(&self, cursor: &Cursor) -> Option<Keyword>
        ensures at { IfSome result (λ found. next self.now cursor.now ≡ Some (keyword found)) }
        ensures none { IfNone result ((found : Keyword) → next self.now cursor.now ≢ Some (keyword found)) }
    {
        match self.peek(cursor) {
            Some(kind) => keyword_of(kind),
            None => None,
        }
    }

    // The next token, if it is a number.
    fn number_at(&self, cursor: &Cursor) -> Option<u32>
        ensures at { IfSome result (λ found. next self.now cursor.now ≡ Some (number found)) }
        ensures small { IfSome result (λ found. found < 2 ^ 32) }
        ensures none { IfNone result ((found : ℕ) → next self.now cursor.now ≢ Some (number found)) }
    {
        match self.peek(cursor) {
            Some(kind) => number_of(kind),
            None => None,
        }
    }

    // The bits of the next token, if it is a literal.
    fn bits_at(&self, cursor: &Cursor) -> Option<Bits>
        ensures at { IfSome result (λ found. next self.now cursor.now ≡ Some (literal found)) }
        ensures is { IfSome result IsBits }
        ensures none { IfNone result ((found : BitVector) → next self.now cursor.now ≢ Some (literal found)) }
    {
        match self.peek(cursor) {
            Some(kind) => bits_of(kind),
            None => None,
        }
    }

    /// Whether the next token is a name.
    pub(crate) fn is_at_name(&self, cursor: &Cursor) -> bool
        ensures { IsTrue result ↔ (kind_at self.now cursor.now ≡ Some kinds.Name) }
    {
        match self.peek(cursor) {
            Some(TokenKind::Name) => true,
            _ => false,
        }
    }

    // The next token, if it is a name.
    fn name_at(&self, cursor: &Cursor) -> Option<Token>
        ensures at { IfSome result (λ token. token_at self.now cursor.now ≡ Some token) }
        ensures kind { IfSome result (λ token. token.kind ≡ kinds.Name) }
        ensures name { IfSome result (IsNameIn self.now.text.now) }
        ensures none { IfNone result (kind_at self.now cursor.now ≢ Some kinds.Name) }
    {
        if cursor.at < self.tokens.len() {
            let token = self.tokens[cursor.at];
            match token.kind {
                TokenKind::Name => Some(token),
                _ => None,
            }
        } else {
            None
        }
    }

    // Goes over the next token, counts the brackets that are open then, and answers its place.
    fn step(&self, cursor: &mut Cursor) -> Result<u32, Stop>
        requires { cursor.old.at < length self.now.tokens.now }
        ensures read { IfOk result (λ place. (terminal : Terminal) → next self.now cursor.old ≡ Some terminal →
            Reads self.now cursor.old cursor.new (placed terminal place)) }
        ensures takes { (terminal : Terminal) → next self.now cursor.old ≡ Some terminal → Takes self.now cursor.old cursor.new (One terminal) Any result }
    {
        let token = self.tokens[cursor.at];
        let depth = depth_behind(cursor.depth, token.kind)?;
        cursor.at += 1;
        cursor.depth = depth;
        Ok(token.start)
    }

    /// Reads this symbol, and answers its place.
    pub(crate) fn sign_at(&self, cursor: &mut Cursor, wanted: Symbol) -> Result<u32, Stop>
        ensures read { IfOk result (λ place. Reads self.now cursor.old cursor.new (placed (symbol wanted) place)) }
        ensures takes { Takes self.now cursor.old cursor.new (One (symbol wanted)) Any result }
    {
        if !self.is_at_sign(cursor, wanted) {
            return Err(Failure::Why(Unread::Unexpected));
        }
        self.step(cursor)
    }

    /// Reads this symbol.
    pub(crate) fn sign(&self, cursor: &mut Cursor, wanted: Symbol) -> Result<(), Stop>
        ensures read { OnOk result (Reads self.now cursor.old cursor.new (sign wanted)) }
        ensures takes { Takes self.now cursor.old cursor.new (One (symbol wanted)) Any result }
    {
        self.sign_at(cursor, wanted)?;
        Ok(())
    }

    /// Reads this keyword, and answers its place.
    pub(crate) fn word_at(&self, cursor: &mut Cursor, wanted: Keyword) -> Result<u32, Stop>
        ensures read { IfOk result (λ place. Reads self.now cursor.old cursor.new (placed (keyword wanted) place)) }
        ensures takes { Takes self.now cursor.old cursor.new (One (keyword wanted)) Any result }
    {
        if !self.is_at_word(cursor, wanted) {
            return Err(Failure::Why(Unread::Unexpected));
        }
        self.step(cursor)
    }

    /// Reads this keyword.
    pub(crate) fn word(&self, cursor: &mut Cursor, wanted: Keyword) -> Result<(), Stop>
        ensures read { OnOk result (Reads self.now cursor.old cursor.new (word wanted)) }
        ensures takes { Takes self.now cursor.old cursor.new (One (keyword wanted)) Any result }
    {
        self.word_at(cursor, wanted)?;
        Ok(())
    }

    /// Reads a name.
    pub(crate) fn name(&self, cursor: &mut Cursor) -> Result<Name, Stop>
        ensures read { IfOk result (λ name. Reads self.now cursor.old cursor.new (name_leaves name)) }
        ensures is { IfOk result IsName }
        ensures takes { Takes self.now cursor.old cursor.new (Part IsName name_leaves) Any result }
    {
        match self.name_at(cursor) {
            None => Err(Failure::Why(Unread::Unexpected)),
            Some(token) => {
                let bytes = &self.text[token.start as usize..token.end as usize];
                let text = Text::from_slice(self.alloc, bytes)?;
                let place = self.step(cursor)?;
                Ok(Name { text, place })
            }
        }
    }

    /// Reads a number.
    pub(crate) fn number(&self, cursor: &mut Cursor) -> Result<Number, Stop>
        ensures read { IfOk result (λ number. Reads self.now cursor.old cursor.new (number_leaves number)) }
        ensures is { IfOk result NumberFits }
        ensures takes { Takes self.now cursor.old cursor.new (Part NumberFits number_leaves) Any result }
    {
        match self.number_at(cursor) {
            None => Err(Failure::Why(Unread::Unexpected)),
            Some(value) => {
                let place = self.step(cursor)?;
                Ok(Number { value, place })
            }
        }
    }

    /// Reads a literal.
    pub(crate) fn literal(&self, cursor: &mut Cursor) -> Result<Literal, Stop>
        ensures read { IfOk result (λ literal. Reads self.now cursor.old cursor.new (literal_leaves literal)) }
        ensures is { IfOk result LiteralFits }
        ensures takes { Takes self.now cursor.old cursor.new (Part LiteralFits literal_leaves) Any result }
    {
        match self.bits_at(cursor) {
            None => Err(Failure::Why(Unread::Unexpected)),
            Some(bits) => {
                let place = self.step(cursor)?;
                Ok(literal_at(bits, place))
            }
        }
    }

    /// Reads `bits` and a number.
    pub(crate) fn width(&self, cursor: &mut Cursor) -> Result<Width, Stop>
        ensures read { IfOk result (λ width. Reads self.now cursor.old cursor.new (width_leaves width)) }
        ensures is { IfOk result IsWidth }
        ensures takes { Takes self.now cursor.old cursor.new (Part IsWidth width_leaves) Any result }
    {
        let place = self.word_at(cursor, Keyword::Bits)?;
        let number = self.number(cursor)?;
        Ok(Width { place, number })
    }
}

// The symbol, if it is one.
fn symbol_of(kind: TokenKind) -> Option<Symbol>
    ensures some { IfSome result (λ found. kind ≡ kinds.Symbol found) }
    ensures none { IfNone result ((found : Symbol) → kind ≢ kinds.Symbol found) }
{
    match kind {
        TokenKind::Symbol(found) => Some(found),
        _ => None,
    }
}

// The keyword, if it is one.
fn keyword_of(kind: TokenKind) -> Option<Keyword>
    ensures some { IfSome result (λ found. kind ≡ kinds.Keyword found) }
    ensures none { IfNone result ((found : Keyword) → kind ≢ kinds.Keyword found) }
{
    match kind {
        TokenKind::Keyword(found) => Some(found),
        _ => None,
    }
}

// The number, if it is one.
fn number_of(kind: TokenKind) -> Option<u32>
    ensures some { IfSome result (λ found. kind ≡ kinds.Number found) }
    ensures small { IfSome result (λ found. found < 2 ^ 32) }
    ensures none { IfNone result ((found : ℕ) → kind ≢ kinds.Number found) }
{
    match kind {
        TokenKind::Number(found) => Some(found),
        _ => None,
    }
}

// The bits of a literal, if it is one.
fn bits_of(kind: TokenKind) -> Option<Bits>
    ensures some { IfSome result (λ found. kind ≡ kinds.Literal found) }
    ensures is { IfSome result IsBits }
    ensures none { IfNone result ((found : BitVector) → kind ≢ kinds.Literal found) }
{
    match kind {
        TokenKind::Literal(found) => Some(found),
        _ => None,
    }
}

fn literal_at(bits: Bits, place: u32) -> Literal
    ensures fields { result ≡ record { bits = bits; place = place } }
    ensures is { LiteralFits result }
{
    Literal { bits, place }
}

// How many brackets are open after a token, where that many are open in front of it.
fn depth_behind(before: u32, kind: TokenKind) -> Result<u32, Stop>
    ensures behind { IfOk result (λ behind. behind ≡ open_behind_kind before kind) }
    ensures deep { IfErr result (λ stop. (stop ≡ failures.Why unread.TooDeep) × (64 < open_behind_kind before kind)) }
    ensures few { IfOk result (λ behind. before ≤ 64 → behind ≤ 64) }
{
    match kind {
        TokenKind::Symbol(found) => depth_behind_symbol(before, found),
        _ => Ok(before),
    }
}

fn depth_behind_symbol(before: u32, found: Symbol) -> Result<u32, Stop>
    ensures behind { IfOk result (λ behind. behind ≡ open_behind_symbol before found) }
    ensures deep { IfErr result (λ stop. (stop ≡ failures.Why unread.TooDeep) × (64 < open_behind_symbol before found)) }
    ensures few { IfOk result (λ behind. before ≤ 64 → behind ≤ 64) }
{
    match found {
        Symbol::LeftParenthesis | Symbol::LeftBracket | Symbol::LeftBrace => {
            if before < MOST_OPEN {
                Ok(before + 1)
            } else {
                Err(Failure::Why(Unread::TooDeep))
            }
        }
        Symbol::RightParenthesis | Symbol::RightBracket | Symbol::RightBrace => {
            Ok(before.saturating_sub(1))
        }
        _ => Ok(before),
    }
}
