//! Trees: the reader of operands, with the operators before and the suffixes after them.

ghost use Rattle.std.specs.Prelude.{◌≡◌, ◌≢◌, ◌<◌, ◌↔◌, All, IfNone, IfOk, IfSome, IsTrue, OnOk, Some, map};
ghost use Rattle.std.specs.List.{flat_map};
ghost use Rattle.koika_syntax.specs.Grammar.{IsNonempty, IsPart, IsSuffix, level, part_leaves, prefix_leaves, suffix_leaves};
ghost use Rattle.koika_syntax.specs.inner.Grammar.{IsExpression, expression_leaves, field_value_leaves};
ghost use Rattle.koika_syntax.specs.Tree.{commas, keyword, symbol, unary_symbol};
ghost use Rattle.koika_syntax.specs.declared.keyword.Keyword.TheVariants as keywords;
ghost use Rattle.koika_syntax.specs.declared.token.TokenKind.TheVariants as kinds;
ghost use Rattle.koika_syntax.specs.declared.operator.UnaryOperator.{UnaryOperator};
ghost use Rattle.koika_parse.specs.inner.Expected.{Any, Commas, NoComma, One, Takes};
ghost use Rattle.koika_parse.specs.inner.ExpressionWords.{ArgumentsWord, ArrayWord, CompareWord, ExtendWord, Free, IsAtPrefix, IsAtSuffix, LevelWord, NamedWord, OneBlock, OneFieldValue, OneLiteral, OnePart, OneSuffix, PackWord, ParenthesesWord, PrefixWord, PrefixesWord, ReadWord, SuffixesWord, UnpackWord, UpdateWord, WriteWord, no_prefix, parenthesis_follows};
ghost use Rattle.koika_parse.specs.inner.Reading.{Reads, kind_at, next, tokens_left};
ghost use Rattle.koika_parse.specs.inner.Parts.{IsFieldValue};

use crate::cursor::Cursor;
use crate::source::Source;
use crate::stop::{Stop, Unread};
use koika_syntax::{
    Expression, Extension, FieldValue, Keyword, Prefix, SignedComparison, Suffix, Symbol,
    TokenKind, UnaryOperator, UpdatedPart, read_word, write_word,
};
use kw_bits::{Boxed, Failure, Sequence};

impl<'a> Source<'a> {
    /// Reads operators in front of an operand, and the operand.
    #[cycle(expression)]
    pub(crate) fn unary(&self, cursor: &mut Cursor) -> Result<Expression, Stop>
        ensures read { IfOk result (λ found. Reads self.now cursor.old cursor.new (expression_leaves found)) }
        ensures is { IfOk result IsExpression }
        ensures level { IfOk result (λ found. 9 < level found) }
        ensures takes { Takes self.now cursor.old cursor.new (LevelWord 10) (Free 10) result }
    {
        if !self.is_at_prefix(cursor) {
            return self.postfix(cursor);
        }
        let prefixes = self.prefixes(cursor)?;
        let inside = self.postfix(cursor)?;
        let operand = Boxed::new(self.alloc, inside)?;
        Ok(Expression::Unary { prefixes, operand })
    }

    // Reads operators in front of an operand, at least one.
    fn prefixes(&self, cursor: &mut Cursor) -> Result<Sequence<Prefix>, Stop>
        ensures read { IfOk result (λ found. Reads self.now cursor.old cursor.new (flat_map prefix_leaves found)) }
        ensures some { IfOk result (λ found. IsNonempty found) }
        ensures takes { Takes self.now cursor.old cursor.new PrefixesWord no_prefix result }
    {
        let mut all = Sequence::new(self.alloc);
        let first = self.prefix(cursor)?;
        all.push(first)?;
        'more: while self.is_at_prefix(cursor) {
            let next = self.prefix(cursor)?;
            all.push(next)?;
        }
        Ok(all)
    }

    fn prefix(&self, cursor: &mut Cursor) -> Result<Prefix, Stop>
        ensures read { IfOk result (λ found. Reads self.now cursor.old cursor.new (prefix_leaves found)) }
        ensures some { OnOk result (tokens_left self.now cursor.new < tokens_left self.now cursor.old) }
        ensures takes { Takes self.now cursor.old cursor.new PrefixWord Any result }
    {
        match self.prefix_at(cursor) {
            None => Err(Failure::Why(Unread::Unexpected)),
            Some(operator) => {
                let place = self.sign_at(cursor, operator.symbol())?;
                Ok(Prefix { operator, place })
            }
        }
    }

    // Whether the next token is an operator that is in front of its operand.
    fn is_at_prefix(&self, cursor: &Cursor) -> bool
        ensures { IsTrue result ↔ IsAtPrefix self.now cursor.now }
    {
        self.prefix_at(cursor).is_some()
    }

    // The next token, if it is an operator that is in front of its operand.
    fn prefix_at(&self, cursor: &Cursor) -> Option<UnaryOperator>
        ensures at { IfSome result (λ operator. next self.now cursor.now ≡ Some (symbol (unary_symbol operator))) }
        ensures none { IfNone result (IsAtPrefix self.now cursor.now → ⊥) }
    {
        prefix_of(self.symbol_at(cursor)?)
    }

    // Reads a primary and what is after it.
    #[cycle(expression)]
    fn postfix(&self, cursor: &mut Cursor) -> Result<Expression, Stop>
        ensures read { IfOk result (λ found. Reads self.now cursor.old cursor.new (expression_leaves found)) }
        ensures is { IfOk result IsExpression }
        ensures level { IfOk result (λ found. 10 < level found) }
        ensures takes { Takes self.now cursor.old cursor.new (LevelWord 11) (Free 11) result }
    {
        let inside = self.primary(cursor)?;
        if !self.is_at_suffix(cursor) {
            return Ok(inside);
        }
        let primary = Boxed::new(self.alloc, inside)?;
        let suffixes = self.suffixes(cursor)?;
        Ok(Expression::Postfix { primary, suffixes })
    }

    // Whether the next token begins a suffix.
    fn is_at_suffix(&self, cursor: &Cursor) -> bool
        ensures { IsTrue result ↔ IsAtSuffix self.now cursor.now }
    {
        self.is_at_sign(cursor, Symbol::Dot) || self.is_at_sign(cursor, Symbol::LeftBracket)
    }

    // Reads suffixes, at least one.
    fn suffixes(&self, cursor: &mut Cursor) -> Result<Sequence<Suffix>, Stop>
        ensures read { IfOk result (λ found. Reads self.now cursor.old cursor.new (flat_map suffix_leaves found)) }
        ensures is { IfOk result (λ found. All IsSuffix found) }
        ensures some { IfOk result (λ found. IsNonempty found) }
        ensures takes { Takes self.now cursor.old cursor.new SuffixesWord (Free 11) result }
    {
        let mut all = Sequence::new(self.alloc);
        let first = self.suffix(cursor)?;
        all.push(first)?;
        'more: while self.is_at_suffix(cursor) {
            let next = self.suffix(cursor)?;
            all.push(next)?;
        }
        Ok(all)
    }

    fn suffix(&self, cursor: &mut Cursor) -> Result<Suffix, Stop>
        ensures read { IfOk result (λ found. Reads self.now cursor.old cursor.new (suffix_leaves found)) }
        ensures is { IfOk result IsSuffix }
        ensures some { OnOk result (tokens_left self.now cursor.new < tokens_left self.now cursor.old) }
        ensures takes { Takes self.now cursor.old cursor.new OneSuffix Any result }
    {
        if self.is_at_sign(cursor, Symbol::Dot) {
            self.sign(cursor, Symbol::Dot)?;
            return Ok(Suffix::Field(self.name(cursor)?));
        }
        self.sign(cursor, Symbol::LeftBracket)?;
        let high = self.number(cursor)?;
        if self.is_at_sign(cursor, Symbol::Colon) {
            self.sign(cursor, Symbol::Colon)?;
            let low = self.number(cursor)?;
            self.sign(cursor, Symbol::RightBracket)?;
            return Ok(Suffix::Slice { high, low });
        }
        self.sign(cursor, Symbol::RightBracket)?;
        Ok(Suffix::Index(high))
    }

    #[cycle(expression)]
    fn primary(&self, cursor: &mut Cursor) -> Result<Expression, Stop>
        ensures read { IfOk result (λ found. Reads self.now cursor.old cursor.new (expression_leaves found)) }
        ensures is { IfOk result IsExpression }
        ensures level { IfOk result (λ found. level found ≡ 12) }
        ensures takes { Takes self.now cursor.old cursor.new (LevelWord 12) (Free 12) result }
    {
        match self.peek(cursor) {
            Some(kind) => self.begun(cursor, kind),
            None => Err(Failure::Why(Unread::Unexpected)),
        }
    }

    // Reads what begins with a token of this kind.
    #[cycle(expression)]
    fn begun(&self, cursor: &mut Cursor, kind: TokenKind) -> Result<Expression, Stop>
        requires { kind_at self.now cursor.old ≡ Some kind }
        ensures read { IfOk result (λ found. Reads self.now cursor.old cursor.new (expression_leaves found)) }
        ensures is { IfOk result IsExpression }
        ensures level { IfOk result (λ found. level found ≡ 12) }
        ensures takes { Takes self.now cursor.old cursor.new (LevelWord 12) (Free 12) result }
    {
        match kind {
            TokenKind::Literal(_) => self.literal_expression(cursor),
            TokenKind::Name => self.named(cursor),
            TokenKind::Symbol(symbol) => self.bracketed(cursor, symbol),
            TokenKind::Keyword(keyword) => self.keyword_primary(cursor, keyword),
            TokenKind::Number(_) => Err(Failure::Why(Unread::Unexpected)),
        }
    }

    // Reads what begins with this symbol.
    #[cycle(expression)]
    fn bracketed(&self, cursor: &mut Cursor, begin: Symbol) -> Result<Expression, Stop>
        requires { kind_at self.now cursor.old ≡ Some (kinds.Symbol begin) }
        ensures read { IfOk result (λ found. Reads self.now cursor.old cursor.new (expression_leaves found)) }
        ensures is { IfOk result IsExpression }
        ensures level { IfOk result (λ found. level found ≡ 12) }
        ensures takes { Takes self.now cursor.old cursor.new (LevelWord 12) (Free 12) result }
    {
        match begin {
            Symbol::LeftBracket => self.array(cursor),
            Symbol::LeftParenthesis => self.parentheses(cursor),
            Symbol::LeftBrace => self.block_expression(cursor),
            _ => Err(Failure::Why(Unread::Unexpected)),
        }
    }

    fn literal_expression(&self, cursor: &mut Cursor) -> Result<Expression, Stop>
        ensures read { IfOk result (λ found. Reads self.now cursor.old cursor.new (expression_leaves found)) }
        ensures is { IfOk result IsExpression }
        ensures level { IfOk result (λ found. level found ≡ 12) }
        ensures takes { Takes self.now cursor.old cursor.new OneLiteral Any result }
    {
        let literal = self.literal(cursor)?;
        Ok(Expression::Literal(literal))
    }

    #[cycle(expression)]
    fn block_expression(&self, cursor: &mut Cursor) -> Result<Expression, Stop>
        ensures read { IfOk result (λ found. Reads self.now cursor.old cursor.new (expression_leaves found)) }
        ensures is { IfOk result IsExpression }
        ensures level { IfOk result (λ found. level found ≡ 12) }
        ensures takes { Takes self.now cursor.old cursor.new OneBlock Any result }
    {
        let block = self.block(cursor)?;
        Ok(Expression::Block(block))
    }

    // Reads what begins with this keyword.
    #[cycle(expression)]
    fn keyword_primary(&self, cursor: &mut Cursor, keyword: Keyword) -> Result<Expression, Stop>
        requires { kind_at self.now cursor.old ≡ Some (kinds.Keyword keyword) }
        ensures read { IfOk result (λ found. Reads self.now cursor.old cursor.new (expression_leaves found)) }
        ensures is { IfOk result IsExpression }
        ensures level { IfOk result (λ found. level found ≡ 12) }
        ensures takes { Takes self.now cursor.old cursor.new (LevelWord 12) (Free 12) result }
    {
        match keyword {
            Keyword::Read0 => self.read(cursor, 0),
            Keyword::Read1 => self.read(cursor, 1),
            Keyword::Read2 => self.read(cursor, 2),
            Keyword::Read3 => self.read(cursor, 3),
            Keyword::Write0 => self.write(cursor, 0),
            Keyword::Write1 => self.write(cursor, 1),
            Keyword::Write2 => self.write(cursor, 2),
            Keyword::Write3 => self.write(cursor, 3),
            Keyword::Abort => self.abort(cursor),
            Keyword::Pack => self.pack(cursor),
            Keyword::Unpack => self.unpack(cursor),
            Keyword::Zext => self.extend(cursor, Extension::Zero),
            Keyword::Sext => self.extend(cursor, Extension::Sign),
            Keyword::Slt => self.compare(cursor, SignedComparison::Less),
            Keyword::Sle => self.compare(cursor, SignedComparison::LessOrEqual),
            Keyword::Sgt => self.compare(cursor, SignedComparison::Greater),
            Keyword::Sge => self.compare(cursor, SignedComparison::GreaterOrEqual),
            Keyword::Update => self.update(cursor),
            _ => Err(Failure::Why(Unread::Unexpected)),
        }
    }

    // Reads what begins with a name.
    #[cycle(expression)]
    fn named(&self, cursor: &mut Cursor) -> Result<Expression, Stop>
        ensures read { IfOk result (λ found. Reads self.now cursor.old cursor.new (expression_leaves found)) }
        ensures is { IfOk result IsExpression }
        ensures level { IfOk result (λ found. level found ≡ 12) }
        ensures takes { Takes self.now cursor.old cursor.new NamedWord (Free 12) result }
    {
        let name = self.name(cursor)?;
        if self.is_at_sign(cursor, Symbol::LeftParenthesis) {
            self.sign(cursor, Symbol::LeftParenthesis)?;
            let arguments = self.arguments(cursor)?;
            self.sign(cursor, Symbol::RightParenthesis)?;
            return Ok(Expression::Call {
                called: name,
                arguments,
            });
        }
        if self.is_at_sign(cursor, Symbol::ColonColon) {
            self.sign(cursor, Symbol::ColonColon)?;
            if self.is_at_name(cursor) {
                let member = self.name(cursor)?;
                return Ok(Expression::Member { of: name, member });
            }
            self.sign(cursor, Symbol::LeftBrace)?;
            let fields = self.field_values(cursor)?;
            let close = self.sign_at(cursor, Symbol::RightBrace)?;
            return Ok(Expression::Struct {
                of: name,
                fields,
                close,
            });
        }
        Ok(Expression::Name(name))
    }

    #[cycle(expression)]
    fn array(&self, cursor: &mut Cursor) -> Result<Expression, Stop>
        ensures read { IfOk result (λ found. Reads self.now cursor.old cursor.new (expression_leaves found)) }
        ensures is { IfOk result IsExpression }
        ensures level { IfOk result (λ found. level found ≡ 12) }
        ensures takes { Takes self.now cursor.old cursor.new ArrayWord Any result }
    {
        let place = self.sign_at(cursor, Symbol::LeftBracket)?;
        let elements = self.values(cursor)?;
        self.sign(cursor, Symbol::RightBracket)?;
        Ok(Expression::Array { place, elements })
    }

    #[cycle(expression)]
    fn parentheses(&self, cursor: &mut Cursor) -> Result<Expression, Stop>
        ensures read { IfOk result (λ found. Reads self.now cursor.old cursor.new (expression_leaves found)) }
        ensures is { IfOk result IsExpression }
        ensures level { IfOk result (λ found. level found ≡ 12) }
        ensures takes { Takes self.now cursor.old cursor.new ParenthesesWord Any result }
    {
        let place = self.sign_at(cursor, Symbol::LeftParenthesis)?;
        let inside = self.boxed(cursor)?;
        self.sign(cursor, Symbol::RightParenthesis)?;
        Ok(Expression::Parentheses { place, inside })
    }

    fn read(&self, cursor: &mut Cursor, port: u32) -> Result<Expression, Stop>
        requires { port < 4 }
        ensures read { IfOk result (λ found. Reads self.now cursor.old cursor.new (expression_leaves found)) }
        ensures is { IfOk result IsExpression }
        ensures level { IfOk result (λ found. level found ≡ 12) }
        ensures takes { Takes self.now cursor.old cursor.new (ReadWord port) Any result }
    {
        let place = self.word_at(cursor, read_word(port))?;
        self.sign(cursor, Symbol::LeftParenthesis)?;
        let register = self.name(cursor)?;
        self.sign(cursor, Symbol::RightParenthesis)?;
        Ok(Expression::Read {
            place,
            port,
            register,
        })
    }

    #[cycle(expression)]
    fn write(&self, cursor: &mut Cursor, port: u32) -> Result<Expression, Stop>
        requires { port < 4 }
        ensures read { IfOk result (λ found. Reads self.now cursor.old cursor.new (expression_leaves found)) }
        ensures is { IfOk result IsExpression }
        ensures level { IfOk result (λ found. level found ≡ 12) }
        ensures takes { Takes self.now cursor.old cursor.new (WriteWord port) Any result }
    {
        let place = self.word_at(cursor, write_word(port))?;
        self.sign(cursor, Symbol::LeftParenthesis)?;
        let register = self.name(cursor)?;
        self.sign(cursor, Symbol::Comma)?;
        let value = self.boxed(cursor)?;
        self.sign(cursor, Symbol::RightParenthesis)?;
        Ok(Expression::Write {
            place,
            port,
            register,
            value,
        })
    }

    fn abort(&self, cursor: &mut Cursor) -> Result<Expression, Stop>
        ensures read { IfOk result (λ found. Reads self.now cursor.old cursor.new (expression_leaves found)) }
        ensures is { IfOk result IsExpression }
        ensures level { IfOk result (λ found. level found ≡ 12) }
        ensures takes { Takes self.now cursor.old cursor.new (One (keyword keywords.Abort)) Any result }
    {
        let place = self.word_at(cursor, Keyword::Abort)?;
        Ok(Expression::Abort { place })
    }

    #[cycle(expression)]
    fn pack(&self, cursor: &mut Cursor) -> Result<Expression, Stop>
        ensures read { IfOk result (λ found. Reads self.now cursor.old cursor.new (expression_leaves found)) }
        ensures is { IfOk result IsExpression }
        ensures level { IfOk result (λ found. level found ≡ 12) }
        ensures takes { Takes self.now cursor.old cursor.new PackWord Any result }
    {
        let place = self.word_at(cursor, Keyword::Pack)?;
        self.sign(cursor, Symbol::LeftParenthesis)?;
        let value = self.boxed(cursor)?;
        self.sign(cursor, Symbol::RightParenthesis)?;
        Ok(Expression::Pack { place, value })
    }

    #[cycle(expression)]
    fn unpack(&self, cursor: &mut Cursor) -> Result<Expression, Stop>
        ensures read { IfOk result (λ found. Reads self.now cursor.old cursor.new (expression_leaves found)) }
        ensures is { IfOk result IsExpression }
        ensures level { IfOk result (λ found. level found ≡ 12) }
        ensures takes { Takes self.now cursor.old cursor.new UnpackWord Any result }
    {
        let place = self.word_at(cursor, Keyword::Unpack)?;
        self.sign(cursor, Symbol::LeftParenthesis)?;
        let to = self.type_expression(cursor)?;
        self.sign(cursor, Symbol::Comma)?;
        let value = self.boxed(cursor)?;
        self.sign(cursor, Symbol::RightParenthesis)?;
        Ok(Expression::Unpack { place, to, value })
    }

    #[cycle(expression)]
    fn extend(&self, cursor: &mut Cursor, extension: Extension) -> Result<Expression, Stop>
        ensures read { IfOk result (λ found. Reads self.now cursor.old cursor.new (expression_leaves found)) }
        ensures is { IfOk result IsExpression }
        ensures level { IfOk result (λ found. level found ≡ 12) }
        ensures takes { Takes self.now cursor.old cursor.new (ExtendWord extension) Any result }
    {
        let place = self.word_at(cursor, extension.word())?;
        self.sign(cursor, Symbol::LeftParenthesis)?;
        let value = self.boxed(cursor)?;
        self.sign(cursor, Symbol::Comma)?;
        let width = self.number(cursor)?;
        self.sign(cursor, Symbol::RightParenthesis)?;
        Ok(Expression::Extend {
            place,
            extension,
            value,
            width,
        })
    }

    #[cycle(expression)]
    fn compare(&self, cursor: &mut Cursor, comparison: SignedComparison) -> Result<Expression, Stop>
        ensures read { IfOk result (λ found. Reads self.now cursor.old cursor.new (expression_leaves found)) }
        ensures is { IfOk result IsExpression }
        ensures level { IfOk result (λ found. level found ≡ 12) }
        ensures takes { Takes self.now cursor.old cursor.new (CompareWord comparison) Any result }
    {
        let place = self.word_at(cursor, comparison.word())?;
        self.sign(cursor, Symbol::LeftParenthesis)?;
        let left = self.boxed(cursor)?;
        self.sign(cursor, Symbol::Comma)?;
        let right = self.boxed(cursor)?;
        self.sign(cursor, Symbol::RightParenthesis)?;
        Ok(Expression::Compare {
            place,
            comparison,
            left,
            right,
        })
    }

    #[cycle(expression)]
    fn update(&self, cursor: &mut Cursor) -> Result<Expression, Stop>
        ensures read { IfOk result (λ found. Reads self.now cursor.old cursor.new (expression_leaves found)) }
        ensures is { IfOk result IsExpression }
        ensures level { IfOk result (λ found. level found ≡ 12) }
        ensures takes { Takes self.now cursor.old cursor.new UpdateWord Any result }
    {
        let place = self.word_at(cursor, Keyword::Update)?;
        self.sign(cursor, Symbol::LeftParenthesis)?;
        let whole = self.boxed(cursor)?;
        self.sign(cursor, Symbol::Comma)?;
        let part = self.part(cursor)?;
        self.sign(cursor, Symbol::Comma)?;
        let value = self.boxed(cursor)?;
        self.sign(cursor, Symbol::RightParenthesis)?;
        Ok(Expression::Update {
            place,
            whole,
            part,
            value,
        })
    }

    #[cycle(expression)]
    fn arguments(&self, cursor: &mut Cursor) -> Result<Sequence<Expression>, Stop>
        ensures read { IfOk result (λ found. Reads self.now cursor.old cursor.new (commas (map expression_leaves found))) }
        ensures is { IfOk result (λ found. All IsExpression found) }
        ensures takes { Takes self.now cursor.old cursor.new ArgumentsWord parenthesis_follows result }
    {
        if self.is_at_sign(cursor, Symbol::RightParenthesis) {
            let none = Sequence::new(self.alloc);
            return Ok(none);
        }
        self.values(cursor)
    }

    // Reads expressions with commas between them.
    #[cycle(expression)]
    fn values(&self, cursor: &mut Cursor) -> Result<Sequence<Expression>, Stop>
        ensures read { IfOk result (λ found. Reads self.now cursor.old cursor.new (commas (map expression_leaves found))) }
        ensures is { IfOk result (λ found. All IsExpression found) }
        ensures some { IfOk result (λ found. IsNonempty found) }
        ensures takes { Takes self.now cursor.old cursor.new (Commas IsExpression expression_leaves) (NoComma (Free 0)) result }
    {
        let mut all = Sequence::new(self.alloc);
        let first = self.expression(cursor)?;
        all.push(first)?;
        'more: while self.is_at_sign(cursor, Symbol::Comma) {
            self.sign(cursor, Symbol::Comma)?;
            let next = self.expression(cursor)?;
            all.push(next)?;
        }
        Ok(all)
    }

    #[cycle(expression)]
    fn field_values(&self, cursor: &mut Cursor) -> Result<Sequence<FieldValue>, Stop>
        ensures read { IfOk result (λ found. Reads self.now cursor.old cursor.new (commas (map field_value_leaves found))) }
        ensures is { IfOk result (λ found. All IsFieldValue found) }
        ensures some { IfOk result (λ found. IsNonempty found) }
        ensures takes { Takes self.now cursor.old cursor.new (Commas IsFieldValue field_value_leaves) (NoComma (Free 0)) result }
    {
        let mut all = Sequence::new(self.alloc);
        let first = self.field_value(cursor)?;
        all.push(first)?;
        'more: while self.is_at_sign(cursor, Symbol::Comma) {
            self.sign(cursor, Symbol::Comma)?;
            let next = self.field_value(cursor)?;
            all.push(next)?;
        }
        Ok(all)
    }

    #[cycle(expression)]
    fn field_value(&self, cursor: &mut Cursor) -> Result<FieldValue, Stop>
        ensures read { IfOk result (λ found. Reads self.now cursor.old cursor.new (field_value_leaves found)) }
        ensures is { IfOk result IsFieldValue }
        ensures takes { Takes self.now cursor.old cursor.new OneFieldValue (Free 0) result }
    {
        let name = self.name(cursor)?;
        self.sign(cursor, Symbol::Colon)?;
        let value = self.expression(cursor)?;
        Ok(FieldValue { name, value })
    }

    // Reads the part that an update replaces.
    fn part(&self, cursor: &mut Cursor) -> Result<UpdatedPart, Stop>
        ensures read { IfOk result (λ found. Reads self.now cursor.old cursor.new (part_leaves found)) }
        ensures is { IfOk result IsPart }
        ensures takes { Takes self.now cursor.old cursor.new OnePart Any result }
    {
        if self.is_at_name(cursor) {
            Ok(UpdatedPart::Field(self.name(cursor)?))
        } else {
            Ok(UpdatedPart::Index(self.number(cursor)?))
        }
    }
}

// The operator in front of an operand that is written so.
fn prefix_of(found: Symbol) -> Option<UnaryOperator>
    ensures some { IfSome result (λ operator. found ≡ unary_symbol operator) }
    ensures none { IfNone result ((operator : UnaryOperator) → found ≢ unary_symbol operator) }
{
    match found {
        Symbol::Tilde => Some(UnaryOperator::Not),
        Symbol::Minus => Some(UnaryOperator::Negate),
        _ => None,
    }
}
