//! Trees: the reader of expressions and blocks.

ghost use Rattle.std.specs.Prelude.{◌+◌, ◌≡◌, ◌≢◌, ◌<◌, ◌≤◌, ◌↔◌, ◌++◌, All, IfNone, IfOk, IsTrue, OnOk, IfSome, Some, map};
ghost use Rattle.koika_syntax.specs.Grammar.{IsBlock, IsNonempty, block_leaves, last_leaves, level, level_of};
ghost use Rattle.koika_syntax.specs.inner.Grammar.{IsExpression, arm_leaves, expression_leaves, operand_leaves, statement_leaves};
ghost use Rattle.koika_syntax.specs.Tree.{all_of, binary_symbol, sign, symbol};
ghost use Rattle.koika_syntax.specs.declared.operator.BinaryOperator.{BinaryOperator};
ghost use Rattle.koika_parse.specs.inner.Expected.{Any, Part, Takes};
ghost use Rattle.koika_parse.specs.inner.ExpressionWords.{ConditionalWord, Free, InsideWord, IsAtOperator, LetWord, LevelWord, OperatorWord, SomeOperandsWord, brace_follows};
ghost use Rattle.koika_parse.specs.inner.Reading.{Reads, next, tokens_left};
ghost use Rattle.koika_parse.specs.inner.Parts.{IsArm, IsOperandIn, IsStatement};

use crate::cursor::Cursor;
use crate::source::Source;
use crate::stop::{Stop, Unread};
use koika_syntax::{Arm, BinaryOperator, Block, Expression, Keyword, Operand, Statement, Symbol};
use kw_bits::{Boxed, Failure, Sequence};

// The statements of a block, and its last expression.
#[derive(Drop)]
struct Inside {
    statements: Sequence<Statement>,
    value: Option<Boxed<Expression>>,
}

/// The tightest level of operators.
const TIGHTEST: u32 = 9;

impl<'a> Source<'a> {
    /// Reads an expression.
    #[cycle(expression)]
    pub(crate) fn expression(&self, cursor: &mut Cursor) -> Result<Expression, Stop>
        ensures read { IfOk result (λ found. Reads self.now cursor.old cursor.new (expression_leaves found)) }
        ensures is { IfOk result IsExpression }
        ensures takes { Takes self.now cursor.old cursor.new (Part IsExpression expression_leaves) (Free 0) result }
    {
        if self.is_at_word(cursor, Keyword::If) {
            self.conditional(cursor)
        } else {
            self.chain(cursor, 1)
        }
    }

    /// Reads an expression.
    #[cycle(expression)]
    pub(crate) fn boxed(&self, cursor: &mut Cursor) -> Result<Boxed<Expression>, Stop>
        ensures read { IfOk result (λ found. Reads self.now cursor.old cursor.new (expression_leaves found)) }
        ensures is { IfOk result IsExpression }
        ensures takes { Takes self.now cursor.old cursor.new (Part IsExpression expression_leaves) (Free 0) result }
    {
        let inside = self.expression(cursor)?;
        let boxed = Boxed::new(self.alloc, inside)?;
        Ok(boxed)
    }

    // Reads `if c { .. }`, and what hangs on it by `else`.
    #[cycle(expression)]
    fn conditional(&self, cursor: &mut Cursor) -> Result<Expression, Stop>
        ensures read { IfOk result (λ found. Reads self.now cursor.old cursor.new (expression_leaves found)) }
        ensures is { IfOk result IsExpression }
        ensures takes { Takes self.now cursor.old cursor.new ConditionalWord (Free 0) result }
    {
        let mut arms = Sequence::new(self.alloc);
        let first = self.arm(cursor)?;
        arms.push(first)?;
        'more: while self.is_at_word(cursor, Keyword::Else) {
            self.word(cursor, Keyword::Else)?;
            if !self.is_at_word(cursor, Keyword::If) {
                let last = self.block(cursor)?;
                return Ok(Expression::If {
                    arms,
                    otherwise: Some(last),
                });
            }
            let next = self.arm(cursor)?;
            arms.push(next)?;
        }
        Ok(Expression::If {
            arms,
            otherwise: None,
        })
    }

    #[cycle(expression)]
    fn arm(&self, cursor: &mut Cursor) -> Result<Arm, Stop>
        ensures read { IfOk result (λ found. Reads self.now cursor.old cursor.new (arm_leaves found)) }
        ensures is { IfOk result IsArm }
        ensures takes { Takes self.now cursor.old cursor.new (Part IsArm arm_leaves) Any result }
    {
        let place = self.word_at(cursor, Keyword::If)?;
        let condition = self.chain(cursor, 1)?;
        let body = self.block(cursor)?;
        Ok(Arm {
            place,
            condition,
            body,
        })
    }

    /// Reads statements and a last expression in their brackets.
    #[cycle(expression)]
    pub(crate) fn block(&self, cursor: &mut Cursor) -> Result<Block, Stop>
        ensures read { IfOk result (λ found. Reads self.now cursor.old cursor.new (block_leaves found)) }
        ensures is { IfOk result IsBlock }
        ensures takes { Takes self.now cursor.old cursor.new (Part IsBlock block_leaves) Any result }
    {
        let place = self.sign_at(cursor, Symbol::LeftBrace)?;
        let inside = self.inside(cursor)?;
        self.sign(cursor, Symbol::RightBrace)?;
        Ok(Block {
            place,
            statements: inside.statements,
            value: inside.value,
        })
    }

    // Reads what is between the brackets of a block.
    #[cycle(expression)]
    fn inside(&self, cursor: &mut Cursor) -> Result<Inside, Stop>
        ensures read { IfOk result (λ found. Reads self.now cursor.old cursor.new
            (all_of (map statement_leaves found.statements) ++ last_leaves found.value expression_leaves)) }
        ensures statements { IfOk result (λ found. All IsStatement found.statements) }
        ensures value { IfOk result (λ found. IfSome found.value IsExpression) }
        ensures takes { Takes self.now cursor.old cursor.new InsideWord brace_follows result }
    {
        let mut statements = Sequence::new(self.alloc);
        'more: while !self.is_at_sign(cursor, Symbol::RightBrace) {
            if self.is_at_word(cursor, Keyword::Let) {
                let next = self.binding(cursor)?;
                statements.push(next)?;
                continue;
            }
            let found = self.expression(cursor)?;
            if !self.is_at_sign(cursor, Symbol::Semicolon) {
                let last = Boxed::new(self.alloc, found)?;
                return Ok(Inside {
                    statements,
                    value: Some(last),
                });
            }
            self.sign(cursor, Symbol::Semicolon)?;
            statements.push(Statement::Do(found))?;
        }
        Ok(Inside {
            statements,
            value: None,
        })
    }

    // Reads `let NAME = e ;`.
    #[cycle(expression)]
    fn binding(&self, cursor: &mut Cursor) -> Result<Statement, Stop>
        ensures read { IfOk result (λ found. Reads self.now cursor.old cursor.new (statement_leaves found)) }
        ensures is { IfOk result IsStatement }
        ensures some { OnOk result (tokens_left self.now cursor.new < tokens_left self.now cursor.old) }
        ensures takes { Takes self.now cursor.old cursor.new LetWord Any result }
    {
        self.word(cursor, Keyword::Let)?;
        let name = self.name(cursor)?;
        self.sign(cursor, Symbol::Equals)?;
        let value = self.expression(cursor)?;
        self.sign(cursor, Symbol::Semicolon)?;
        Ok(Statement::Let { name, value })
    }

    // Reads operands that are joined by operators of this level, or one operand.
    #[cycle(expression)]
    fn chain(&self, cursor: &mut Cursor, loosest: u32) -> Result<Expression, Stop>
        requires low { 0 < loosest }
        requires high { loosest ≤ 10 }
        ensures read { IfOk result (λ found. Reads self.now cursor.old cursor.new (expression_leaves found)) }
        ensures is { IfOk result IsExpression }
        ensures level { IfOk result (λ found. loosest ≤ level found) }
        ensures takes { Takes self.now cursor.old cursor.new (LevelWord loosest) (Free loosest) result }
    {
        if loosest > TIGHTEST {
            return self.unary(cursor);
        }
        let inside = self.chain(cursor, loosest + 1)?;
        if !self.is_at_operator(cursor, loosest) {
            return Ok(inside);
        }
        let first = Boxed::new(self.alloc, inside)?;
        let rest = self.operands(cursor, loosest)?;
        Ok(Expression::Chain { first, rest })
    }

    // Reads operators of a level, each with the operand after it, at least one.
    #[cycle(expression)]
    fn operands(&self, cursor: &mut Cursor, wanted: u32) -> Result<Sequence<Operand>, Stop>
        requires low { 0 < wanted }
        requires high { wanted ≤ 9 }
        ensures read { IfOk result (λ found. Reads self.now cursor.old cursor.new (all_of (map operand_leaves found))) }
        ensures is { IfOk result (λ found. All (IsOperandIn wanted) found) }
        ensures some { IfOk result (λ found. IsNonempty found) }
        ensures takes { Takes self.now cursor.old cursor.new (SomeOperandsWord wanted) (Free wanted) result }
    {
        let mut all = Sequence::new(self.alloc);
        let first = self.operand(cursor, wanted)?;
        all.push(first)?;
        'more: while self.is_at_operator(cursor, wanted) {
            let next = self.operand(cursor, wanted)?;
            all.push(next)?;
        }
        Ok(all)
    }

    #[cycle(expression)]
    fn operand(&self, cursor: &mut Cursor, wanted: u32) -> Result<Operand, Stop>
        requires low { 0 < wanted }
        requires high { wanted ≤ 9 }
        ensures read { IfOk result (λ found. Reads self.now cursor.old cursor.new (operand_leaves found)) }
        ensures is { IfOk result (IsOperandIn wanted) }
        ensures some { OnOk result (tokens_left self.now cursor.new < tokens_left self.now cursor.old) }
        ensures takes { Takes self.now cursor.old cursor.new (Part (IsOperandIn wanted) operand_leaves) (Free (wanted + 1)) result }
    {
        let operator = self.operator(cursor, wanted)?;
        let operand = self.chain(cursor, wanted + 1)?;
        Ok(Operand { operator, operand })
    }

    // Reads an operator of this level.
    fn operator(&self, cursor: &mut Cursor, wanted: u32) -> Result<BinaryOperator, Stop>
        requires low { 0 < wanted }
        requires high { wanted ≤ 9 }
        ensures read { IfOk result (λ found. Reads self.now cursor.old cursor.new (sign (binary_symbol found))) }
        ensures level { IfOk result (λ found. level_of found ≡ wanted) }
        ensures takes { Takes self.now cursor.old cursor.new (OperatorWord wanted) Any result }
    {
        match self.operator_at(cursor, wanted) {
            None => Err(Failure::Why(Unread::Unexpected)),
            Some(operator) => {
                self.sign(cursor, operator.symbol())?;
                Ok(operator)
            }
        }
    }

    // Whether the next token is an operator of this level.
    fn is_at_operator(&self, cursor: &Cursor, wanted: u32) -> bool
        ensures { IsTrue result ↔ IsAtOperator self.now cursor.now wanted }
    {
        self.operator_at(cursor, wanted).is_some()
    }

    // The next token, if it is an operator of this level.
    fn operator_at(&self, cursor: &Cursor, wanted: u32) -> Option<BinaryOperator>
        ensures level { IfSome result (λ operator. level_of operator ≡ wanted) }
        ensures at { IfSome result (λ operator. next self.now cursor.now ≡ Some (symbol (binary_symbol operator))) }
        ensures none { IfNone result (IsAtOperator self.now cursor.now wanted → ⊥) }
    {
        of_level(operator_of(self.symbol_at(cursor)?)?, wanted)
    }
}

// The operator, if it is of this level.
fn of_level(operator: BinaryOperator, wanted: u32) -> Option<BinaryOperator>
    ensures level { IfSome result (λ found. level_of found ≡ wanted) }
    ensures same { IfSome result (λ found. found ≡ operator) }
    ensures none { IfNone result (level_of operator ≢ wanted) }
{
    if operator.level() == wanted {
        Some(operator)
    } else {
        None
    }
}

// The operator between two operands that is written so.
fn operator_of(found: Symbol) -> Option<BinaryOperator>
    ensures some { IfSome result (λ operator. found ≡ binary_symbol operator) }
    ensures none { IfNone result ((operator : BinaryOperator) → found ≢ binary_symbol operator) }
{
    match found {
        Symbol::Bar => Some(BinaryOperator::Or),
        Symbol::Caret => Some(BinaryOperator::Xor),
        Symbol::Ampersand => Some(BinaryOperator::And),
        Symbol::EqualsEquals => Some(BinaryOperator::Equal),
        Symbol::NotEquals => Some(BinaryOperator::NotEqual),
        Symbol::Less => Some(BinaryOperator::Less),
        Symbol::LessEquals => Some(BinaryOperator::LessOrEqual),
        Symbol::Greater => Some(BinaryOperator::Greater),
        Symbol::GreaterEquals => Some(BinaryOperator::GreaterOrEqual),
        Symbol::PlusPlus => Some(BinaryOperator::Concat),
        Symbol::LessLess => Some(BinaryOperator::ShiftLeft),
        Symbol::GreaterGreater => Some(BinaryOperator::ShiftRight),
        Symbol::GreaterGreaterGreater => Some(BinaryOperator::ShiftRightSigned),
        Symbol::Plus => Some(BinaryOperator::Add),
        Symbol::Minus => Some(BinaryOperator::Subtract),
        Symbol::Star => Some(BinaryOperator::Multiply),
        _ => None,
    }
}
