//! The tokens of a design's text, and its tree.
//!
//! Contracts cite the lexemes and the rule of the longest one in `specs/Lexemes.antt`, what the tokens of
//! a text are in `specs/Tokens.antt`, and which fault comes first in `specs/TokenFaults.antt`. What tokens a
//! tree stands for and which trees are the grammar's is in `specs/Grammar.antt`. The parser reads what
//! `lex` returns and gives a `Tree`, from which the printer and the checker go on.
#![tactic(auto)]

mod front;
mod keyword;
mod laws;
mod lexeme;
mod lexer;
mod literal;
mod operator;
mod symbol;
mod token;
mod tree;
mod word;

pub use keyword::{Keyword, read_word, write_word};
pub use laws::tokens_or_fault;
pub use lexer::lex;
pub use operator::{BinaryOperator, Extension, SignedComparison, UnaryOperator};
pub use symbol::Symbol;
pub use token::{Token, TokenKind};
pub use tree::{
    Arm, Block, Choice, Constant, ConstantField, Declaration, EnumMember, Expression, Field,
    FieldValue, Literal, Name, Number, Operand, Prefix, Scheduler, Statement, Suffix, Tree,
    TypeExpression, UpdatedPart, Width,
};
