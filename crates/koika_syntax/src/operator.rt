//! Trees: the operators of expressions, with their symbols and levels.

ghost use Rattle.std.specs.Prelude.{◌≡◌};
ghost use Rattle.koika_syntax.specs.Grammar.{level_of};
ghost use Rattle.koika_syntax.specs.Tree.{binary_symbol, comparison_word, extension_word, unary_symbol};

use crate::{Keyword, Symbol};

/// An operator in front of its operand.
#[derive(Clone, Copy, Debug, PartialEq, Eq)]
pub enum UnaryOperator {
    Not,
    Negate,
}

impl UnaryOperator {
    /// How the operator is written.
    pub fn symbol(self) -> Symbol
        ensures { result ≡ unary_symbol self }
    {
        match self {
            UnaryOperator::Not => Symbol::Tilde,
            UnaryOperator::Negate => Symbol::Minus,
        }
    }
}

/// An operator between two operands.
#[derive(Clone, Copy, Debug, PartialEq, Eq)]
pub enum BinaryOperator {
    Or,
    Xor,
    And,
    Equal,
    NotEqual,
    Less,
    LessOrEqual,
    Greater,
    GreaterOrEqual,
    /// The left operand's bits are above the right one's.
    Concat,
    ShiftLeft,
    ShiftRight,
    /// A shift to the right that brings in the sign.
    ShiftRightSigned,
    Add,
    Subtract,
    Multiply,
}

impl BinaryOperator {
    /// How the operator is written.
    pub fn symbol(self) -> Symbol
        ensures { result ≡ binary_symbol self }
    {
        match self {
            BinaryOperator::Or => Symbol::Bar,
            BinaryOperator::Xor => Symbol::Caret,
            BinaryOperator::And => Symbol::Ampersand,
            BinaryOperator::Equal => Symbol::EqualsEquals,
            BinaryOperator::NotEqual => Symbol::NotEquals,
            BinaryOperator::Less => Symbol::Less,
            BinaryOperator::LessOrEqual => Symbol::LessEquals,
            BinaryOperator::Greater => Symbol::Greater,
            BinaryOperator::GreaterOrEqual => Symbol::GreaterEquals,
            BinaryOperator::Concat => Symbol::PlusPlus,
            BinaryOperator::ShiftLeft => Symbol::LessLess,
            BinaryOperator::ShiftRight => Symbol::GreaterGreater,
            BinaryOperator::ShiftRightSigned => Symbol::GreaterGreaterGreater,
            BinaryOperator::Add => Symbol::Plus,
            BinaryOperator::Subtract => Symbol::Minus,
            BinaryOperator::Multiply => Symbol::Star,
        }
    }

    /// The operator's level, from 1 for the loosest to 9 for the tightest.
    pub fn level(self) -> u32
        ensures { result ≡ level_of self }
    {
        match self {
            BinaryOperator::Or => 1,
            BinaryOperator::Xor => 2,
            BinaryOperator::And => 3,
            BinaryOperator::Equal | BinaryOperator::NotEqual => 4,
            BinaryOperator::Less
            | BinaryOperator::LessOrEqual
            | BinaryOperator::Greater
            | BinaryOperator::GreaterOrEqual => 5,
            BinaryOperator::Concat => 6,
            BinaryOperator::ShiftLeft
            | BinaryOperator::ShiftRight
            | BinaryOperator::ShiftRightSigned => 7,
            BinaryOperator::Add | BinaryOperator::Subtract => 8,
            BinaryOperator::Multiply => 9,
        }
    }
}

/// A comparison of signed numbers.
#[derive(Clone, Copy, Debug, PartialEq, Eq)]
pub enum SignedComparison {
    Less,
    LessOrEqual,
    Greater,
    GreaterOrEqual,
}

impl SignedComparison {
    /// How the comparison is written.
    pub fn word(self) -> Keyword
        ensures { result ≡ comparison_word self }
    {
        match self {
            SignedComparison::Less => Keyword::Slt,
            SignedComparison::LessOrEqual => Keyword::Sle,
            SignedComparison::Greater => Keyword::Sgt,
            SignedComparison::GreaterOrEqual => Keyword::Sge,
        }
    }
}

/// What a longer vector has above the bits of a shorter one.
#[derive(Clone, Copy, Debug, PartialEq, Eq)]
pub enum Extension {
    Zero,
    Sign,
}

impl Extension {
    /// How the extension is written.
    pub fn word(self) -> Keyword
        ensures { result ≡ extension_word self }
    {
        match self {
            Extension::Zero => Keyword::Zext,
            Extension::Sign => Keyword::Sext,
        }
    }
}
