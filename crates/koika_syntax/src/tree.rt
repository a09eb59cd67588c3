//! Trees: the tree of a design, part by part as the grammar has them.

use crate::operator::{BinaryOperator, Extension, SignedComparison, UnaryOperator};
use kw_bits::{Bits, Boxed, Sequence, Text};

/// A name, and the offset of its first byte. Every place in a tree is the offset of a token's first byte.
#[derive(Drop)]
pub struct Name {
    pub text: Text,
    pub place: u32,
}

/// A number and its place.
#[derive(Clone, Copy, Drop)]
pub struct Number {
    pub value: u32,
    pub place: u32,
}

/// A literal and its place.
#[derive(Clone, Copy, Drop)]
pub struct Literal {
    pub bits: Bits,
    pub place: u32,
}

/// `bits N`, with the place of the word.
#[derive(Clone, Copy, Drop)]
pub struct Width {
    pub place: u32,
    pub number: Number,
}

/// A type.
#[derive(Drop)]
#[cycle(type_expression)]
pub enum TypeExpression {
    Bits(Width),
    Named(Name),
    /// `[T; N]`, with the place of its bracket.
    Array {
        place: u32,
        element: Boxed<TypeExpression>,
        length: Number,
    },
}

/// A constant.
#[derive(Drop)]
#[cycle(constant)]
pub enum Constant {
    Literal(Literal),
    /// `E::M`.
    Member {
        of: Name,
        member: Name,
    },
    /// `S::{f: c, ..}`, with the place of its closing bracket.
    Struct {
        of: Name,
        fields: Sequence<ConstantField>,
        close: u32,
    },
    /// `[c, ..]`, with the place of its opening bracket.
    Array {
        place: u32,
        elements: Sequence<Constant>,
    },
}

/// A field of a constant and its value.
#[derive(Drop)]
#[cycle(constant)]
pub struct ConstantField {
    pub name: Name,
    pub value: Constant,
}

/// An operator in front of its operand, and its place.
#[derive(Clone, Copy, Drop)]
pub struct Prefix {
    pub operator: UnaryOperator,
    pub place: u32,
}

/// What comes after a value and takes a part of it.
#[derive(Drop)]
pub enum Suffix {
    /// `.f`.
    Field(Name),
    /// `[i]`.
    Index(Number),
    /// `[h:l]`.
    Slice { high: Number, low: Number },
}

/// The part that an update replaces.
#[derive(Drop)]
pub enum UpdatedPart {
    Field(Name),
    Index(Number),
}

/// An expression.
#[derive(Drop)]
#[cycle(expression)]
pub enum Expression {
    /// Conditions with their blocks, and the block after the last `else`.
    If {
        arms: Sequence<Arm>,
        otherwise: Option<Block>,
    },
    /// Operands that are joined by operators of one level.
    Chain {
        first: Boxed<Expression>,
        rest: Sequence<Operand>,
    },
    Unary {
        prefixes: Sequence<Prefix>,
        operand: Boxed<Expression>,
    },
    Postfix {
        primary: Boxed<Expression>,
        suffixes: Sequence<Suffix>,
    },
    Literal(Literal),
    Name(Name),
    Call {
        called: Name,
        arguments: Sequence<Expression>,
    },
    /// `E::M`.
    Member {
        of: Name,
        member: Name,
    },
    /// `S::{f: e, ..}`, with the place of its closing bracket.
    Struct {
        of: Name,
        fields: Sequence<FieldValue>,
        close: u32,
    },
    /// `[e, ..]`, with the place of its opening bracket.
    Array {
        place: u32,
        elements: Sequence<Expression>,
    },
    /// `(e)`, with the place of its opening bracket.
    Parentheses {
        place: u32,
        inside: Boxed<Expression>,
    },
    Block(Block),
    /// A read at a port from 0 to 3.
    Read {
        place: u32,
        port: u32,
        register: Name,
    },
    /// A write at a port from 0 to 3.
    Write {
        place: u32,
        port: u32,
        register: Name,
        value: Boxed<Expression>,
    },
    Abort {
        place: u32,
    },
    Pack {
        place: u32,
        value: Boxed<Expression>,
    },
    Unpack {
        place: u32,
        to: TypeExpression,
        value: Boxed<Expression>,
    },
    Extend {
        place: u32,
        extension: Extension,
        value: Boxed<Expression>,
        width: Number,
    },
    Compare {
        place: u32,
        comparison: SignedComparison,
        left: Boxed<Expression>,
        right: Boxed<Expression>,
    },
    Update {
        place: u32,
        whole: Boxed<Expression>,
        part: UpdatedPart,
        value: Boxed<Expression>,
    },
}

/// An operator and the operand after it.
#[derive(Drop)]
#[cycle(expression)]
pub struct Operand {
    pub operator: BinaryOperator,
    pub operand: Expression,
}

/// A field of a struct and its value.
#[derive(Drop)]
#[cycle(expression)]
pub struct FieldValue {
    pub name: Name,
    pub value: Expression,
}

/// A condition and the block after it, with the place of its `if`.
#[derive(Drop)]
#[cycle(expression)]
pub struct Arm {
    pub place: u32,
    pub condition: Expression,
    pub body: Block,
}

/// Statements and a last expression, with the place of the opening bracket.
#[derive(Drop)]
#[cycle(expression)]
pub struct Block {
    pub place: u32,
    pub statements: Sequence<Statement>,
    pub value: Option<Boxed<Expression>>,
}

/// A statement.
#[derive(Drop)]
#[cycle(expression)]
pub enum Statement {
    Let { name: Name, value: Expression },
    Do(Expression),
}

/// A member of an enum and its number.
#[derive(Drop)]
pub struct EnumMember {
    pub name: Name,
    pub value: Literal,
}

/// A field of a struct, or a parameter of a function, and its type.
#[derive(Drop)]
pub struct Field {
    pub name: Name,
    pub of: TypeExpression,
}

/// A declaration.
#[derive(Drop)]
pub enum Declaration {
    Enum {
        name: Name,
        width: Width,
        members: Sequence<EnumMember>,
    },
    Struct {
        name: Name,
        fields: Sequence<Field>,
    },
    Register {
        name: Name,
        of: TypeExpression,
        first: Constant,
    },
    Input {
        name: Name,
        of: TypeExpression,
    },
    Table {
        name: Name,
        input: Width,
        output: Width,
        entries: Sequence<Literal>,
    },
    Host {
        name: Name,
        input: Width,
        output: Width,
    },
    /// A function, which gives no value where it has no result.
    Function {
        name: Name,
        parameters: Sequence<Field>,
        result: Option<TypeExpression>,
        body: Block,
    },
    Rule {
        name: Name,
        body: Block,
    },
    /// A rule that must not fire.
    Assert(Name),
}

/// Rules one after another, and what comes at their end.
#[derive(Drop)]
#[cycle(scheduler)]
pub struct Scheduler {
    pub rules: Sequence<Name>,
    pub last: Option<Boxed<Choice>>,
}

/// A rule, and the schedulers where it fires and where it doesn't.
#[derive(Drop)]
#[cycle(scheduler)]
pub struct Choice {
    pub rule: Name,
    pub then: Scheduler,
    pub otherwise: Scheduler,
}

/// A design as it is written, with the place of the word `schedule`.
#[derive(Drop)]
pub struct Tree {
    pub declarations: Sequence<Declaration>,
    pub schedule: u32,
    pub scheduler: Scheduler,
}
