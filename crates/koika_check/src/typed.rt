//! Checker: parts of the typed tree.

use koika_syntax::{BinaryOperator, Extension, SignedComparison, UnaryOperator};
use koika_types::Value;
use kw_bits::Sequence;

/// What a type's innermost items are.
#[derive(Clone, Copy, Debug, PartialEq, Eq)]
pub enum BaseType {
    /// Bit vectors of this width.
    Bits(u32),
    /// The enum of this number.
    Enum(u32),
    /// The struct of this number.
    Struct(u32),
}

/// A type: a base, and the lengths of the arrays round it, the outermost first.
#[derive(Debug, PartialEq, Eq, Drop)]
pub struct ValueType {
    pub base: BaseType,
    pub lengths: Sequence<u32>,
}

/// A part of a value, with where it stands among the value's bits.
#[derive(Clone, Copy, Debug, PartialEq, Eq)]
pub enum Selection {
    /// The field of this number of a struct: its lowest bit and its width.
    Field {
        number: u32,
        lowest: u32,
        width: u32,
    },
    /// The item of this index of an array of items of this width.
    Item {
        index: u32,
        width: u32,
    },
    /// The bits from the upper bound down to the lower, both included.
    Bits {
        high: u32,
        low: u32,
    },
}

/// What is done with the values of operands.
#[derive(Debug, PartialEq, Eq, Drop)]
pub enum Operation {
    /// Prefix operators on one operand, the outermost first.
    Unary(Sequence<UnaryOperator>),
    /// Operators between operands, one fewer than those, grouped to the left. The first operand has this width.
    Chain {
        operators: Sequence<BinaryOperator>,
        width: u32,
    },
    /// A part of one operand, a part of that, and so on.
    Select(Sequence<Selection>),
    /// One operand with a part replaced by another.
    Update(Selection),
    /// The struct of this number with its fields, in declared order.
    Struct(u32),
    /// An array of its items.
    Array,
    /// The bits of a value.
    Pack,
    /// The value of this type that has these bits.
    Unpack(ValueType),
    /// More bits above, up to this width.
    Extend {
        extension: Extension,
        width: u32,
    },
    /// A comparison of two signed numbers.
    Compare(SignedComparison),
    /// The table of this number, asked at one operand.
    Table(u32),
    /// The host function of this number, asked at its arguments.
    Host(u32),
    /// The function of this number, called with its arguments.
    Call(u32),
    /// A read at a port of the register of this number, of no operand.
    Read {
        port: u32,
        register: u32,
    },
    /// A write of one operand at a port of the register of this number.
    Write {
        port: u32,
        register: u32,
    },
    /// The end of the rule without effect, of no operand.
    Abort,
}

/// An expression whose names are resolved. Operands are evaluated from left to right.
#[derive(Debug, PartialEq, Eq, Drop)]
#[cycle(typed)]
pub enum Typed {
    /// A literal or a member of an enum.
    Constant(Value),
    /// The name that was bound this many names further out, 0 for the innermost. The last parameter of a function is the
    /// innermost of its parameters.
    Local(u32),
    /// The input of this number.
    Input(u32),
    Apply(Operation, Sequence<Typed>),
    /// Conditions with a body each, and, where there is one body more, that of `else`.
    If {
        conditions: Sequence<Typed>,
        bodies: Sequence<Typed>,
    },
    /// Steps in order.
    Block(Sequence<BlockStep>),
}

/// A step of a block.
#[derive(Debug, PartialEq, Eq, Drop)]
#[cycle(typed)]
pub enum BlockStep {
    /// Binds the value in all later steps of its block.
    Let(Typed),
    /// Evaluates an expression for its effect.
    Do(Typed),
    /// Gives the block's value. It is the block's last step.
    Give(Typed),
}
