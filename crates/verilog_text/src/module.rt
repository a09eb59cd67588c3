//! Verilog: modules, as far as circuits need them.

use kw_bits::{Bits, Sequence, Text};

/// What stands in an expression: a constant, or an input, a register or a wire by its number.
#[derive(Clone, Copy)]
pub enum Operand {
    Constant(Bits),
    Input(u32),
    Register(u32),
    Wire(u64),
}

/// The operators on one operand.
#[derive(Clone, Copy)]
pub enum Prefix {
    Not,
    Neg,
    RedAnd,
    RedOr,
    RedXor,
}

/// The expressions over two operands, those that bind tighter in Verilog first.
#[derive(Clone, Copy)]
pub enum Infix {
    Mul,
    Add,
    Sub,
    ShiftLeft,
    ShiftRight,
    ShiftSigned,
    Below,
    AtMost,
    SignedBelow,
    SignedAtMost,
    Equal,
    Unequal,
    And,
    Nand,
    Xor,
    Xnor,
    Or,
    Nor,
    Join,
}

/// The expression of a wire.
#[derive(Clone, Copy)]
pub enum Form {
    /// An operator on one operand.
    One(Prefix, Operand),
    /// An expression over two operands.
    Two(Infix, Operand, Operand),
    /// The second operand where the first isn't 0, else the third.
    Choice(Operand, Operand, Operand),
    /// The bits of a signal from the lower bound to the upper, which comes first. Both are included.
    Slice(Operand, u32, u32),
    /// A signal with its highest bit, which has this index, repeated above it this many times.
    Extension(Operand, u32, u32),
}

/// A wire: its width and its expression. Its number is how many wires are before it.
#[derive(Clone, Copy)]
pub struct Wire {
    pub width: u32,
    pub form: Form,
}

/// An input: its name and its width.
#[derive(Drop)]
pub struct Port {
    pub name: Text,
    pub width: u32,
}

/// An output of one bit: its name and its value.
#[derive(Drop)]
pub struct Output {
    pub name: Text,
    pub value: Operand,
}

/// A register: its name, whether it is an output too, its first value and the value that it takes at a rising edge of
/// the clock.
#[derive(Drop)]
pub struct Register {
    pub name: Text,
    pub is_port: bool,
    pub first: Bits,
    pub next: Operand,
}

/// A module. Names are as they are written.
#[derive(Drop)]
pub struct Module {
    pub name: Text,
    pub clock: Text,
    /// The input that gives registers their first values, if there is one.
    pub reset: Option<Text>,
    pub inputs: Sequence<Port>,
    pub outputs: Sequence<Output>,
    pub registers: Sequence<Register>,
    pub wires: Sequence<Wire>,
}
