//! Core: actions, the bodies of rules.

ghost use Rattle.std.specs.Prelude.{◌≡◌};
ghost use Rattle.typed_core.specs.Evaluation.{apply_one, apply_two};
ghost use Rattle.typed_core.specs.Valid.{TakesTwo};

use kw_bits::Bits;

/// An operator with one operand.
#[derive(Clone, Copy, Debug, PartialEq, Eq)]
pub enum OneOp {
    Not,
    Neg,
    RedAnd,
    RedOr,
    RedXor,
}

impl OneOp {
    /// The operator's value on an operand.
    pub fn apply(self, x: Bits) -> Bits
        ensures { result ≡ apply_one self x }
    {
        match self {
            OneOp::Not => x.not(),
            OneOp::Neg => x.neg(),
            OneOp::RedAnd => x.redand(),
            OneOp::RedOr => x.redor(),
            OneOp::RedXor => x.redxor(),
        }
    }
}

/// An operator with two operands.
#[derive(Clone, Copy, Debug, PartialEq, Eq)]
pub enum TwoOp {
    And,
    Or,
    Xor,
    Add,
    Sub,
    Mul,
    Sll,
    Srl,
    Sra,
    EqBits,
    Ult,
    Ulte,
    Slt,
    Slte,
    /// The left operand's bits are above the right one's.
    Concat,
}

impl TwoOp {
    /// The operator's value on two operands of one width, or for `Concat` on two of at most 128 bits together.
    pub fn apply(self, x: &Bits, y: &Bits) -> Bits
        requires { TakesTwo self x.now y.now }
        ensures { result ≡ apply_two self x.now y.now }
    {
        match self {
            TwoOp::And => x.and(*y),
            TwoOp::Or => x.or(*y),
            TwoOp::Xor => x.xor(*y),
            TwoOp::Add => x.add(*y),
            TwoOp::Sub => x.sub(*y),
            TwoOp::Mul => x.mul(*y),
            TwoOp::Sll => x.sll(*y),
            TwoOp::Srl => x.srl(*y),
            TwoOp::Sra => x.sra(*y),
            TwoOp::EqBits => x.eq_bits(*y),
            TwoOp::Ult => x.ult(*y),
            TwoOp::Ulte => x.ulte(*y),
            TwoOp::Slt => x.slt(*y),
            TwoOp::Slte => x.slte(*y),
            TwoOp::Concat => x.concat(*y),
        }
    }
}

/// What a rule does: an expression over bit vectors that may read and write registers.
///
/// Parts are evaluated from left to right, a write's value before the write.
#[derive(Debug, PartialEq, Eq, Drop)]
pub enum Action {
    /// No value.
    Unit,
    Const(Bits),
    /// The value of the `Let` this many bodies further out, 0 for the innermost.
    Local(u32),
    /// The input of this number.
    Input(u32),
    One(OneOp, Box<Action>),
    Two(TwoOp, Box<Action>, Box<Action>),
    /// The bits from the upper bound, which comes first, down to the lower, both included.
    Slice(Box<Action>, u32, u32),
    /// Zeros above, up to this width.
    Zext(Box<Action>, u32),
    /// The highest bit above, up to this width.
    Sext(Box<Action>, u32),
    /// The entry of the table of this number.
    Table(u32, Box<Action>),
    /// The answer of the host function of this number.
    Host(u32, Box<Action>),
    /// A value, and a body in which it is `Local(0)`.
    Let(Box<Action>, Box<Action>),
    /// A condition of one bit, the action where it is 1 and the action where it is 0.
    If(Box<Action>, Box<Action>, Box<Action>),
    /// One action after another; the value is the second's.
    Seq(Box<Action>, Box<Action>),
    /// A port and a register.
    Read(u32, u32),
    /// A port, a register and the value.
    Write(u32, u32, Box<Action>),
    /// Ends the rule without effect.
    Abort,
}
