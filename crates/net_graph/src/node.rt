//! Circuits: the operators of nodes.

use kw_bits::{Bits, Same};

/// A node's number: how many nodes come before it.
pub type NetId = u64;

/// An operator on one node.
#[derive(Clone, Copy, Debug, PartialEq, Eq, Hash)]
pub enum NetOne {
    Not,
    Neg,
    Inc,
    Dec,
    RedAnd,
    RedOr,
    RedXor,
}

/// An operator on two nodes.
#[derive(Clone, Copy, Debug, PartialEq, Eq, Hash)]
pub enum NetTwo {
    And,
    Or,
    Xor,
    Nand,
    Nor,
    Xnor,
    Add,
    Sub,
    Mul,
    Sll,
    Srl,
    Sra,
    EqBits,
    Neq,
    Ult,
    Ulte,
    Ugt,
    Ugte,
    Slt,
    Slte,
    Sgt,
    Sgte,
    Iff,
    Implies,
    Concat,
}

/// What a node is: a constant, something read from outside, or an operator on earlier nodes.
#[derive(Clone, Copy, Debug, PartialEq, Eq, Hash)]
pub enum NetOp {
    /// A constant.
    Const(Bits),
    /// The input of this number, of this width.
    Input(u32, u32),
    /// The state of this number, of this width.
    State(u32, u32),
    /// An operator on one node.
    One(NetOne, NetId),
    /// An operator on two nodes.
    Two(NetTwo, NetId, NetId),
    /// The bits of a node from the lower bound to the upper, which comes first. Both are included.
    Slice(NetId, u32, u32),
    /// A node with this many zeros above.
    Uext(NetId, u32),
    /// A node with its highest bit repeated this many times above.
    Sext(NetId, u32),
    /// The second node where the first is 1, else the third.
    Ite(NetId, NetId, NetId),
}

impl Same for NetOp {
    ghost use Rattle.std.proofs.Common.{rules};

    ghost same = { λ x y. Prim.search rules };
}
