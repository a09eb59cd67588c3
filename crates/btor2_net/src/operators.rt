//! Circuits: the operators that keywords name.

// The operators on nodes that keywords name.
ghost use Rattle.std.specs.Prelude.{◌≡◌};
ghost use Rattle.btor2_net.specs.inner.Nodes as nodes;

use btor2_text::Keyword;
use net_graph::{NetOne, NetTwo};

/// The operator on one node that a keyword names, if it names one.
pub(crate) fn one_of(keyword: Keyword) -> Option<NetOne>
    ensures { result ≡ nodes.one_of keyword }
{
    match keyword {
        Keyword::Not => Some(NetOne::Not),
        Keyword::Neg => Some(NetOne::Neg),
        Keyword::Inc => Some(NetOne::Inc),
        Keyword::Dec => Some(NetOne::Dec),
        Keyword::Redand => Some(NetOne::RedAnd),
        Keyword::Redor => Some(NetOne::RedOr),
        Keyword::Redxor => Some(NetOne::RedXor),
        _ => None,
    }
}

/// The operator on two nodes that a keyword names, if it names one.
pub(crate) fn two_of(keyword: Keyword) -> Option<NetTwo>
    ensures { result ≡ nodes.two_of keyword }
{
    match keyword {
        Keyword::And => Some(NetTwo::And),
        Keyword::Or => Some(NetTwo::Or),
        Keyword::Xor => Some(NetTwo::Xor),
        Keyword::Nand => Some(NetTwo::Nand),
        Keyword::Nor => Some(NetTwo::Nor),
        Keyword::Xnor => Some(NetTwo::Xnor),
        Keyword::Add => Some(NetTwo::Add),
        Keyword::Sub => Some(NetTwo::Sub),
        Keyword::Mul => Some(NetTwo::Mul),
        Keyword::Sll => Some(NetTwo::Sll),
        Keyword::Srl => Some(NetTwo::Srl),
        Keyword::Sra => Some(NetTwo::Sra),
        Keyword::Eq => Some(NetTwo::EqBits),
        Keyword::Neq => Some(NetTwo::Neq),
        Keyword::Ult => Some(NetTwo::Ult),
        Keyword::Ulte => Some(NetTwo::Ulte),
        Keyword::Ugt => Some(NetTwo::Ugt),
        Keyword::Ugte => Some(NetTwo::Ugte),
        Keyword::Slt => Some(NetTwo::Slt),
        Keyword::Slte => Some(NetTwo::Slte),
        Keyword::Sgt => Some(NetTwo::Sgt),
        Keyword::Sgte => Some(NetTwo::Sgte),
        Keyword::Iff => Some(NetTwo::Iff),
        Keyword::Implies => Some(NetTwo::Implies),
        Keyword::Concat => Some(NetTwo::Concat),
        _ => None,
    }
}
