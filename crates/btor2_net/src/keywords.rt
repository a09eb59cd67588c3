//! Circuits: the keywords of operators.

// The keywords of the operators on nodes.
ghost use Rattle.std.specs.Prelude.{◌≡◌};
ghost use Rattle.btor2_net.specs.Pages as pages;

use btor2_text::Keyword;
use net_graph::{NetOne, NetTwo};

/// The keyword of an operator on one node.
pub(crate) fn keyword_of_one(operator: NetOne) -> Keyword
    ensures { result ≡ pages.keyword_of_one operator }
{
    match operator {
        NetOne::Not => Keyword::Not,
        NetOne::Neg => Keyword::Neg,
        NetOne::Inc => Keyword::Inc,
        NetOne::Dec => Keyword::Dec,
        NetOne::RedAnd => Keyword::Redand,
        NetOne::RedOr => Keyword::Redor,
        NetOne::RedXor => Keyword::Redxor,
    }
}

/// The keyword of an operator on two nodes.
pub(crate) fn keyword_of_two(operator: NetTwo) -> Keyword
    ensures { result ≡ pages.keyword_of_two operator }
{
    match operator {
        NetTwo::And => Keyword::And,
        NetTwo::Or => Keyword::Or,
        NetTwo::Xor => Keyword::Xor,
        NetTwo::Nand => Keyword::Nand,
        NetTwo::Nor => Keyword::Nor,
        NetTwo::Xnor => Keyword::Xnor,
        NetTwo::Add => Keyword::Add,
        NetTwo::Sub => Keyword::Sub,
        NetTwo::Mul => Keyword::Mul,
        NetTwo::Sll => Keyword::Sll,
        NetTwo::Srl => Keyword::Srl,
        NetTwo::Sra => Keyword::Sra,
        NetTwo::EqBits => Keyword::Eq,
        NetTwo::Neq => Keyword::Neq,
        NetTwo::Ult => Keyword::Ult,
        NetTwo::Ulte => Keyword::Ulte,
        NetTwo::Ugt => Keyword::Ugt,
        NetTwo::Ugte => Keyword::Ugte,
        NetTwo::Slt => Keyword::Slt,
        NetTwo::Slte => Keyword::Slte,
        NetTwo::Sgt => Keyword::Sgt,
        NetTwo::Sgte => Keyword::Sgte,
        NetTwo::Iff => Keyword::Iff,
        NetTwo::Implies => Keyword::Implies,
        NetTwo::Concat => Keyword::Concat,
    }
}
