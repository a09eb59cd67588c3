//! Circuits: the keywords of BTOR2, with their bytes and the kinds of their arguments.

ghost use Rattle.std.specs.Prelude.{◌≡◌, ◌≢◌, ◌↔◌, IsTrue, IfSome, IfNone, Contains};
ghost use Rattle.btor2_text.specs.Forms.{keyword_text, kinds_of, left_out};

use crate::{ArgumentKind, Base};

/// The keyword of a line's form (BTOR2, CAV 2018).
#[derive(Clone, Copy, Debug, PartialEq, Eq)]
pub enum Keyword {
    Sort,
    Input,
    State,
    Zero,
    One,
    Ones,
    Const,
    Constd,
    Consth,
    Not,
    Neg,
    Inc,
    Dec,
    Redand,
    Redor,
    Redxor,
    And,
    Or,
    Xor,
    Nand,
    Nor,
    Xnor,
    Add,
    Sub,
    Mul,
    Sll,
    Srl,
    Sra,
    Eq,
    Neq,
    Ult,
    Ulte,
    Ugt,
    Ugte,
    Slt,
    Slte,
    Sgt,
    Sgte,
    Iff,
    Implies,
    Concat,
    Slice,
    Uext,
    Sext,
    Ite,
    Init,
    Next,
    Output,
    Bad,
}

// Every keyword, in the order of the declaration.
const KEYWORDS: [Keyword; 49] = [
    Keyword::Sort,
    Keyword::Input,
    Keyword::State,
    Keyword::Zero,
    Keyword::One,
    Keyword::Ones,
    Keyword::Const,
    Keyword::Constd,
    Keyword::Consth,
    Keyword::Not,
    Keyword::Neg,
    Keyword::Inc,
    Keyword::Dec,
    Keyword::Redand,
    Keyword::Redor,
    Keyword::Redxor,
    Keyword::And,
    Keyword::Or,
    Keyword::Xor,
    Keyword::Nand,
    Keyword::Nor,
    Keyword::Xnor,
    Keyword::Add,
    Keyword::Sub,
    Keyword::Mul,
    Keyword::Sll,
    Keyword::Srl,
    Keyword::Sra,
    Keyword::Eq,
    Keyword::Neq,
    Keyword::Ult,
    Keyword::Ulte,
    Keyword::Ugt,
    Keyword::Ugte,
    Keyword::Slt,
    Keyword::Slte,
    Keyword::Sgt,
    Keyword::Sgte,
    Keyword::Iff,
    Keyword::Implies,
    Keyword::Concat,
    Keyword::Slice,
    Keyword::Uext,
    Keyword::Sext,
    Keyword::Ite,
    Keyword::Init,
    Keyword::Next,
    Keyword::Output,
    Keyword::Bad,
];

// The keywords of BTOR2 that no form has.
const LEFT_OUT: [&[u8]; 19] = [
    b"udiv",
    b"sdiv",
    b"urem",
    b"srem",
    b"smod",
    b"rol",
    b"ror",
    b"read",
    b"write",
    b"constraint",
    b"fair",
    b"justice",
    b"uaddo",
    b"saddo",
    b"usubo",
    b"ssubo",
    b"umulo",
    b"smulo",
    b"sdivo",
];

impl Keyword {
    /// The bytes of the keyword.
    pub fn text(self) -> &'static [u8]
        ensures { result.now ≡ keyword_text self }
    {
        match self {
            Keyword::Sort => b"sort",
            Keyword::Input => b"input",
            Keyword::State => b"state",
            Keyword::Zero => b"zero",
            Keyword::One => b"one",
            Keyword::Ones => b"ones",
            Keyword::Const => b"const",
            Keyword::Constd => b"constd",
            Keyword::Consth => b"consth",
            Keyword::Not => b"not",
            Keyword::Neg => b"neg",
            Keyword::Inc => b"inc",
            Keyword::Dec => b"dec",
            Keyword::Redand => b"redand",
            Keyword::Redor => b"redor",
            Keyword::Redxor => b"redxor",
            Keyword::And => b"and",
            Keyword::Or => b"or",
            Keyword::Xor => b"xor",
            Keyword::Nand => b"nand",
            Keyword::Nor => b"nor",
            Keyword::Xnor => b"xnor",
            Keyword::Add => b"add",
            Keyword::Sub => b"sub",
            Keyword::Mul => b"mul",
            Keyword::Sll => b"sll",
            Keyword::Srl => b"srl",
            Keyword::Sra => b"sra",
            Keyword::Eq => b"eq",
            Keyword::Neq => b"neq",
            Keyword::Ult => b"ult",
            Keyword::Ulte => b"ulte",
            Keyword::Ugt => b"ugt",
            Keyword::Ugte => b"ugte",
            Keyword::Slt => b"slt",
            Keyword::Slte => b"slte",
            Keyword::Sgt => b"sgt",
            Keyword::Sgte => b"sgte",
            Keyword::Iff => b"iff",
            Keyword::Implies => b"implies",
            Keyword::Concat => b"concat",
            Keyword::Slice => b"slice",
            Keyword::Uext => b"uext",
            Keyword::Sext => b"sext",
            Keyword::Ite => b"ite",
            Keyword::Init => b"init",
            Keyword::Next => b"next",
            Keyword::Output => b"output",
            Keyword::Bad => b"bad",
        }
    }

    /// What the tokens after the keyword are, in order.
    pub fn kinds(self) -> &'static [ArgumentKind]
        ensures { result.now ≡ kinds_of self }
    {
        match self {
            Keyword::Sort => &[ArgumentKind::Bitvec, ArgumentKind::Number],
            Keyword::Input => &[ArgumentKind::Sort],
            Keyword::State => &[ArgumentKind::Sort],
            Keyword::Zero => &[ArgumentKind::Sort],
            Keyword::One => &[ArgumentKind::Sort],
            Keyword::Ones => &[ArgumentKind::Sort],
            Keyword::Const => &[ArgumentKind::Sort, ArgumentKind::Numeral(Base::Binary)],
            Keyword::Constd => &[ArgumentKind::Sort, ArgumentKind::Numeral(Base::Decimal)],
            Keyword::Consth => &[ArgumentKind::Sort, ArgumentKind::Numeral(Base::Hexadecimal)],
            Keyword::Not => &[ArgumentKind::Sort, ArgumentKind::Value],
            Keyword::Neg => &[ArgumentKind::Sort, ArgumentKind::Value],
            Keyword::Inc => &[ArgumentKind::Sort, ArgumentKind::Value],
            Keyword::Dec => &[ArgumentKind::Sort, ArgumentKind::Value],
            Keyword::Redand => &[ArgumentKind::Sort, ArgumentKind::Value],
            Keyword::Redor => &[ArgumentKind::Sort, ArgumentKind::Value],
            Keyword::Redxor => &[ArgumentKind::Sort, ArgumentKind::Value],
            Keyword::And => &[ArgumentKind::Sort, ArgumentKind::Value, ArgumentKind::Value],
            Keyword::Or => &[ArgumentKind::Sort, ArgumentKind::Value, ArgumentKind::Value],
            Keyword::Xor => &[ArgumentKind::Sort, ArgumentKind::Value, ArgumentKind::Value],
            Keyword::Nand => &[ArgumentKind::Sort, ArgumentKind::Value, ArgumentKind::Value],
            Keyword::Nor => &[ArgumentKind::Sort, ArgumentKind::Value, ArgumentKind::Value],
            Keyword::Xnor => &[ArgumentKind::Sort, ArgumentKind::Value, ArgumentKind::Value],
            Keyword::Add => &[ArgumentKind::Sort, ArgumentKind::Value, ArgumentKind::Value],
            Keyword::Sub => &[ArgumentKind::Sort, ArgumentKind::Value, ArgumentKind::Value],
            Keyword::Mul => &[ArgumentKind::Sort, ArgumentKind::Value, ArgumentKind::Value],
            Keyword::Sll => &[ArgumentKind::Sort, ArgumentKind::Value, ArgumentKind::Value],
            Keyword::Srl => &[ArgumentKind::Sort, ArgumentKind::Value, ArgumentKind::Value],
            Keyword::Sra => &[ArgumentKind::Sort, ArgumentKind::Value, ArgumentKind::Value],
            Keyword::Eq => &[ArgumentKind::Sort, ArgumentKind::Value, ArgumentKind::Value],
            Keyword::Neq => &[ArgumentKind::Sort, ArgumentKind::Value, ArgumentKind::Value],
            Keyword::Ult => &[ArgumentKind::Sort, ArgumentKind::Value, ArgumentKind::Value],
            Keyword::Ulte => &[ArgumentKind::Sort, ArgumentKind::Value, ArgumentKind::Value],
            Keyword::Ugt => &[ArgumentKind::Sort, ArgumentKind::Value, ArgumentKind::Value],
            Keyword::Ugte => &[ArgumentKind::Sort, ArgumentKind::Value, ArgumentKind::Value],
            Keyword::Slt => &[ArgumentKind::Sort, ArgumentKind::Value, ArgumentKind::Value],
            Keyword::Slte => &[ArgumentKind::Sort, ArgumentKind::Value, ArgumentKind::Value],
            Keyword::Sgt => &[ArgumentKind::Sort, ArgumentKind::Value, ArgumentKind::Value],
            Keyword::Sgte => &[ArgumentKind::Sort, ArgumentKind::Value, ArgumentKind::Value],
            Keyword::Iff => &[ArgumentKind::Sort, ArgumentKind::Value, ArgumentKind::Value],
            Keyword::Implies => &[ArgumentKind::Sort, ArgumentKind::Value, ArgumentKind::Value],
            Keyword::Concat => &[ArgumentKind::Sort, ArgumentKind::Value, ArgumentKind::Value],
            Keyword::Slice => &[
                ArgumentKind::Sort,
                ArgumentKind::Value,
                ArgumentKind::Number,
                ArgumentKind::Number,
            ],
            Keyword::Uext => &[
                ArgumentKind::Sort,
                ArgumentKind::Value,
                ArgumentKind::Number,
            ],
            Keyword::Sext => &[
                ArgumentKind::Sort,
                ArgumentKind::Value,
                ArgumentKind::Number,
            ],
            Keyword::Ite => &[
                ArgumentKind::Sort,
                ArgumentKind::Value,
                ArgumentKind::Value,
                ArgumentKind::Value,
            ],
            Keyword::Init => &[ArgumentKind::Sort, ArgumentKind::Value, ArgumentKind::Value],
            Keyword::Next => &[ArgumentKind::Sort, ArgumentKind::Value, ArgumentKind::Value],
            Keyword::Output => &[ArgumentKind::Value],
            Keyword::Bad => &[ArgumentKind::Value],
        }
    }

    /// The keyword that a word is, if it is one.
    pub(crate) fn of_word(word: &[u8]) -> Option<Keyword>
        ensures found { IfSome result (λ keyword. word.now ≡ keyword_text keyword) }
        ensures absent { IfNone result ((keyword : Keyword) → word.now ≢ keyword_text keyword) }
    {
        for keyword in KEYWORDS {
            if keyword.is_spelled(word) {
                return Some(keyword);
            }
        }
        None
    }

    // Whether a word has the bytes of the keyword.
    fn is_spelled(self, word: &[u8]) -> bool
        ensures { IsTrue result ↔ (word.now ≡ keyword_text self) }
    {
        word == self.text()
    }
}

/// Whether a word is a keyword of BTOR2 that no form has.
pub(crate) fn is_left_out(word: &[u8]) -> bool
    ensures { IsTrue result ↔ Contains left_out word.now }
{
    LEFT_OUT.contains(&word)
}
