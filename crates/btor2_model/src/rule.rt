//! Circuits: what each form asks of widths and numbers.

ghost use Rattle.std.specs.Prelude.{◌≡◌};
ghost use Rattle.btor2_model.specs.Rules as form;

use crate::meaning::Role;
use btor2_text::{Base, Keyword};

/// How the widths and numbers of a form belong together.
#[derive(Clone, Copy, Debug, PartialEq, Eq)]
pub enum FormRule {
    /// A sort.
    Sort,
    /// An input, of the sort.
    Input,
    /// A state, of the sort.
    State,
    /// A constant that the keyword names, of the sort.
    Constant,
    /// A numeral in a base, of the sort.
    Numeral(Base),
    /// An operand of the sort.
    Unary,
    /// Two operands of the sort.
    Binary,
    /// The sort is 1; one operand of any width.
    Reduced,
    /// The sort is 1; two operands of one width.
    Compared,
    /// The sort and the operands are 1.
    Boolean,
    /// The sort is as wide as both operands together.
    Joined,
    /// The sort is as wide as the bits between two bounds.
    Sliced,
    /// The sort is this many bits wider than the operand.
    Extended,
    /// The first operand is 1, the others are of the sort.
    Chosen,
    /// The first value of a state, both of the sort.
    Init,
    /// The next value of a state, both of the sort.
    Next,
    /// A value of any width.
    Output,
    /// A value of width 1.
    Bad,
}

/// What a line's arguments measure, in order: the width of a sort or a value, or a number; 0 for all else.
#[derive(Clone, Copy, Debug, PartialEq, Eq)]
pub struct Measures {
    pub first: u32,
    pub second: u32,
    pub third: u32,
    pub fourth: u32,
}

impl FormRule {
    /// The rule of a keyword's form.
    pub fn of(keyword: Keyword) -> FormRule
        ensures { result ≡ form.rule_of keyword }
    {
        match keyword {
            Keyword::Sort => FormRule::Sort,
            Keyword::Input => FormRule::Input,
            Keyword::State => FormRule::State,
            Keyword::Zero | Keyword::One | Keyword::Ones => FormRule::Constant,
            Keyword::Const => FormRule::Numeral(Base::Binary),
            Keyword::Constd => FormRule::Numeral(Base::Decimal),
            Keyword::Consth => FormRule::Numeral(Base::Hexadecimal),
            Keyword::Not | Keyword::Neg | Keyword::Inc | Keyword::Dec => FormRule::Unary,
            Keyword::Redand | Keyword::Redor | Keyword::Redxor => FormRule::Reduced,
            Keyword::And
            | Keyword::Or
            | Keyword::Xor
            | Keyword::Nand
            | Keyword::Nor
            | Keyword::Xnor
            | Keyword::Add
            | Keyword::Sub
            | Keyword::Mul
            | Keyword::Sll
            | Keyword::Srl
            | Keyword::Sra => FormRule::Binary,
            Keyword::Eq
            | Keyword::Neq
            | Keyword::Ult
            | Keyword::Ulte
            | Keyword::Ugt
            | Keyword::Ugte
            | Keyword::Slt
            | Keyword::Slte
            | Keyword::Sgt
            | Keyword::Sgte => FormRule::Compared,
            Keyword::Iff | Keyword::Implies => FormRule::Boolean,
            Keyword::Concat => FormRule::Joined,
            Keyword::Slice => FormRule::Sliced,
            Keyword::Uext | Keyword::Sext => FormRule::Extended,
            Keyword::Ite => FormRule::Chosen,
            Keyword::Init => FormRule::Init,
            Keyword::Next => FormRule::Next,
            Keyword::Output => FormRule::Output,
            Keyword::Bad => FormRule::Bad,
        }
    }

    /// What a line of the form is for later lines.
    pub(crate) fn role(self) -> Role
        ensures { result ≡ form.role_of self }
    {
        match self {
            FormRule::Sort => Role::Sort,
            FormRule::State => Role::State,
            FormRule::Init | FormRule::Next | FormRule::Output | FormRule::Bad => Role::NoValue,
            _ => Role::Value,
        }
    }

    /// The width that a line gives its id.
    pub(crate) fn width(self, measures: Measures) -> u32
        ensures { result ≡ form.width_given self measures }
    {
        match self {
            FormRule::Sort => measures.second,
            _ => measures.first,
        }
    }

    /// Whether the line is a sort.
    pub fn is_sort(self) -> bool
        ensures { result ≡ form.is_sort self }
    {
        matches!(self, FormRule::Sort)
    }

    /// Whether the line is an input.
    pub fn is_input(self) -> bool
        ensures { result ≡ form.is_input self }
    {
        matches!(self, FormRule::Input)
    }

    /// Whether the line gives a state its first value.
    pub fn is_init(self) -> bool
        ensures { result ≡ form.is_init self }
    {
        matches!(self, FormRule::Init)
    }

    /// Whether the line gives a state its next value.
    pub fn is_next(self) -> bool
        ensures { result ≡ form.is_next self }
    {
        matches!(self, FormRule::Next)
    }

    /// Whether the line is an output.
    pub fn is_output(self) -> bool
        ensures { result ≡ form.is_output self }
    {
        matches!(self, FormRule::Output)
    }

    /// Whether the line marks what must not be.
    pub fn is_bad(self) -> bool
        ensures { result ≡ form.is_bad self }
    {
        matches!(self, FormRule::Bad)
    }

    /// Whether the line is a state.
    pub fn is_state(self) -> bool
        ensures { result ≡ form.is_state self }
    {
        matches!(self, FormRule::State)
    }

    /// Whether the widths and numbers belong together as the form asks.
    pub(crate) fn widths_agree(self, measures: Measures) -> bool
        ensures { result ≡ form.widths_agree self measures }
    {
        let Measures {
            first,
            second,
            third,
            fourth,
        } = measures;
        match self {
            FormRule::Unary => second == first,
            FormRule::Binary | FormRule::Init | FormRule::Next => second == first && third == first,
            FormRule::Reduced | FormRule::Bad => first == 1,
            FormRule::Compared => first == 1 && second == third,
            FormRule::Boolean => first == 1 && second == 1 && third == 1,
            FormRule::Joined | FormRule::Extended => {
                u64::from(first) == u64::from(second) + u64::from(third)
            }
            FormRule::Sliced => {
                fourth <= third && u64::from(first) + u64::from(fourth) == u64::from(third) + 1
            }
            FormRule::Chosen => second == 1 && third == first && fourth == first,
            _ => true,
        }
    }

    /// Whether a sort's width and the upper bound of a slice are in range.
    pub(crate) fn bounds_fit(self, measures: Measures) -> bool
        ensures { result ≡ form.bounds_fit self measures }
    {
        match self {
            FormRule::Sort => 1 <= measures.second && measures.second <= 128,
            FormRule::Sliced => measures.third < measures.second,
            _ => true,
        }
    }
}
