//! Circuits: the operators of BTOR2 on values, for the slow run.

// The values that operators and constants give. Where operands are of no width that an operator takes there is none.
ghost use Rattle.std.specs.Prelude.{◌≡◌, ◌≤◌, ◌<◌, ◌+◌, ◌-◌, ◌^◌, IfSome, nat_eq, true, if◌then◌else◌};
ghost use Rattle.std.specs.Str.Parse.{digits_value};
ghost use Rattle.btor2_text.specs.Forms.{radix_of};
ghost use Rattle.btor2_text.specs.declared.keyword.Keyword.TheVariants as keywords;
ghost use Rattle.kw_bits.specs.Operators as vector;
ghost use Rattle.btor2_model.specs.Rules.{rule_of};
ghost use Rattle.btor2_model.specs.Run as run;
ghost use Rattle.btor2_model.specs.SlowRun.{HasValue, is_constant};
ghost use Rattle.btor2_model.specs.inner.SlowRun.{takes_one, takes_alike, compares, width_by};
ghost use Rattle.btor2_model.specs.declared.rule.FormRule.TheVariants as forms;

use crate::numeral::value_below;
use btor2_text::{Base, Keyword};
use kw_bits::Bits;

/// The value of an operator on one operand.
#[tactic(auto, unfolding(kw_bits::specs::Operators::not, kw_bits::specs::Operators::neg, kw_bits::specs::Operators::add, kw_bits::specs::Operators::sub, kw_bits::specs::Operators::redand, kw_bits::specs::Operators::redor, kw_bits::specs::Operators::redxor, kw_bits::specs::Operators::flag))]
pub(crate) fn unary(keyword: Keyword, a: Bits) -> Option<Bits>
    ensures some { takes_one (rule_of keyword) ≡ true → HasValue result (width_by (rule_of keyword) a.width) }
    ensures value { IfSome result (λ value. value ≡ run.unary keyword a) }
{
    let one = Bits::new(a.width(), 1)?;
    match keyword {
        Keyword::Not => Some(a.not()),
        Keyword::Neg => Some(a.neg()),
        Keyword::Inc => Some(a.add(one)),
        Keyword::Dec => Some(a.sub(one)),
        Keyword::Redand => Some(a.redand()),
        Keyword::Redor => Some(a.redor()),
        Keyword::Redxor => Some(a.redxor()),
        _ => None,
    }
}

/// The value of an operator on two operands.
pub(crate) fn binary(keyword: Keyword, a: Bits, b: Bits) -> Option<Bits>
    ensures alike { a.width ≡ b.width → takes_alike (rule_of keyword) ≡ true → (rule_of keyword ≡ forms.Boolean → a.width ≡ 1) → HasValue result (width_by (rule_of keyword) a.width) }
    ensures joined { a.width + b.width ≤ 128 → rule_of keyword ≡ forms.Joined → HasValue result (a.width + b.width) }
    ensures value { IfSome result (λ value. value ≡ run.binary keyword a b) }
{
    match keyword {
        Keyword::Concat => joined(a, b),
        _ if a.width() == b.width() => alike(keyword, a, b),
        _ => None,
    }
}

#[tactic(auto, unfolding(kw_bits::specs::Operators::concat))]
fn joined(high: Bits, low: Bits) -> Option<Bits>
    ensures some { high.width + low.width ≤ 128 → HasValue result (high.width + low.width) }
    ensures value { IfSome result (λ value. value ≡ run.binary keywords.Concat high low) }
{
    if high.width() + low.width() <= Bits::MAX_WIDTH {
        Some(high.concat(low))
    } else {
        None
    }
}

#[tactic(auto, unfolding(kw_bits::specs::Operators::not, kw_bits::specs::Operators::and, kw_bits::specs::Operators::or, kw_bits::specs::Operators::xor, kw_bits::specs::Operators::add, kw_bits::specs::Operators::sub, kw_bits::specs::Operators::mul, kw_bits::specs::Operators::sll, kw_bits::specs::Operators::srl, kw_bits::specs::Operators::sra))]
fn alike(keyword: Keyword, a: Bits, b: Bits) -> Option<Bits>
    requires { a.width ≡ b.width }
    ensures some { takes_alike (rule_of keyword) ≡ true → (rule_of keyword ≡ forms.Boolean → a.width ≡ 1) → HasValue result (width_by (rule_of keyword) a.width) }
    ensures value { IfSome result (λ value. value ≡ run.binary keyword a b) }
{
    match keyword {
        Keyword::And => Some(a.and(b)),
        Keyword::Or => Some(a.or(b)),
        Keyword::Xor => Some(a.xor(b)),
        Keyword::Nand => Some(a.and(b).not()),
        Keyword::Nor => Some(a.or(b).not()),
        Keyword::Xnor => Some(a.xor(b).not()),
        Keyword::Add => Some(a.add(b)),
        Keyword::Sub => Some(a.sub(b)),
        Keyword::Mul => Some(a.mul(b)),
        Keyword::Sll => Some(a.sll(b)),
        Keyword::Srl => Some(a.srl(b)),
        Keyword::Sra => Some(a.sra(b)),
        _ => compared(keyword, a, b),
    }
}

#[tactic(auto, unfolding(kw_bits::specs::Operators::not, kw_bits::specs::Operators::or, kw_bits::specs::Operators::eq_bits, kw_bits::specs::Operators::ult, kw_bits::specs::Operators::ulte, kw_bits::specs::Operators::slt, kw_bits::specs::Operators::slte, kw_bits::specs::Operators::flag))]
fn compared(keyword: Keyword, a: Bits, b: Bits) -> Option<Bits>
    requires { a.width ≡ b.width }
    ensures some { compares (rule_of keyword) ≡ true → (rule_of keyword ≡ forms.Boolean → a.width ≡ 1) → HasValue result (width_by (rule_of keyword) a.width) }
    ensures value { IfSome result (λ value. value ≡ run.binary keyword a b) }
{
    match keyword {
        Keyword::Eq | Keyword::Iff => Some(a.eq_bits(b)),
        Keyword::Neq => Some(a.eq_bits(b).not()),
        Keyword::Ult => Some(a.ult(b)),
        Keyword::Ulte => Some(a.ulte(b)),
        Keyword::Ugt => Some(b.ult(a)),
        Keyword::Ugte => Some(b.ulte(a)),
        Keyword::Slt => Some(a.slt(b)),
        Keyword::Slte => Some(a.slte(b)),
        Keyword::Sgt => Some(b.slt(a)),
        Keyword::Sgte => Some(b.slte(a)),
        Keyword::Implies => Some(a.not().or(b)),
        _ => None,
    }
}

/// The value of a constant that its keyword names.
#[tactic(auto, unfolding(kw_bits::specs::Operators::not))]
pub fn named_constant(keyword: Keyword, width: u32) -> Option<Bits>
    ensures some { 1 ≤ width → width ≤ 128 → is_constant (rule_of keyword) ≡ true → HasValue result width }
    ensures value { IfSome result (λ value. value ≡ run.constant keyword width) }
{
    match keyword {
        Keyword::Zero => Bits::new(width, 0),
        Keyword::One => Bits::new(width, 1),
        Keyword::Ones => Some(Bits::new(width, 0)?.not()),
        _ => None,
    }
}

/// The value of a constant that digits write.
pub fn written_constant(keyword: Keyword, width: u32, digits: &[u8]) -> Option<Bits>
    requires { width ≤ 128 }
    ensures some { 1 ≤ width → digits_value (radix_of (run.base_of keyword)) digits.now < 2 ^ width → HasValue result width }
    ensures value { IfSome result (λ value. value ≡ record { width = width; number = digits_value (radix_of (run.base_of keyword)) digits.now }) }
{
    let number = value_below(digits, base_of(keyword), width)?;
    Bits::new(width, number)
}

// The base of a constant's numeral.
fn base_of(keyword: Keyword) -> Base
    ensures { result ≡ run.base_of keyword }
{
    match keyword {
        Keyword::Const => Base::Binary,
        Keyword::Consth => Base::Hexadecimal,
        _ => Base::Decimal,
    }
}

/// An operand with this many bits more.
#[tactic(auto, unfolding(kw_bits::specs::Operators::zext, kw_bits::specs::Operators::sext))]
pub(crate) fn extended(keyword: Keyword, a: Bits, more: u32) -> Option<Bits>
    ensures some { a.width + more ≤ 128 → HasValue result (a.width + more) }
    ensures value { IfSome result (λ value. value ≡ run.extended keyword a more) }
{
    if more > Bits::MAX_WIDTH - a.width() {
        return None;
    }
    let width = a.width() + more;
    match keyword {
        Keyword::Sext => Some(a.sext(width)),
        _ => Some(a.zext(width)),
    }
}

/// The bits of an operand from one bound to the other.
#[tactic(auto, unfolding(kw_bits::specs::Operators::slice))]
pub(crate) fn sliced(a: Bits, upper: u32, lower: u32) -> Option<Bits>
    ensures some { lower ≤ upper → upper < a.width → HasValue result (upper - lower + 1) }
    ensures value { IfSome result (λ value. value ≡ vector.slice a upper lower) }
{
    if lower <= upper && upper < a.width() {
        Some(a.slice(upper, lower))
    } else {
        None
    }
}

/// The first choice where the condition is 1, else the second.
pub(crate) fn chosen(condition: Bits, a: Bits, b: Bits) -> Bits
    ensures { result ≡ (if nat_eq condition.number 1 then a else b) }
{
    if condition.number() == 1 { a } else { b }
}
