//! Circuits: the operators of nodes on values.

// The value of each operator, by those of bit vectors.
ghost use Rattle.std.specs.Prelude.{◌≡◌, ◌+◌, ◌≤◌};
ghost use Rattle.net_graph.specs.Operators.{one_at, one_value, two_value, uext_value, sext_value, ite_value, TakesTwo};

use crate::node::{NetOne, NetTwo};
use kw_bits::Bits;

#[inline]
#[tactic(auto, unfolding(crate::specs::Operators::one_value))]
pub(crate) fn one(operator: NetOne, a: Bits) -> Bits
    ensures { result ≡ one_value operator a }
{
    match operator {
        NetOne::Not => a.not(),
        NetOne::Neg => a.neg(),
        NetOne::Inc => a.add(one_at(a.width())),
        NetOne::Dec => a.sub(one_at(a.width())),
        NetOne::RedAnd => a.redand(),
        NetOne::RedOr => a.redor(),
        NetOne::RedXor => a.redxor(),
    }
}

// The number 1 at a width.
#[inline]
fn one_at(width: u32) -> Bits
    requires some { 1 ≤ width }
    requires most { width ≤ 128 }
    ensures { result ≡ one_at width }
{
    Bits::new(width, 1).unwrap()
}

// The operands are lent, so that an operator reads only what it needs of them.
#[inline]
#[tactic(auto, unfolding(crate::specs::Operators::two_value, crate::specs::Operators::TakesTwo, kw_bits::specs::Operators::not))]
pub(crate) fn two(operator: NetTwo, a: &Bits, b: &Bits) -> Bits
    requires { TakesTwo operator a.now.width b.now.width }
    ensures { result ≡ two_value operator a.now b.now }
{
    match operator {
        NetTwo::And => a.and(*b),
        NetTwo::Or => a.or(*b),
        NetTwo::Xor => a.xor(*b),
        NetTwo::Nand => a.and(*b).not(),
        NetTwo::Nor => a.or(*b).not(),
        NetTwo::Xnor => a.xor(*b).not(),
        NetTwo::Add => a.add(*b),
        NetTwo::Sub => a.sub(*b),
        NetTwo::Mul => a.mul(*b),
        NetTwo::Sll => a.sll(*b),
        NetTwo::Srl => a.srl(*b),
        NetTwo::Sra => a.sra(*b),
        NetTwo::EqBits | NetTwo::Iff => a.eq_bits(*b),
        NetTwo::Neq => a.eq_bits(*b).not(),
        NetTwo::Ult => a.ult(*b),
        NetTwo::Ulte => a.ulte(*b),
        NetTwo::Ugt => b.ult(*a),
        NetTwo::Ugte => b.ulte(*a),
        NetTwo::Slt => a.slt(*b),
        NetTwo::Slte => a.slte(*b),
        NetTwo::Sgt => b.slt(*a),
        NetTwo::Sgte => b.slte(*a),
        NetTwo::Implies => a.not().or(*b),
        NetTwo::Concat => a.concat(*b),
    }
}

#[inline]
#[tactic(auto, unfolding(crate::specs::Operators::uext_value))]
pub(crate) fn uext(a: Bits, added: u32) -> Bits
    requires { a.width + added ≤ 128 }
    ensures { result ≡ uext_value a added }
{
    a.zext(a.width() + added)
}

#[inline]
#[tactic(auto, unfolding(crate::specs::Operators::sext_value))]
pub(crate) fn sext(a: Bits, added: u32) -> Bits
    requires { a.width + added ≤ 128 }
    ensures { result ≡ sext_value a added }
{
    a.sext(a.width() + added)
}

#[inline]
#[tactic(auto, unfolding(crate::specs::Operators::ite_value))]
pub(crate) fn ite(condition: Bits, a: Bits, b: Bits) -> Bits
    ensures { result ≡ ite_value condition a b }
{
    if condition.number() == 1 { a } else { b }
}
