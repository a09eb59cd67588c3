//! Circuits: the operators on bit vectors of up to 64 bits, each a few operations on machine words.
//!
//! A word here is the number of a bit vector. `specs/Words.antt` says what each function makes of such words.

ghost use Rattle.std.specs.Prelude.{◌≤◌};
ghost use Rattle.kw_bits.specs.Operators as op;
ghost use Rattle.circuit_eval.specs.Words.{IsMask};
ghost use Rattle.circuit_eval.specs.inner.Words.{ChosenWord, JoinedWord, MaskedWord, OneWord, SlicedWord, TwoWord};

/// The mask of a width.
#[inline]
pub(crate) fn mask_of(width: u32) -> u64
    requires some { 1 ≤ width }
    requires most { width ≤ 64 }
    ensures { IsMask result width }
{
    u64::MAX >> (64 - width)
}

/// Every bit turned.
#[inline]
#[tactic(auto, unfolding(kw_bits::specs::Operators::not))]
pub(crate) fn not(a: u64, mask: u64) -> u64
    ensures { OneWord op.not a mask result }
{
    mask.wrapping_sub(a)
}

/// The bits that are 1 in both.
#[inline]
#[tactic(auto, unfolding(kw_bits::specs::Operators::and))]
pub(crate) fn and(a: u64, b: u64) -> u64
    ensures { TwoWord op.and a b result }
{
    a & b
}

/// The bits that are 1 in one or in both.
#[inline]
#[tactic(auto, unfolding(kw_bits::specs::Operators::or))]
pub(crate) fn or(a: u64, b: u64) -> u64
    ensures { TwoWord op.or a b result }
{
    a | b
}

/// The bits in which the two differ.
#[inline]
#[tactic(auto, unfolding(kw_bits::specs::Operators::xor))]
pub(crate) fn xor(a: u64, b: u64) -> u64
    ensures { TwoWord op.xor a b result }
{
    a ^ b
}

/// The sum, modulo 2 to the width.
#[inline]
#[tactic(auto, using(crate::proofs::MachineWords::words), unfolding(kw_bits::specs::Operators::add))]
pub(crate) fn add(a: u64, b: u64, mask: u64) -> u64
    ensures { MaskedWord op.add a b mask result }
{
    a.wrapping_add(b) & mask
}

/// The difference, modulo 2 to the width.
#[inline]
#[tactic(auto, using(crate::proofs::MachineWords::words), unfolding(kw_bits::specs::Operators::sub))]
pub(crate) fn sub(a: u64, b: u64, mask: u64) -> u64
    ensures { MaskedWord op.sub a b mask result }
{
    a.wrapping_sub(b) & mask
}

/// The product, modulo 2 to the width.
#[inline]
#[tactic(auto, using(crate::proofs::MachineWords::words), unfolding(kw_bits::specs::Operators::mul))]
pub(crate) fn mul(a: u64, b: u64, mask: u64) -> u64
    ensures { MaskedWord op.mul a b mask result }
{
    a.wrapping_mul(b) & mask
}

/// The bits of `high` above those of `low`, where `low` has as many bits as the shift.
#[inline]
#[tactic(auto, using(crate::proofs::MachineWords::words), unfolding(kw_bits::specs::Operators::concat))]
pub(crate) fn concat(high: u64, low: u64, shift: u32) -> u64
    ensures { JoinedWord high low shift result }
{
    high.wrapping_shl(shift) | low
}

/// The bits from `lower` on, as many as the mask has.
#[inline]
#[tactic(auto, using(crate::proofs::MachineWords::words), unfolding(kw_bits::specs::Operators::slice))]
pub(crate) fn slice(a: u64, lower: u32, mask: u64) -> u64
    ensures { SlicedWord a lower mask result }
{
    a.wrapping_shr(lower) & mask
}

/// Whether the two are equal, 1 or 0.
#[inline]
#[tactic(auto, unfolding(kw_bits::specs::Operators::eq_bits, kw_bits::specs::Operators::flag))]
pub(crate) fn equal(a: u64, b: u64) -> u64
    ensures { TwoWord op.eq_bits a b result }
{
    (a == b) as u64
}

/// Whether the two differ, 1 or 0.
#[inline]
#[tactic(auto, unfolding(kw_bits::specs::Operators::eq_bits, kw_bits::specs::Operators::flag, kw_bits::specs::Operators::not))]
pub(crate) fn differ(a: u64, b: u64) -> u64
    ensures { TwoWord (λ x y. op.not (op.eq_bits x y)) a b result }
{
    (a != b) as u64
}

/// Whether the first is below the second, 1 or 0.
#[inline]
#[tactic(auto, unfolding(kw_bits::specs::Operators::ult, kw_bits::specs::Operators::flag))]
pub(crate) fn below(a: u64, b: u64) -> u64
    ensures { TwoWord op.ult a b result }
{
    (a < b) as u64
}

/// Whether the first is at most the second, 1 or 0.
#[inline]
#[tactic(auto, unfolding(kw_bits::specs::Operators::ulte, kw_bits::specs::Operators::flag))]
pub(crate) fn at_most(a: u64, b: u64) -> u64
    ensures { TwoWord op.ulte a b result }
{
    (a <= b) as u64
}

/// The first choice where the condition is 1, else the second.
#[inline]
#[tactic(auto, unfolding(net_graph::specs::Operators::ite_value))]
pub(crate) fn ite(condition: u64, a: u64, b: u64) -> u64
    ensures { ChosenWord condition a b result }
{
    if condition == 1 { a } else { b }
}
