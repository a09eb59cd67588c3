//! Values: the operators on bit vectors.

ghost use Rattle.std.specs.Prelude.{◌≡◌, ◌+◌, ◌-◌, ◌^◌, ◌<◌, ◌≤◌, MatchBool, int_lt};
ghost use Rattle.kw_bits.specs.BitVector.{IsBitVector};
ghost use Rattle.kw_bits.specs.Operators as op;

use crate::bit_vector::{Bits, mask};

impl Bits {
    /// Every bit turned.
    #[tactic(auto, unfolding(crate::specs::Operators::not))]
    pub fn not(self) -> Bits
        ensures { result ≡ op.not self }
    {
        Bits::from_parts(self.width(), mask(self.width()) - self.number())
    }

    /// The bit vector that gives 0 when it is added, modulo 2 to the width.
    #[tactic(auto, using(crate::proofs::Words::words), unfolding(crate::specs::Operators::neg))]
    pub fn neg(self) -> Bits
        ensures { result ≡ op.neg self }
    {
        Bits::low_bits(self.width(), 0u128.wrapping_sub(self.number()))
    }

    /// The bits that are 1 in both.
    #[tactic(auto, unfolding(crate::specs::Operators::and))]
    pub fn and(self, b: Bits) -> Bits
        requires { self.width ≡ b.width }
        ensures { result ≡ op.and self b }
    {
        Bits::from_parts(self.width(), self.number() & b.number())
    }

    /// The bits that are 1 in one or in both.
    #[tactic(auto, using(crate::proofs::Words::words), unfolding(crate::specs::Operators::or))]
    pub fn or(self, b: Bits) -> Bits
        requires { self.width ≡ b.width }
        ensures { result ≡ op.or self b }
    {
        Bits::from_parts(self.width(), self.number() | b.number())
    }

    /// The bits in which the two differ.
    #[tactic(auto, using(crate::proofs::Words::words), unfolding(crate::specs::Operators::xor))]
    pub fn xor(self, b: Bits) -> Bits
        requires { self.width ≡ b.width }
        ensures { result ≡ op.xor self b }
    {
        Bits::from_parts(self.width(), self.number() ^ b.number())
    }

    /// The sum, modulo 2 to the width.
    #[tactic(auto, using(crate::proofs::Words::words), unfolding(crate::specs::Operators::add))]
    pub fn add(self, b: Bits) -> Bits
        requires { self.width ≡ b.width }
        ensures { result ≡ op.add self b }
    {
        Bits::low_bits(self.width(), self.number().wrapping_add(b.number()))
    }

    /// The difference, modulo 2 to the width.
    #[tactic(auto, using(crate::proofs::Words::words), unfolding(crate::specs::Operators::sub))]
    pub fn sub(self, b: Bits) -> Bits
        requires { self.width ≡ b.width }
        ensures { result ≡ op.sub self b }
    {
        Bits::low_bits(self.width(), self.number().wrapping_sub(b.number()))
    }

    /// The product, modulo 2 to the width.
    #[tactic(auto, using(crate::proofs::Words::words), unfolding(crate::specs::Operators::mul))]
    pub fn mul(self, b: Bits) -> Bits
        requires { self.width ≡ b.width }
        ensures { result ≡ op.mul self b }
    {
        Bits::low_bits(self.width(), self.number().wrapping_mul(b.number()))
    }

    /// Shifted up by b places, with zeros below. An amount of the width or more gives 0.
    #[tactic(auto, using(crate::proofs::Words::words), unfolding(crate::specs::Operators::sll))]
    pub fn sll(self, b: Bits) -> Bits
        requires { self.width ≡ b.width }
        ensures { result ≡ op.sll self b }
    {
        if b.number() < self.width() as u128 {
            Bits::low_bits(self.width(), self.number() << b.number())
        } else {
            Bits::from_parts(self.width(), 0)
        }
    }

    /// Shifted down by b places, with zeros above. An amount of the width or more gives 0.
    #[tactic(auto, using(crate::proofs::Words::words), unfolding(crate::specs::Operators::srl))]
    pub fn srl(self, b: Bits) -> Bits
        requires { self.width ≡ b.width }
        ensures { result ≡ op.srl self b }
    {
        if b.number() >= self.width() as u128 {
            return Bits::from_parts(self.width(), 0);
        }
        Bits::from_parts(self.width(), self.number() >> b.number())
    }

    /// Shifted down by b places, with the sign bit above. An amount of the width or more gives the sign bit everywhere.
    #[tactic(auto, unfolding(crate::specs::Operators::not))]
    pub fn sra(self, b: Bits) -> Bits
        requires { self.width ≡ b.width }
        ensures { result ≡ op.sra self b }
    {
        // A shift of the complement brings in zeros, which are ones once it is turned back.
        if self.is_negative() {
            self.not().srl(b).not()
        } else {
            self.srl(b)
        }
    }

    /// Whether all bits are 1, as one bit.
    #[tactic(auto, unfolding(crate::specs::Operators::redand))]
    pub fn redand(self) -> Bits
        ensures { result ≡ op.redand self }
    {
        Bits::flag(self.number() == mask(self.width()))
    }

    /// Whether some bit is 1, as one bit.
    #[tactic(auto, unfolding(crate::specs::Operators::redor))]
    pub fn redor(self) -> Bits
        ensures { result ≡ op.redor self }
    {
        Bits::flag(self.number() != 0)
    }

    /// Whether an odd number of bits is 1, as one bit.
    #[tactic(auto, unfolding(crate::specs::Operators::redxor))]
    pub fn redxor(self) -> Bits
        ensures { result ≡ op.redxor self }
    {
        Bits::from_parts(1, (self.number().count_ones() % 2) as u128)
    }

    /// Whether the two are equal, as one bit.
    #[tactic(auto, unfolding(crate::specs::Operators::eq_bits))]
    pub fn eq_bits(self, b: Bits) -> Bits
        requires { self.width ≡ b.width }
        ensures { result ≡ op.eq_bits self b }
    {
        Bits::flag(self.number() == b.number())
    }

    /// Whether this number is below b's, as one bit.
    #[tactic(auto, unfolding(crate::specs::Operators::ult))]
    pub fn ult(self, b: Bits) -> Bits
        requires { self.width ≡ b.width }
        ensures { result ≡ op.ult self b }
    {
        Bits::flag(self.number() < b.number())
    }

    /// Whether this number is at most b's, as one bit.
    #[tactic(auto, unfolding(crate::specs::Operators::ulte))]
    pub fn ulte(self, b: Bits) -> Bits
        requires { self.width ≡ b.width }
        ensures { result ≡ op.ulte self b }
    {
        Bits::flag(self.number() <= b.number())
    }

    /// Whether this signed reading is below b's, as one bit.
    #[tactic(auto, unfolding(crate::specs::Operators::slt))]
    pub fn slt(self, b: Bits) -> Bits
        requires { self.width ≡ b.width }
        ensures { result ≡ op.slt self b }
    {
        Bits::flag(self.is_signed_below(b))
    }

    /// Whether this signed reading is at most b's, as one bit.
    #[tactic(auto, unfolding(crate::specs::Operators::slte))]
    pub fn slte(self, b: Bits) -> Bits
        requires { self.width ≡ b.width }
        ensures { result ≡ op.slte self b }
    {
        Bits::flag(!b.is_signed_below(self))
    }

    /// These bits above those of `low`.
    #[tactic(auto, using(crate::proofs::Words::words), unfolding(crate::specs::Operators::concat))]
    pub fn concat(self, low: Bits) -> Bits
        requires { self.width + low.width ≤ 128 }
        ensures { result ≡ op.concat self low }
    {
        Bits::from_parts(
            self.width() + low.width(),
            self.number() << low.width() | low.number(),
        )
    }

    /// The bits from `lower` to `upper`, both included, bit 0 the lowest.
    #[tactic(auto, using(crate::proofs::Words::words), unfolding(crate::specs::Operators::slice))]
    pub fn slice(self, upper: u32, lower: u32) -> Bits
        requires order { lower ≤ upper }
        requires within { upper < self.width }
        ensures { result ≡ op.slice self upper lower }
    {
        Bits::low_bits(upper - lower + 1, self.number() >> lower)
    }

    /// The same number at a width from this one to 128.
    #[tactic(auto, unfolding(crate::specs::Operators::zext))]
    pub fn zext(self, width: u32) -> Bits
        requires wider { self.width ≤ width }
        requires most { width ≤ 128 }
        ensures { result ≡ op.zext self width }
    {
        Bits::from_parts(width, self.number())
    }

    /// The same signed reading at a width from this one to 128.
    #[tactic(auto, unfolding(crate::specs::Operators::not))]
    pub fn sext(self, width: u32) -> Bits
        requires wider { self.width ≤ width }
        requires most { width ≤ 128 }
        ensures { result ≡ op.sext self width }
    {
        if self.is_negative() {
            self.not().zext(width).not()
        } else {
            self.zext(width)
        }
    }

    // One bit that answers a test.
    #[tactic(auto, unfolding(crate::specs::Operators::flag))]
    fn flag(holds: bool) -> Bits
        ensures { result ≡ op.flag holds }
    {
        Bits::from_parts(1, holds as u128)
    }

    // Whether the highest bit is 1.
    fn is_negative(self) -> bool
        ensures sign { MatchBool result (2 ^ (self.width - 1) ≤ self.number) (self.number < 2 ^ (self.width - 1)) }
        ensures bits { IsBitVector self.width self.number }
    {
        self.number() > mask(self.width()) >> 1
    }

    // Whether the signed reading is below that of b.
    fn is_signed_below(self, b: Bits) -> bool
        requires { self.width ≡ b.width }
        ensures { result ≡ int_lt (op.signed self) (op.signed b) }
    {
        let is_negative = self.is_negative();
        if is_negative == b.is_negative() {
            self.number() < b.number()
        } else {
            is_negative
        }
    }
}
