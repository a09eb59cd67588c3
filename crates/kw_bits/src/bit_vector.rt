//! Values: bit vectors of 1 to 128 bits.

ghost use Rattle.std.specs.Prelude.{◌≡◌, ◌+◌, ◌%◌, ◌<◌, ◌≤◌, ◌^◌, ◌↔◌, IsSome, IfSome};
ghost use Rattle.kw_bits.specs.BitVector.{IsBitVector, zero_at};

use std::marker::Model;

/// A bit vector: a width from 1 to 128 and a number below 2 to that width.
#[derive(Clone, Copy, Debug, PartialEq, Eq, Hash)]
pub struct Bits {
    // As wide as the number, since a copy takes fewer moves where no byte is padding.
    width: u128,
    number: u128,
}

impl Model for Bits {
    ghost use Rattle.kw_bits.specs.BitVector.{BitVector, IsBitVector};

    ghost Value = { BitVector };

    ghost view = { λ b. record { width = b.width; number = b.number } };

    ghost invariant = { λ b. IsBitVector b.width b.number };

    ghost inverse = { λ b. record { width = b.width; number = b.number } };
}

impl Bits {
    /// The widest bit vector has this many bits.
    pub const MAX_WIDTH: u32 = 128;

    /// The bit vector of this width and number, if there is one.
    pub fn new(width: u32, number: u128) -> Option<Bits>
        ensures some { IsSome result ↔ IsBitVector width number }
        ensures width { IfSome result (λ b. b.width ≡ width) }
        ensures number { IfSome result (λ b. b.number ≡ number) }
    {
        if width == 0 || width > Bits::MAX_WIDTH || number > mask(width) {
            return None;
        }
        Some(Bits::from_parts(width, number))
    }

    /// The bit vector of a width from 1 to 128 whose bits are all 0.
    pub fn zero(width: u32) -> Bits
        requires some { 1 ≤ width }
        requires most { width ≤ 128 }
        ensures { result ≡ zero_at width }
    {
        Bits::from_parts(width, 0)
    }

    /// How many bits there are.
    pub fn width(self) -> u32
        ensures width { result ≡ self.width }
        ensures bits { IsBitVector self.width self.number }
    {
        self.width as u32
    }

    /// The bits as a number, bit 0 the lowest.
    pub fn number(self) -> u128
        ensures number { result ≡ self.number }
        ensures bits { IsBitVector self.width self.number }
    {
        self.number
    }

    /// The bit vector of this width and number.
    pub(crate) fn from_parts(width: u32, number: u128) -> Bits
        requires { IsBitVector width number }
        ensures { result ≡ record { width = width; number = number } }
    {
        Bits {
            width: width as u128,
            number,
        }
    }

    /// The bit vector of a word's low bits, as many as the width.
    pub(crate) fn low_bits(width: u32, word: u128) -> Bits
        requires some { 1 ≤ width }
        requires most { width ≤ 128 }
        ensures { result ≡ record { width = width; number = word % 2 ^ width } }
    {
        Bits {
            width: width as u128,
            number: word & mask(width),
        }
    }
}

/// The number whose low bits, as many as the width, are 1.
pub(crate) fn mask(width: u32) -> u128
    requires some { 1 ≤ width }
    requires most { width ≤ 128 }
    ensures { result + 1 ≡ 2 ^ width }
{
    // A shift of one machine word costs a few instructions, one of two words a dozen.
    if width <= 64 {
        (u64::MAX >> (64 - width)) as u128
    } else {
        u128::MAX >> (128 - width)
    }
}
