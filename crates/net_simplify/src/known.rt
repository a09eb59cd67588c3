//! Circuits: what is known of a value for all inputs and states.

ghost use Rattle.net_simplify.specs.inner.Forms.{IsKnownBit};
ghost use Rattle.net_simplify.specs.inner.Identities.{IsKnown};

use kw_bits::Bits;

/// What is known of a value: its bits are all 0, or all 1, or it is the number 1 of more than one bit, or nothing.
#[derive(Clone, Copy)]
pub(crate) enum Known {
    Zero,
    Ones,
    One,
    Nothing,
}

/// What is known of a constant.
pub(crate) fn known_of(value: Bits) -> Known
    ensures { IsKnown result value }
{
    if value.number() == 0 {
        Known::Zero
    } else if value.not().number() == 0 {
        Known::Ones
    } else if value.number() == 1 {
        Known::One
    } else {
        Known::Nothing
    }
}

/// The bit that a constant of one bit is.
pub(crate) fn bit_of(value: Bits) -> Option<bool>
    ensures { IsKnownBit result value }
{
    if value.width() == 1 {
        Some(value.number() == 1)
    } else {
        None
    }
}
