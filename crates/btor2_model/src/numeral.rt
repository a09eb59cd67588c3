//! Circuits: the numbers of constants' numerals.

ghost use Rattle.std.specs.Prelude.{◌<◌, ◌≤◌, ◌^◌, ◌↔◌, IsTrue};
ghost use Rattle.std.specs.Option.{SomeIff};
ghost use Rattle.std.specs.Str.Parse.{digits_value};
ghost use Rattle.btor2_text.specs.Forms.{radix_of};

use btor2_text::Base;
use kw_base::texts::number_of;

/// The number that the digits of a constant write, if it is below 2 to a width.
pub(crate) fn value_below(digits: &[u8], base: Base, width: u32) -> Option<u128>
    requires { width ≤ 128 }
    ensures { SomeIff result (digits_value (radix_of base) digits.now < 2 ^ width) (digits_value (radix_of base) digits.now) }
{
    match number_of(base.radix(), digits) {
        Some(value) if is_below(value, width) => Some(value),
        _ => None,
    }
}

// Whether a number is below 2 to a width.
fn is_below(value: u128, width: u32) -> bool
    requires { width ≤ 128 }
    ensures { IsTrue result ↔ (value < 2 ^ width) }
{
    width == 128 || value >> width == 0
}
