//! Circuits: numbers in tokens.

ghost use Rattle.std.specs.Prelude.{◌<◌, ◌^◌};
ghost use Rattle.std.specs.Option.{SomeIff};
ghost use Rattle.std.specs.Str.Parse.{IsNumeral, digits_value};

use kw_base::texts::{decimal, is_numeral};

/// The number below 2^64 that a token of decimal digits is, if it is one.
pub(crate) fn number_of(token: &[u8]) -> Option<u64>
    ensures { SomeIff result (IsNumeral 10 token.now × (digits_value 10 token.now < 2 ^ 64)) (digits_value 10 token.now) }
{
    if !is_numeral(10, token) {
        return None;
    }
    decimal(token)
}
