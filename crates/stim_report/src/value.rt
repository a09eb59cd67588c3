//! Reports: the values of assignments, read digit by digit.

// The values of assignments.
ghost use Rattle.std.specs.Prelude.{◌≡◌, ◌^◌, nat_lt, if◌then◌else◌, IfSome, IfNone, Some, None};
ghost use Rattle.std.specs.Str.Parse.{digits_value};
ghost use Rattle.stim_report.specs.Assignments as texts;
ghost use Rattle.stim_report.specs.inner.Numerals.{IsBase};
ghost use Rattle.typed_core.specs.Valid.{IsWidth};

use kw_base::texts::{is_numeral, number_of};
use kw_bits::Bits;

/// Digits of a base, one or more.
#[derive(Clone, Copy)]
pub(crate) struct Numeral<'a> {
    pub(crate) radix: u32,
    pub(crate) digits: &'a [u8],
}

/// The digits that a value consists of.
pub(crate) fn numeral_of(value: &[u8]) -> Option<Numeral<'_>>
    ensures found { IfSome result (λ n. IsBase n.radix × (texts.value_written value.now ≡ Some (digits_value n.radix n.digits.now))) }
    ensures absent { IfNone result (texts.value_written value.now ≡ None) }
{
    let numeral = in_base(value);
    if !is_numeral(numeral.radix, numeral.digits) {
        return None;
    }
    Some(numeral)
}

// The bytes of a value after its base.
fn in_base(value: &[u8]) -> Numeral<'_>
    ensures base { IsBase result.radix }
    ensures number { texts.value_written value.now ≡ texts.numeral result.radix result.digits.now }
{
    if is_hexadecimal(value) {
        let (_, digits) = value.split_at(2);
        return Numeral { radix: 16, digits };
    }
    Numeral {
        radix: 10,
        digits: value,
    }
}

fn is_hexadecimal(value: &[u8]) -> bool
    ensures { result ≡ texts.is_hexadecimal value.now }
{
    matches!(value, [b'0', b'x', ..])
}

/// The bit vector of a width that digits write, if their number is below 2 to that width.
pub(crate) fn bits_of(radix: u32, digits: &[u8], width: u32) -> Option<Bits>
    requires base { IsBase radix }
    requires width { IsWidth width }
    ensures { result ≡ (if nat_lt (digits_value radix digits.now) (2 ^ width) then Some (record { width = width; number = digits_value radix digits.now }) else None) }
{
    Bits::new(width, number_of(radix, digits)?)
}
