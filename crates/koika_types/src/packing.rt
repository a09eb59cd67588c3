//! Language: from a value to its bits.

ghost use Rattle.std.specs.Prelude.{◌≡◌, ◌-◌, ◌*◌, map};
ghost use Rattle.koika_types.specs.Types.{IsType, width};
ghost use Rattle.koika_types.specs.Values.{IsOf, packed, stacked, stacked_up};
ghost use Rattle.koika_types.specs.inner.Values.{AreParts, IsValue};

use crate::table::{TypeTable, width_of};
use crate::ty::Ty;
use crate::value::Value;
use kw_bits::Bits;

/// The bits of a value of a valid type. A struct's first field has the most significant bits, an array's item 0 the
/// least significant.
pub fn pack(types: &TypeTable, ty: &Ty, value: &Value) -> Bits
    requires valid { IsType types.now ty.now }
    requires of { IsOf types.now value.now ty.now }
    ensures packed { result ≡ packed value.now }
    ensures width { result.width ≡ width types.now ty.now }
{
    let width = width_of(types, ty);
    // A value holds all that its bits are made of.
    let bits = bits_of(value);
    prove_eq!(bits.width(), width);
    bits
}

#[cycle(bits)]
fn bits_of(value: &Value) -> Bits
    requires { IsValue value.now }
    ensures { result ≡ packed value.now }
{
    match value {
        Value::Number(bits) | Value::Member(_, bits) => *bits,
        Value::Fields(_, values) => from_the_top(values.as_slice()),
        Value::Items(values) => from_the_bottom(values.as_slice()),
    }
}

// The bits of the values, the first the most significant.
#[cycle(bits)]
fn from_the_top(values: &[Value]) -> Bits
    requires { AreParts values.now }
    ensures { result ≡ stacked (map packed values.now) }
{
    let mut bits = bits_of(&values[0]);
    for index in 1..values.len() {
        bits = bits.concat(bits_of(&values[index]));
    }
    bits
}

// The bits of the values, the first the least significant.
#[cycle(bits)]
fn from_the_bottom(values: &[Value]) -> Bits
    requires { AreParts values.now }
    ensures { result ≡ stacked_up (map packed values.now) }
{
    let mut bits = bits_of(&values[0]);
    for index in 1..values.len() {
        bits = bits_of(&values[index]).concat(bits);
    }
    bits
}
