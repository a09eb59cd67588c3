//! Lowering: values as their bits.

ghost use Rattle.std.specs.Prelude.{◌≡◌, ◌+◌, ◌≤◌, List, Some, map};
ghost use Rattle.kw_bits.specs.Operators as op;
ghost use Rattle.koika_types.specs.Values.{packed, stacked, stacked_up};
ghost use Rattle.koika_check.specs.Typing.{IsOf, IsType, IsTypedDesign};
ghost use Rattle.koika_check.specs.declared.checked.Checked.{Checked};
ghost use Rattle.koika_check.specs.declared.typed.ValueType.{ValueType};
ghost use Rattle.koika_lower.specs.inner.Packing.{AreParts, so_far};

use koika_types::Value;
use kw_bits::Bits;

/// The bits of a value of a type, none where it has no bits or too many. A struct's first field has the most significant bits,
/// an array's item 0 the least significant.
#[cycle(bits)]
pub(crate) fn bits_of(value: &Value) -> Option<Bits>
    ensures { (d : Checked) (t : ValueType) → IsTypedDesign d → IsType d t → IsOf d value.now t → result ≡ Some (packed value.now) }
{
    match value {
        Value::Number(bits) | Value::Member(_, bits) => Some(*bits),
        Value::Fields(_, values) => from_the_top(values.as_slice()),
        Value::Items(values) => from_the_bottom(values.as_slice()),
    }
}

// The bits of the values, the first the most significant.
#[cycle(bits)]
fn from_the_top(values: &[Value]) -> Option<Bits>
    ensures { (d : Checked) (types : List ValueType) → AreParts d types values.now → result ≡ Some (stacked (map packed values.now)) }
{
    let mut all = None;
    for value in values {
        all = Some(with_low(all, bits_of(value)?)?);
    }
    all
}

// The bits of the values, the first the least significant.
#[cycle(bits)]
fn from_the_bottom(values: &[Value]) -> Option<Bits>
    ensures { (d : Checked) (types : List ValueType) → AreParts d types values.now → result ≡ Some (stacked_up (map packed values.now)) }
{
    let mut all = None;
    for value in values {
        all = Some(with_high(bits_of(value)?, all)?);
    }
    all
}

// Bits below those so far.
fn with_low(above: Option<Bits>, low: Bits) -> Option<Bits>
    ensures { (so_far above).width + low.width ≤ 128 → result ≡ Some (op.concat (so_far above) low) }
{
    match above {
        Some(above) => joined(above, low),
        None => Some(low),
    }
}

// Bits above those so far.
fn with_high(high: Bits, below: Option<Bits>) -> Option<Bits>
    ensures { high.width + (so_far below).width ≤ 128 → result ≡ Some (op.concat high (so_far below)) }
{
    match below {
        Some(below) => joined(high, below),
        None => Some(high),
    }
}

// Bits above others, none where they are too many.
fn joined(high: Bits, low: Bits) -> Option<Bits>
    ensures { high.width + low.width ≤ 128 → result ≡ Some (op.concat high low) }
{
    if low.width() <= Bits::MAX_WIDTH - high.width() {
        Some(high.concat(low))
    } else {
        None
    }
}
