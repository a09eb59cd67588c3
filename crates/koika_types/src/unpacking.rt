//! Language: from bits to the value of a type.

ghost use Rattle.std.specs.Prelude.{◌≡◌, ◌*◌, IfOk, map, replicate};
ghost use Rattle.kw_bits.specs.Laws.{HasWidth};
ghost use Rattle.koika_types.specs.Types.{IsType, width};
ghost use Rattle.koika_types.specs.Values.{AreFields, IsOf, Pairwise, packed, stacked, stacked_up};
ghost use Rattle.koika_types.specs.declared.ty.Ty.{Struct};

use crate::table::{TypeTable, width_of};
use crate::ty::Ty;
use crate::value::Value;
use kw_bits::{Bits, NoMemory, Sequence};
use std::alloc::Global;

/// The only value of a valid type that these bits stand for.
pub fn unpack(alloc: Global, types: &TypeTable, ty: &Ty, bits: Bits) -> Result<Value, NoMemory>
    requires valid { IsType types.now ty.now }
    requires width { bits.width ≡ width types.now ty.now }
    ensures of { IfOk result (λ value. IsOf types.now value ty.now) }
    ensures packed { IfOk result (λ value. packed value ≡ bits) }
    ensures only { IfOk result (λ value. (other : Value) → IsOf types.now other ty.now → packed other ≡ bits → other ≡ value) }
{
    prove_eq!(bits.width(), width_of(types, ty));
    value_of(alloc, types, ty, bits)
}

#[cycle(value)]
fn value_of(alloc: Global, types: &TypeTable, ty: &Ty, bits: Bits) -> Result<Value, NoMemory>
    requires valid { IsType types.now ty.now }
    requires width { HasWidth bits (width types.now ty.now) }
    ensures { IfOk result (λ value. IsOf types.now value ty.now × (packed value ≡ bits)) }
{
    match ty {
        Ty::Bits(_) => Ok(Value::Number(bits)),
        Ty::Enum(number) => Ok(Value::Member(*number, bits)),
        Ty::Struct(number) => {
            let values = fields_of(alloc, types, *number, bits)?;
            Ok(Value::Fields(*number, values))
        }
        Ty::Array(item, length) => {
            let values = items_of(alloc, types, item, *length, bits)?;
            Ok(Value::Items(values))
        }
    }
}

// The values of a struct's fields, the first from the most significant bits.
#[cycle(value)]
fn fields_of(
    alloc: Global,
    types: &TypeTable,
    number: u32,
    bits: Bits,
) -> Result<Sequence<Value>, NoMemory>
    requires valid { IsType types.now (Struct number) }
    requires width { HasWidth bits (width types.now (Struct number)) }
    ensures { IfOk result (λ values. AreFields types.now (IsOf types.now) number values × (stacked (map packed values) ≡ bits)) }
{
    let mut values = Sequence::new(alloc);
    let mut above = bits.width();
    let fields = types.structs()[number as usize].fields.as_slice();
    for field in fields {
        let width = width_of(types, &field.ty);
        let part = bits.slice(above - 1, above - width);
        values.push(value_of(alloc, types, &field.ty, part)?)?;
        above -= width;
    }
    Ok(values)
}

// The values of an array's items, item 0 from the least significant bits.
#[cycle(value)]
fn items_of(
    alloc: Global,
    types: &TypeTable,
    item: &Ty,
    length: u32,
    bits: Bits,
) -> Result<Sequence<Value>, NoMemory>
    requires valid { IsType types.now item.now }
    requires width { HasWidth bits (width types.now item.now * length) }
    ensures { IfOk result (λ values. Pairwise (IsOf types.now) values (replicate length item.now) × (stacked_up (map packed values) ≡ bits)) }
{
    let width = width_of(types, item);
    let mut values = Sequence::new(alloc);
    for index in 0..length {
        let lowest = index * width;
        let part = bits.slice(lowest + width - 1, lowest);
        values.push(value_of(alloc, types, item, part)?)?;
    }
    Ok(values)
}
