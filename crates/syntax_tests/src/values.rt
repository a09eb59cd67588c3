//! Tests: packed values.

use koika_types::{
    EnumDecl, Field, Member, Ty, TypeTable, Value, field_place, have_valid_types, is_valid_enum,
    item_place, pack, unpack, valid_width,
};
use kw_bits::{Bits, Sequence, Text};
use std::alloc::Global;
use std::process::Abort;
use std::test::Fail;

fn bits(rt: &impl Abort, width: u32, number: u128) -> Bits {
    Bits::new(width, number).expect(rt, "a bit vector")
}

fn field(alloc: Global, name: &[u8], ty: Ty) -> Result<Field, Fail> {
    let name = Text::from_slice(alloc, name)?;
    Ok(Field { name, ty })
}

// The table of a struct with a field of 4 bits above one of 8 bits.
fn types(rt: &impl Abort, alloc: Global) -> Result<TypeTable, Fail> {
    let mut fields = Sequence::new(alloc);
    fields.push(field(alloc, b"hi", Ty::Bits(4))?)?;
    fields.push(field(alloc, b"lo", Ty::Bits(8))?)?;
    let mut types = TypeTable::new(alloc);
    assert!(rt; have_valid_types(&types, fields.as_slice()));
    types.add_struct(Text::from_slice(alloc, b"P")?, fields)?;
    Ok(types)
}

// The value of this type that a number is, which packs back to the number.
fn both_ways(
    rt: &impl Abort,
    alloc: Global,
    types: &TypeTable,
    ty: &Ty,
    number: Bits,
) -> Result<Value, Fail> {
    assert_eq!(rt; valid_width(types, ty), Some(number.width()));
    let value = unpack(alloc, types, ty, number)?;
    assert_eq!(rt; pack(types, ty, &value), number);
    Ok(value)
}

#[test]
fn the_first_field_stands_highest(rt: HostRuntime) -> Result<(), Fail> {
    let types = types(&rt, rt.alloc())?;
    let number = bits(&rt, 12, 258);
    let value = both_ways(&rt, rt.alloc(), &types, &Ty::Struct(0), number)?;
    let mut fields = Sequence::new(rt.alloc());
    fields.push(Value::Number(bits(&rt, 4, 1)))?;
    fields.push(Value::Number(bits(&rt, 8, 2)))?;
    assert_eq!(rt; value, Value::Fields(0, fields));
    Ok(())
}

// Whether the first field of the first struct is above the second, of 8 bits.
fn is_above(types: &TypeTable) -> bool {
    if valid_width(types, &Ty::Struct(0)).is_none() {
        return false;
    }
    match types.structs().first() {
        Some(decl) => decl.position_of(b"hi") == Some(0)
            && !decl.fields.is_empty()
            && field_place(types, 0, 0) == 8,
        None => false,
    }
}

#[test]
fn parts_have_places(rt: HostRuntime) -> Result<(), Fail> {
    let types = types(&rt, rt.alloc())?;
    assert!(rt; is_above(&types));
    assert_eq!(rt; item_place(&types, &Ty::Bits(4), 3), 12);
    Ok(())
}

#[test]
fn a_member_has_its_number(rt: HostRuntime) -> Result<(), Fail> {
    let mut members = Sequence::new(rt.alloc());
    members.push(Member {
        name: Text::from_slice(rt.alloc(), b"A")?,
        bits: bits(&rt, 3, 5),
    })?;
    let decl = EnumDecl {
        name: Text::from_slice(rt.alloc(), b"E")?,
        width: 3,
        members,
    };
    assert!(rt; is_valid_enum(&decl));
    assert_eq!(rt; decl.position_of(b"A"), Some(0));
    let mut types = TypeTable::new(rt.alloc());
    types.add_enum(decl)?;
    assert_eq!(rt; types.enums().len(), 1);
    Ok(())
}
