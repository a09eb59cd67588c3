//! Language: which types are valid, and how wide they are.

ghost use Rattle.std.specs.Prelude.{◌≡◌, ◌*◌, ◌≤◌, ◌↔◌, All, IsTrue};
ghost use Rattle.koika_types.specs.Types.{AreTypes, Finds, IsEnum, IsMember, IsType, IsWidth, width};
ghost use Rattle.koika_types.specs.declared.ty.Ty.{Enum, Struct};

use crate::declarations::{EnumDecl, Field, Member};
use crate::table::TypeTable;
use crate::ty::Ty;
use kw_bits::{Bits, Sequence};

/// The longest array has this many items.
const MAX_LENGTH: u32 = 128;

/// The width of a type, if it is valid: what it names is declared, and it has 1 to 128 bits, as has each type in it.
pub fn valid_width(types: &TypeTable, ty: &Ty) -> Option<u32>
    ensures { Finds (λ found. IsType types.now ty.now × (found ≡ width types.now ty.now)) result }
{
    match ty {
        Ty::Bits(width) => checked_width(*width),
        Ty::Enum(number) => enum_width(types, *number),
        Ty::Struct(number) => struct_width(types, *number),
        Ty::Array(item, length) => {
            let item = valid_width(types, item)?;
            array_width(item, *length)
        }
    }
}

/// Whether all fields are of valid types.
pub fn have_valid_types(types: &TypeTable, fields: &[Field]) -> bool
    ensures { IsTrue result ↔ AreTypes types.now fields.now }
{
    fields.iter().all(|field| is_valid(types, &field.ty))
}

/// Whether an enum may be declared: it has 1 to 128 bits, and its members are bit vectors of that width.
pub fn is_valid_enum(decl: &EnumDecl) -> bool
    ensures { IsTrue result ↔ IsEnum decl.now }
{
    is_width(decl.width) && are_members(&decl.members, decl.width)
}

fn is_valid(types: &TypeTable, ty: &Ty) -> bool
    ensures { IsTrue result ↔ IsType types.now ty.now }
{
    match valid_width(types, ty) {
        Some(_) => true,
        None => false,
    }
}

fn is_width(width: u32) -> bool
    ensures { IsTrue result ↔ IsWidth width }
{
    1 <= width && width <= Bits::MAX_WIDTH
}

fn checked_width(width: u32) -> Option<u32>
    ensures { Finds (λ found. IsWidth width × (found ≡ width)) result }
{
    if is_width(width) { Some(width) } else { None }
}

fn enum_width(types: &TypeTable, number: u32) -> Option<u32>
    ensures { Finds (λ found. IsType types.now (Enum number) × (found ≡ width types.now (Enum number))) result }
{
    let decl = types.enums().get(number as usize)?;
    Some(decl.width)
}

fn struct_width(types: &TypeTable, number: u32) -> Option<u32>
    ensures { Finds (λ found. IsType types.now (Struct number) × (found ≡ width types.now (Struct number))) result }
{
    let decl = types.structs().get(number as usize)?;
    checked_width(decl.width)
}

// The width of an array of items of this width, if it is valid.
fn array_width(item: u32, length: u32) -> Option<u32>
    ensures { Finds (λ found. (1 ≤ length) × (length ≤ MAX_LENGTH) × (item * length ≤ 128) × (found ≡ item * length)) result }
{
    if length == 0 || length > MAX_LENGTH || item > Bits::MAX_WIDTH {
        return None;
    }
    let width = item * length;
    if width <= Bits::MAX_WIDTH {
        Some(width)
    } else {
        None
    }
}

fn are_members(members: &Sequence<Member>, width: u32) -> bool
    ensures { IsTrue result ↔ All (IsMember width) members.now }
{
    members
        .as_slice()
        .iter()
        .all(|member| is_member(member, width))
}

fn is_member(member: &Member, width: u32) -> bool
    ensures { IsTrue result ↔ IsMember width member.now }
{
    member.bits.width() == width
}
