//! Language: members, fields and structs found by name or number.

ghost use Rattle.std.specs.Prelude.{◌≡◌, ◌*◌, ◌+◌, ◌<◌, ◌≤◌, drop, length, position};
ghost use Rattle.std.specs.Str.{bytes_eq};
ghost use Rattle.koika_types.specs.Types.{IsType, fields_of, total_width, width};
ghost use Rattle.koika_types.specs.declared.ty.Ty.{Struct};

use crate::declarations::{EnumDecl, StructDecl};
use crate::table::{TypeTable, total_width as widths_of, width_of};
use crate::ty::Ty;

impl EnumDecl {
    /// The number of the first member with this name, if there is one.
    pub fn position_of(&self, name: &[u8]) -> Option<usize>
        ensures { result ≡ position (λ member. bytes_eq member.name name.now) self.now.members }
    {
        self.members
            .as_slice()
            .iter()
            .position(|member| member.name.as_slice() == name)
    }
}

impl StructDecl {
    /// The number of the first field with this name, if there is one.
    pub fn position_of(&self, name: &[u8]) -> Option<usize>
        ensures { result ≡ position (λ field. bytes_eq field.name name.now) self.now.fields }
    {
        self.fields
            .as_slice()
            .iter()
            .position(|field| field.name.as_slice() == name)
    }
}

/// The lowest bit of a field in the bits of a struct: those of the later fields are below it.
pub fn field_place(types: &TypeTable, number: u32, field: usize) -> u32
    requires valid { IsType types.now (Struct number) }
    requires within { field < length (fields_of types.now number) }
    ensures { result ≡ total_width types.now (drop (field + 1) (fields_of types.now number)) }
{
    let fields = types.structs()[number as usize].fields.as_slice();
    widths_of(types, &fields[field + 1..])
}

/// The lowest bit of an item of this type in the bits of an array that has it: those of the items before it are below.
pub fn item_place(types: &TypeTable, item: &Ty, index: u32) -> u32
    requires valid { IsType types.now item.now }
    requires within { width types.now item.now * (index + 1) ≤ 128 }
    ensures { result ≡ width types.now item.now * index }
{
    width_of(types, item) * index
}
