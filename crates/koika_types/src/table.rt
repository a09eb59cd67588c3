//! Language: the table of declared types, each of which names earlier ones alone.

ghost use Rattle.std.specs.Prelude.{◌≡◌, ◌+◌, ◌<◌, min, OnOk, OnErr, [], ◌∷◌, ◌++◌, length};
ghost use Rattle.koika_types.specs.Types.{AreTypes, IsEnum, IsTable, IsType, IsWidth, struct_of, width, total_width};

use crate::declarations::{Declarations, EnumDecl, Field, StructDecl};
use crate::ty::Ty;
use kw_bits::{Bits, NoMemory, Sequence, Text};
use std::alloc::Global;
use std::marker::Model;

/// Stands for a total of more bits than a value may have.
const MORE_THAN_MAX: u32 = Bits::MAX_WIDTH + 1;

/// The declared types, seen by contracts as the enums and the structs. A struct's fields are of types that are valid
/// before it.
#[derive(Debug, Drop)]
pub struct TypeTable {
    declared: Declarations,
}

impl Model for TypeTable {
    ghost use Rattle.koika_types.specs.declared.declarations.Declarations.{Declarations};
    ghost use Rattle.koika_types.specs.contracts.ty.Ty as ty;
    ghost use Rattle.koika_types.specs.Types.{IsTable};
    ghost use Rattle.std.specs.Coded.{codes};

    ghost Value = { Declarations };

    ghost coded = { Prim.hlevel (codes, ty.the_row.coded) };

    ghost view = { λ t. t.declared };

    ghost invariant = { λ t. IsTable t.declared };
}

impl TypeTable {
    /// The table without declarations, which allocates nothing.
    pub fn new(alloc: Global) -> TypeTable
        ensures enums { result.enums ≡ [] }
        ensures structs { result.structs ≡ [] }
    {
        TypeTable {
            declared: Declarations {
                enums: Sequence::new(alloc),
                structs: Sequence::new(alloc),
            },
        }
    }

    /// The declared enums, by their numbers.
    pub fn enums(&self) -> &[EnumDecl]
        ensures enums { result.now ≡ self.now.enums }
        ensures table { IsTable self.now }
    {
        self.declared.enums.as_slice()
    }

    /// The declared structs, by their numbers.
    pub fn structs(&self) -> &[StructDecl]
        ensures structs { result.now ≡ self.now.structs }
        ensures table { IsTable self.now }
    {
        self.declared.structs.as_slice()
    }

    /// Declares an enum, whose number is that of the enums before it. An `Err` leaves the table as it was.
    pub fn add_enum(&mut self, decl: EnumDecl) -> Result<(), NoMemory>
        requires { IsEnum decl }
        ensures enums { OnOk result (self.new.enums ≡ self.old.enums ++ decl ∷ []) }
        ensures structs { OnOk result (self.new.structs ≡ self.old.structs) }
        ensures err { OnErr result (self.new ≡ self.old) }
    {
        self.declared.enums.push(decl)
    }

    /// Declares a struct with fields of valid types, whose number is that of the structs before it. An `Err` leaves
    /// the table as it was.
    pub fn add_struct(&mut self, name: Text, fields: Sequence<Field>) -> Result<(), NoMemory>
        requires { AreTypes self.old fields }
        ensures structs { OnOk result (self.new.structs ≡ self.old.structs ++ struct_of self.old name fields ∷ []) }
        ensures enums { OnOk result (self.new.enums ≡ self.old.enums) }
        ensures err { OnErr result (self.new ≡ self.old) }
    {
        let width = total_width(self, fields.as_slice());
        self.declared.structs.push(StructDecl {
            name,
            fields,
            width,
        })
    }
}

// The widths of the fields together, or 129 where they are more than 128.
pub(crate) fn total_width(types: &TypeTable, fields: &[Field]) -> u32
    requires { AreTypes types.now fields.now }
    ensures { result ≡ min (total_width types.now fields.now) 129 }
{
    let mut total = 0;
    for field in fields {
        total = (total + width_of(types, &field.ty)).min(MORE_THAN_MAX);
    }
    total
}

/// How many bits a value of a valid type has.
pub fn width_of(types: &TypeTable, ty: &Ty) -> u32
    requires { IsType types.now ty.now }
    ensures width { result ≡ width types.now ty.now }
    ensures valid { IsWidth result }
    ensures table { IsTable types.now }
{
    let structs = types.structs();
    match ty {
        Ty::Bits(width) => *width,
        Ty::Enum(number) => types.enums()[*number as usize].width,
        Ty::Struct(number) => structs[*number as usize].width,
        Ty::Array(item, length) => width_of(types, item) * *length,
    }
}
