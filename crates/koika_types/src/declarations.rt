//! Language: what is declared of enums and structs.

use crate::ty::Ty;
use kw_bits::{Bits, Sequence, Text};

/// A member of an enum: its name and its bits.
#[derive(Debug, Drop)]
pub struct Member {
    pub name: Text,
    pub bits: Bits,
}

/// An enum: its name, the width of its members and the members in order.
#[derive(Debug, Drop)]
pub struct EnumDecl {
    pub name: Text,
    pub width: u32,
    pub members: Sequence<Member>,
}

/// A field of a struct: its name and its type.
#[derive(Debug, Drop)]
pub struct Field {
    pub name: Text,
    pub ty: Ty,
}

/// A struct: its name, its fields in order and its total width, which is given as 129 where it is more than 128.
#[derive(Debug, Drop)]
pub struct StructDecl {
    pub name: Text,
    pub fields: Sequence<Field>,
    pub width: u32,
}

/// The enums and the structs that are declared, each list in order.
#[derive(Debug, Drop)]
pub struct Declarations {
    pub enums: Sequence<EnumDecl>,
    pub structs: Sequence<StructDecl>,
}
