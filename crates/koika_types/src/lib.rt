//! The types of the source language, and the bits that its values are packed into.
//!
//! `specs/Types.antt` says which types are valid and how wide they are, `specs/Values.antt` which values a type has and
//! what bits they are. Contracts see a `TypeTable` as the enums and structs that it declares. The checker and the
//! lowering take its declarations and values; no command packs a value by it yet.
#![tactic(auto)]

mod declarations;
mod lookup;
mod packing;
mod table;
mod ty;
mod unpacking;
mod validity;
mod value;

pub use declarations::{Declarations, EnumDecl, Field, Member, StructDecl};
pub use lookup::{field_place, item_place};
pub use packing::pack;
pub use table::{TypeTable, width_of};
pub use ty::Ty;
pub use unpacking::unpack;
pub use validity::{have_valid_types, is_valid_enum, valid_width};
pub use value::Value;
