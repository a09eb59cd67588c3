//! Checker: the typed tree. Its types do not say that it is well typed: `check` ensures it of its result, and `counts` and
//! `bit_weight` require it.

use crate::typed::{Typed, ValueType};
use koika_types::{EnumDecl, Value};
use kw_bits::{Sequence, Text};
use typed_core::{HostSpec, Node, TableSpec};

/// A field of a struct: its name and its type.
#[derive(Debug, PartialEq, Eq, Drop)]
pub struct CheckedField {
    pub name: Text,
    pub of: ValueType,
}

/// A struct: its name, its fields in order and its width, which is 129 where it is more than 128.
#[derive(Debug, PartialEq, Eq, Drop)]
pub struct Struct {
    pub name: Text,
    pub fields: Sequence<CheckedField>,
    pub width: u32,
}

/// A register: its name, its type and width, and its first value.
#[derive(Debug, PartialEq, Eq, Drop)]
pub struct Register {
    pub name: Text,
    pub of: ValueType,
    pub width: u32,
    pub first: Value,
}

/// An input: its name, its type and width.
#[derive(Debug, PartialEq, Eq, Drop)]
pub struct Input {
    pub name: Text,
    pub of: ValueType,
    pub width: u32,
}

/// A table and its name.
#[derive(Debug, PartialEq, Eq, Drop)]
pub struct Table {
    pub name: Text,
    pub spec: TableSpec,
}

/// A host function and its name.
#[derive(Debug, PartialEq, Eq, Drop)]
pub struct Host {
    pub name: Text,
    pub spec: HostSpec,
}

/// A function: its name, the types of its parameters, that of its result if it has one, and its body.
#[derive(Debug, PartialEq, Eq, Drop)]
pub struct CheckedFunction {
    pub name: Text,
    pub parameters: Sequence<ValueType>,
    pub result: Option<ValueType>,
    pub body: Typed,
}

/// A rule: its name and its body.
#[derive(Debug, PartialEq, Eq, Drop)]
pub struct CheckedRule {
    pub name: Text,
    pub body: Typed,
}

/// A design, with the declarations of each kind in order and its names resolved to their numbers. The result of `check` is
/// well typed.
#[derive(Debug, Drop)]
pub struct Checked {
    pub enums: Sequence<EnumDecl>,
    pub structs: Sequence<Struct>,
    pub registers: Sequence<Register>,
    pub inputs: Sequence<Input>,
    pub tables: Sequence<Table>,
    pub hosts: Sequence<Host>,
    pub functions: Sequence<CheckedFunction>,
    pub rules: Sequence<CheckedRule>,
    pub asserts: Sequence<u32>,
    pub nodes: Sequence<Node>,
    pub weight: u32,
}
