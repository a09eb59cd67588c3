//! Language: the values of the source language.

use kw_bits::{Bits, Sequence};

/// A value of the source language.
#[derive(Debug, PartialEq, Eq, Drop)]
pub enum Value {
    /// A bit vector.
    Number(Bits),
    /// The number of an enum, and bits of its width.
    Member(u32, Bits),
    /// The number of a struct, and a value for each field in declared order.
    Fields(u32, Sequence<Value>),
    /// The items of an array, item 0 first.
    Items(Sequence<Value>),
}
