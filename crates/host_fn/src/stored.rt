//! Core: the type of stored host functions.

use crate::binary::Binary;
use crate::unary::Unary;

/// A stored host function, of one or two arguments.
#[derive(Clone, Copy)]
pub struct HostFn {
    pub(crate) function: StoredFunction,
}

#[derive(Clone, Copy)]
pub(crate) enum StoredFunction {
    Unary(Unary),
    Binary(Binary),
}
