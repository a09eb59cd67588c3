//! Lint: what occurs in the body of a rule.

use typed_core::Access;

/// What occurs in a typed body.
#[derive(Clone, Copy, Debug, PartialEq, Eq)]
pub enum Occurrence {
    /// A read or a write.
    Access(Access),
    /// The value of the input of this number.
    Input(u32),
    /// A call of the table of this number.
    Table(u32),
    /// A call of the host function of this number.
    Host(u32),
}
