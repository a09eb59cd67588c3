//! Invariants: the numbers of their faults, by name.

/// A word of an invariant that is no literal: not of the form, or of no bit of a register.
pub const WRONG_LITERAL: u32 = 91;
/// A clause of an invariant that is false of the first values.
pub const FALSE_AT_FIRST: u32 = 92;
