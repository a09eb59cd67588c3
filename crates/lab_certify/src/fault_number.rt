//! Faults: the number of the one that is a claim's own.

/// No rule has the name that is asked for.
pub const NO_SUCH_RULE: u32 = 90;
