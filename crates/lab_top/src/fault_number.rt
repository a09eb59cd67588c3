//! Faults: the numbers that only the lab has.

/// No rule has the name that is asked for.
pub(crate) const NO_SUCH_RULE: u32 = 90;
