//! Refutations: the numbers of their faults, by name.

/// A line of a refutation that is of no form.
pub const MALFORMED_STEP: u32 = 93;
/// A clause that doesn't follow by its hints, or a dropped clause that isn't there.
pub const WRONG_STEP: u32 = 94;
/// A refutation without the clause that has no literal.
pub const NOT_REFUTED: u32 = 95;
