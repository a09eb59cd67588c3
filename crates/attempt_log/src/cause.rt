//! Engines: the verdicts on attempts, and why a rule is skipped.

use kw_bits::Bits;
use typed_core::Access;

/// Why a rule is skipped.
#[derive(Clone, Copy, Debug, PartialEq, Eq)]
pub enum Cause {
    /// It aborted.
    Abort,
    /// It made a write that its own earlier events refuse.
    OwnClash(Access),
    /// An access clashes with one that a rule committed earlier made. The rule is the first such, and of its accesses
    /// reads are named before writes and lower ports before higher ones.
    Clash {
        access: Access,
        rule: u32,
        earlier: Access,
    },
}

/// A read that would answer another value now.
#[derive(Clone, Copy, Debug, PartialEq, Eq)]
pub struct StaleRead {
    pub register: u32,
    pub port: u32,
    pub held: Bits,
    pub now: Bits,
}

/// What a cycle answers to an attempt.
#[derive(Clone, Copy, Debug, PartialEq, Eq)]
pub enum Verdict {
    Commit,
    Skip(Cause),
    Stale(StaleRead),
}
