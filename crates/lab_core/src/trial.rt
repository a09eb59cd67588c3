//! The lab: trials, and the verdicts on them.

use attempt_log::Cause;
use typed_core::Events;

/// Whether a rule that was tried fired.
#[derive(Clone, Copy, Debug, PartialEq, Eq)]
pub enum TrialVerdict {
    Fired,
    /// It didn't, for this cause.
    Refused(Cause),
}

/// What a rule did that the scheduler visited in a cycle.
#[derive(Debug, Drop)]
pub struct Trial {
    /// The rule's number.
    pub rule: u32,
    pub verdict: TrialVerdict,
    /// What it read and wrote, in order, before the access that clashed with an earlier rule, if one did.
    pub events: Events,
}
