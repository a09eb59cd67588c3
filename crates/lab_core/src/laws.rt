//! The lab: laws of trials and of runs.

// Each law is the contract of a function that does nothing.
ghost use Rattle.lab_core.specs.Laws as law;

/// A trial's verdict says that its rule fired exactly where it fires.
#[tactic(auto, using(crate::proofs::Agreeing::fired_where_it_fires))]
pub fn a_verdict_says_whether_the_rule_fires()
    ensures { law.FiredWhereItFires }
{}

/// A trial's verdict is the one on an attempt that was made on the very registers.
#[tactic(auto, using(crate::proofs::Agreeing::agrees_with_attempts))]
pub fn a_verdict_is_that_on_the_attempt()
    ensures { law.AgreesWithAttempts }
{}

/// The first cycle of a run finds the first values, and each later one what the cycle before it left.
pub fn each_cycle_finds_what_was_left()
    ensures first { law.FindsFirstValues }
    ensures later { law.FindsWhatWasLeft }
{}

/// The trials of a run, and the text of its cycles, grow cycle by cycle.
pub fn a_run_is_shown_cycle_by_cycle()
    ensures trials { law.TrialsByCycle }
    ensures texts { law.TextsByCycle }
{}
