//! Engines: laws of traces and verdicts.

// Each law of traces and verdicts is the contract of a function that does nothing.
ghost use Rattle.attempt_log.specs.Laws as law;

/// What a rule gives alone is a trace of it, and the events of a trace fit.
pub fn a_rule_alone_gives_a_trace()
    ensures alone { law.AloneIsTrace }
    ensures fits { law.TracesFit }
{}

/// A trace of a rule of a design is one of that rule of any design of equal value.
pub fn equal_designs_have_the_same_traces()
    ensures { law.EqualDesignsTraceAlike }
{}

/// An attempt that is committed is what its rule gives, run whole, on the registers as they are, where the rule fires;
/// the rule of one that is skipped doesn't fire there.
pub fn a_verdict_tells_what_the_rule_does()
    ensures commit { law.CommitsFire }
    ensures skip { law.SkipsDoNotFire }
{}

/// An attempt that was made on the very registers is never stale, and a stale read would answer another value.
pub fn a_stale_read_was_made_on_other_registers()
    ensures never { law.NeverStale }
    ensures differ { law.StaleReadsDiffer }
{}

/// On whichever registers an attempt was made: where it is committed, its rule gives the same on the present registers,
/// and fires; where it is skipped, its rule doesn't fire there.
pub fn an_attempt_may_be_made_on_any_registers()
    ensures { law.MadeOnAnyRegisters }
{}
