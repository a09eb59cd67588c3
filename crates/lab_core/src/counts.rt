//! The lab: what is counted of a rule.

ghost use Rattle.std.specs.Prelude.{◌≡◌, ◌<◌, ◌+◌, IfSome, OnOk, map, All};
ghost use Rattle.lab_core.specs.Numbers.{Counted, unwatched_count};
ghost use Rattle.lab_core.specs.inner.Counting.{AreBelow, cause_at, counted_of, first_of, seen_next, with_cause, with_refusal, with_verdict};

use crate::refusal::{Refusal, Seen};
use crate::trial::TrialVerdict;
use attempt_log::Cause;
use indexmap::IndexMap;
use kw_bits::NoMemory;
use std::alloc::Global;
use std::marker::Model;

/// In how many cycles a rule fired, aborted, was refused or wasn't tried, and its refusals.
#[derive(Drop)]
pub(crate) struct RuleCounts {
    pub(crate) fired: u32,
    pub(crate) aborted: u32,
    pub(crate) own: u32,
    pub(crate) clashed: u32,
    pub(crate) untried: u32,
    pub(crate) unwatched: Option<u32>,
    pub(crate) refusals: IndexMap<Refusal, Seen>,
}

impl Model for RuleCounts {
    ghost use Rattle.std.specs.Prelude.{map};
    ghost use Rattle.lab_core.specs.Numbers.{RuleNumbers};
    ghost use Rattle.lab_core.specs.inner.Counting.{counted_of};

    ghost Value = { RuleNumbers };

    ghost view = { λ c. record {
      fired = c.fired;
      aborted = c.aborted;
      own = c.own;
      clashed = c.clashed;
      untried = c.untried;
      unwatched = c.unwatched;
      refusals = map counted_of c.refusals.entries;
    } };
}

impl RuleCounts {
    ghost use Rattle.std.specs.Prelude.{[]};
    ghost use Rattle.lab_core.specs.Numbers.{rule_numbers};

    /// No cycle is counted.
    pub(crate) fn new(alloc: Global) -> RuleCounts
        ensures { result ≡ rule_numbers [] }
    {
        RuleCounts {
            fired: 0,
            aborted: 0,
            own: 0,
            clashed: 0,
            untried: 0,
            unwatched: None,
            refusals: IndexMap::new(alloc),
        }
    }

    /// Counts the verdict on the rule in a cycle, if it was tried.
    pub(crate) fn note(&mut self, cycle: u32, verdict: Option<TrialVerdict>) -> Result<(), NoMemory>
        requires { AreBelow cycle self.old }
        ensures numbers { OnOk result (self.new ≡ with_verdict cycle self.old verdict) }
        ensures few { AreBelow (cycle + 1) self.new }
    {
        match verdict {
            Some(TrialVerdict::Fired) => self.fired += 1,
            Some(TrialVerdict::Refused(cause)) => self.note_cause(cycle, &cause)?,
            None => {
                self.untried += 1;
                self.unwatched = first_of(self.unwatched, cycle);
            }
        }
        Ok(())
    }

    // Counts a cause for which the rule didn't fire.
    fn note_cause(&mut self, cycle: u32, cause: &Cause) -> Result<(), NoMemory>
        requires { AreBelow cycle self.old }
        ensures numbers { OnOk result (self.new ≡ with_cause cycle self.old cause.now) }
        ensures few { AreBelow (cycle + 1) self.new }
    {
        match cause {
            Cause::Abort => {
                self.aborted += 1;
                return Ok(());
            }
            Cause::OwnClash(_) => self.own += 1,
            Cause::Clash { .. } => self.clashed += 1,
        }
        self.unwatched = first_of(self.unwatched, cycle);
        match Refusal::of(cause) {
            Some(refusal) => note_refusal(&mut self.refusals, cycle, refusal),
            None => Ok(()),
        }
    }

    /// In how many cycles nothing is said of an assertion.
    pub(crate) fn unwatched_count(&self) -> u64
        ensures { result ≡ unwatched_count self.now }
    {
        sum(self.own, self.clashed, self.untried)
    }
}

fn sum(a: u32, b: u32, c: u32) -> u64
    ensures { result ≡ a + b + c }
{
    u64::from(a) + u64::from(b) + u64::from(c)
}

// Counts a refusal in a cycle.
fn note_refusal(
    refusals: &mut IndexMap<Refusal, Seen>,
    cycle: u32,
    refusal: Refusal,
) -> Result<(), NoMemory>
    requires few { All (λ (c : Counted). c.count < cycle) (map counted_of refusals.old.entries) }
    requires some { 0 < cycle }
    ensures entries { OnOk result (map counted_of refusals.new.entries ≡ with_refusal cycle (cause_at refusal) (map counted_of refusals.old.entries)) }
    ensures few { All (λ (c : Counted). c.count < cycle + 1) (map counted_of refusals.new.entries) }
{
    let seen = seen_next(cycle, refusals.get(&refusal).copied());
    match refusals.insert(refusal, seen) {
        Ok(_) => Ok(()),
        Err(_) => Err(NoMemory),
    }
}

// What is kept of a refusal after a cycle in which it came.
fn seen_next(cycle: u32, seen: Option<Seen>) -> Seen
    requires { IfSome seen (λ s. s.count < cycle) }
    ensures { result ≡ seen_next cycle seen }
{
    match seen {
        Some(seen) => Seen {
            count: seen.count + 1,
            first: seen.first,
        },
        None => Seen {
            count: 1,
            first: cycle,
        },
    }
}

// The first cycle that says nothing of an assertion.
fn first_of(before: Option<u32>, cycle: u32) -> Option<u32>
    ensures { result ≡ first_of before cycle }
{
    match before {
        Some(first) => Some(first),
        None => Some(cycle),
    }
}
