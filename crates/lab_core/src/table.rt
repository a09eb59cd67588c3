//! The lab: the verdicts of a cycle by rule.

ghost use Rattle.std.specs.Prelude.{◌≡◌, IfOk, None, Some, replicate, slice_set};
ghost use Rattle.lab_core.specs.inner.Counting.{verdicts_of};

use crate::trial::{Trial, TrialVerdict};
use kw_bits::NoMemory;
use std::alloc::Global;

/// The verdict on each rule, if it was tried.
pub(crate) fn verdicts_of(
    alloc: Global,
    rules: usize,
    tried: &[Trial],
) -> Result<Vec<Option<TrialVerdict>>, NoMemory>
    ensures { IfOk result (λ verdicts. verdicts.items ≡ verdicts_of rules tried.now) }
{
    let mut verdicts = no_verdicts(alloc, rules)?;
    for number in (0..tried.len()).rev() {
        put(&mut verdicts, &tried[number]);
    }
    Ok(verdicts)
}

// No verdict on that many rules.
fn no_verdicts(alloc: Global, rules: usize) -> Result<Vec<Option<TrialVerdict>>, NoMemory>
    ensures { IfOk result (λ verdicts. verdicts.items ≡ replicate rules None) }
{
    let mut verdicts = Vec::with_capacity(alloc, rules)?;
    for _ in 0..rules {
        verdicts.push(None)?;
    }
    Ok(verdicts)
}

// Puts the verdict of a trial in the place of its rule.
#[tactic(auto, using(crate::proofs::Tables::outside))]
fn put(verdicts: &mut Vec<Option<TrialVerdict>>, trial: &Trial)
    ensures { verdicts.new.items ≡ slice_set verdicts.old.items trial.now.rule (Some trial.now.verdict) }
{
    let rule = trial.rule as usize;
    if rule < verdicts.len() {
        verdicts[rule] = Some(trial.verdict);
    }
}
