//! The lab: the verdict on what a rule did alone.

ghost use Rattle.std.specs.Prelude.{◌≡◌, None, take};
ghost use Rattle.lab_core.specs.Trials.{refused, unclashed, verdict_of};
ghost use Rattle.lab_core.specs.inner.Tops.{fired_in};

use crate::trial::TrialVerdict;
use crate::tried::Tried;
use attempt_log::Cause;
use typed_core::{Alone, Outcome};

// A verdict, and how many of the events a trial shows.
#[derive(Clone, Copy)]
pub(crate) struct Judged {
    pub(crate) verdict: TrialVerdict,
    pub(crate) shown: usize,
}

// The verdict on a rule that did this alone, after these trials. Each event is looked at once.
pub(crate) fn judge(tried: &Tried, run: &Alone) -> Judged
    ensures verdict { result.verdict ≡ verdict_of (fired_in tried.now) run.now }
    ensures shown { take result.shown run.now.events ≡ unclashed (fired_in tried.now) run.now.events }
{
    for (number, event) in run.events.as_slice().iter().enumerate() {
        if let Some(cause) = tried.clash(&event.access) {
            return Judged {
                verdict: TrialVerdict::Refused(cause),
                shown: number,
            };
        }
    }
    Judged {
        verdict: at_end(run.outcome),
        shown: run.events.len(),
    }
}

// The verdict on a rule that ended so and has no clash.
fn at_end(outcome: Outcome) -> TrialVerdict
    ensures { result ≡ refused None outcome }
{
    match outcome {
        Outcome::Done => TrialVerdict::Fired,
        Outcome::Abort => TrialVerdict::Refused(Cause::Abort),
        Outcome::OwnClash(access) => TrialVerdict::Refused(Cause::OwnClash(access)),
    }
}
