//! Engines: the verdict on an attempt.

ghost use Rattle.std.specs.Prelude.{◌≡◌, ◌<◌, ℕ, List, length, slice_index_or, take};
ghost use Rattle.typed_core.specs.Widths.{HaveWidths, register_widths};
ghost use Rattle.attempt_log.specs.Past.{HasPlaces, StandsFor};
ghost use Rattle.one_rule.specs.declared.cycle.Fired.{Fired};
ghost use Rattle.attempt_log.specs.Verdict.{answer_now, at_end, clash, decision, staleness, verdict};

use crate::cause::{Cause, StaleRead, Verdict};
use crate::past::Past;
use crate::sources::{source_at, value_at};
use crate::traced::Attempt;
use kw_bits::Bits;
use one_rule::Regs;
use typed_core::{Access, Event, Outcome};

/// Whether the attempt may be committed on these registers, after what the cycle has committed: by its events in order,
/// of which the first that clashes or is stale decides, and else by its outcome. Each event is looked at once.
pub fn verdict(regs: &Regs, past: &Past, attempt: &Attempt) -> Verdict
    requires registers { HaveWidths (register_widths attempt.now.design) regs.now }
    requires past { HasPlaces (length attempt.now.design.regs) past.now }
    ensures { (fired : List Fired) → StandsFor (register_widths attempt.now.design) past.now fired → result ≡ verdict regs.now fired attempt.now.run }
{
    let events = attempt.events().as_slice();
    for (number, event) in events.iter().enumerate() {
        let now = value_now(regs, attempt, number, event);
        if let Some(decided) = decision(past, event, now) {
            return decided;
        }
    }
    at_end(*attempt.outcome())
}

// The value that a read at an event of the attempt gets on these registers.
fn value_now(regs: &Regs, attempt: &Attempt, number: usize, event: &Event) -> Bits
    requires register { event.now.access.register < length regs.now }
    requires number { number < length attempt.now.run.events }
    requires event { event.now ≡ slice_index_or attempt.now.run.events number event.now }
    ensures { result ≡ answer_now regs.now (take number attempt.now.run.events) event.now.access }
{
    let events = attempt.events().as_slice();
    let source = source_at(attempt.sources(), number);
    value_at(regs, events, event, source)
}

// What the outcome decides where no event does.
fn at_end(outcome: Outcome) -> Verdict
    ensures { result ≡ at_end outcome }
{
    match outcome {
        Outcome::Done => Verdict::Commit,
        Outcome::Abort => Verdict::Skip(Cause::Abort),
        Outcome::OwnClash(access) => Verdict::Skip(Cause::OwnClash(access)),
    }
}

// What an event decides, if anything, where this is the value that a read there gets now.
fn decision(past: &Past, event: &Event, now: Bits) -> Option<Verdict>
    requires { (registers : ℕ) × HasPlaces registers past.now × (event.now.access.register < registers) }
    ensures { (widths : List ℕ) (fired : List Fired) → StandsFor widths past.now fired
        → result ≡ decision (clash event.now.access fired) (staleness now event.now) }
{
    match past.clash(&event.access) {
        Some(cause) => Some(Verdict::Skip(cause)),
        None => match staleness(event, now) {
            Some(read) => Some(Verdict::Stale(read)),
            None => None,
        },
    }
}

// Whether an event is a read whose value isn't the one that it gets now.
fn staleness(event: &Event, now: Bits) -> Option<StaleRead>
    ensures { result ≡ staleness now event.now }
{
    let Access {
        write,
        port,
        register,
    } = event.access;
    if write {
        return None;
    }
    if event.value == now {
        return None;
    }
    Some(StaleRead {
        register,
        port,
        held: event.value,
        now,
    })
}
