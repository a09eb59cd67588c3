//! Circuits: the states of the slow run, before the first step and after each.

// The values of states, before all steps and after one.
ghost use Rattle.std.specs.Prelude.{◌≡◌, ◌≤◌, ℕ, false, true, None, Some, IfOk, IfSome, option_and_then, option_map, unwrap_or};
ghost use Rattle.std.specs.List.{find};
ghost use Rattle.kw_bits.specs.BitVector.{BitVector, zero_at};
ghost use Rattle.btor2_text.specs.Printable.{ArePrintable};
ghost use Rattle.btor2_model.specs.Acceptance as acceptance;
ghost use Rattle.btor2_model.specs.inner.Known.{scope_of};
ghost use Rattle.btor2_model.specs.Rules as form;
ghost use Rattle.btor2_model.specs.Run as run;
ghost use Rattle.btor2_model.specs.Scope as scope;
ghost use Rattle.btor2_model.specs.SlowRun.{HasValue};
ghost use Rattle.btor2_model.specs.inner.SlowRun.{IsFilled, Knows, StatesHave, known_value, sets};

use crate::arguments::id_at;
use crate::known::Known;
use crate::known_values::KnownValues;
use crate::line_values::values_with;
use crate::rule::FormRule;
use btor2_text::Line;
use kw_bits::{Bits, NoMemory};
use std::alloc::Global;

/// The ids of the states.
pub(crate) fn state_ids(alloc: Global, lines: &[Line]) -> Result<Vec<u64>, NoMemory>
    ensures { IfOk result (λ ids. ids.items ≡ run.ids_of form.is_state lines.now) }
{
    let mut ids = Vec::new(alloc);
    for line in lines {
        if FormRule::of(line.keyword).is_state() {
            ids.push(line.id)?;
        }
    }
    Ok(ids)
}

/// The first values of the states.
pub(crate) fn first_values(
    alloc: Global,
    known: &Known,
    lines: &[Line],
) -> Result<KnownValues, NoMemory>
    requires accepted { acceptance.lines_fault scope.no_lines lines.now ≡ None }
    requires declared { scope_of known.now ≡ scope.behind_all scope.no_lines lines.now }
    ensures known { IfOk result (λ states. Knows states (run.first_state_values lines.now)) }
    ensures have { IfOk result (λ states. ArePrintable lines.now → StatesHave lines.now states) }
{
    let values = values_with(alloc, lines, &[], &KnownValues::new(alloc))?;
    let ids = state_ids(alloc, lines)?;
    let mut states = KnownValues::new(alloc);
    for state in ids.as_slice() {
        states.set(*state, first_value(known, &values, lines, *state))?;
    }
    Ok(states)
}

// The first value of a state: what its `init` has, or 0.
fn first_value(known: &Known, values: &KnownValues, lines: &[Line], state: u64) -> Option<Bits>
    requires { scope_of known.now ≡ scope.behind_all scope.no_lines lines.now }
    ensures known { (all : ℕ → BitVector) → Knows values.now all
        → IfSome result (λ value. unwrap_or (run.value_set form.is_init lines.now all state) (zero_at (run.width_in lines.now state)) ≡ value) }
    ensures has { acceptance.lines_fault scope.no_lines lines.now ≡ None → ArePrintable lines.now → IsFilled false (scope.behind_all scope.no_lines lines.now) values.now
        → 1 ≤ run.width_in lines.now state → run.width_in lines.now state ≤ 128 → HasValue result (run.width_in lines.now state) }
{
    match init_of(lines, state) {
        Some(id) => values.get(id),
        None => Bits::new(known.width(state), 0),
    }
}

// What the `init` of a state sets it to, if it has one.
fn init_of(lines: &[Line], state: u64) -> Option<u64>
    ensures value { (all : ℕ → BitVector) → run.value_set form.is_init lines.now all state ≡ option_map all result }
    ensures id { result ≡ option_map (λ line. scope.id_at line.arguments 2) (find (sets form.is_init state) lines.now) }
{
    for line in lines {
        if is_init_of(line, state) {
            return Some(id_at(line.arguments.as_slice(), 2));
        }
    }
    None
}

fn is_init_of(line: &Line, state: u64) -> bool
    ensures { result ≡ sets form.is_init state line.now }
{
    FormRule::of(line.keyword).is_init() && state == id_at(line.arguments.as_slice(), 1)
}

/// The values of the states after a step in which lines have these values.
pub(crate) fn next_values(
    alloc: Global,
    lines: &[Line],
    values: &KnownValues,
) -> Result<KnownValues, NoMemory>
    ensures known { IfOk result (λ states. (all : ℕ → BitVector) → Knows values.now all → Knows states (run.next_values lines.now all)) }
    ensures have { IfOk result (λ states. acceptance.IsAccepted lines.now → IsFilled true (scope.behind_all scope.no_lines lines.now) values.now → StatesHave lines.now states) }
{
    let ids = state_ids(alloc, lines)?;
    let mut states = KnownValues::new(alloc);
    for state in ids.as_slice() {
        states.set(*state, next_value(values, lines, *state))?;
    }
    Ok(states)
}

// The value of a state after such a step: what its `next` has in it.
fn next_value(values: &KnownValues, lines: &[Line], state: u64) -> Option<Bits>
    ensures known { (all : ℕ → BitVector) → Knows values.now all → IfSome result (λ value. run.next_values lines.now all state ≡ value) }
    ensures value { result ≡ option_and_then (known_value values.now) (option_map (λ line. scope.id_at line.arguments 2) (find (sets form.is_next state) lines.now)) }
{
    values.get(next_of(lines, state)?)
}

// What the `next` of a state sets it to, if it has one.
fn next_of(lines: &[Line], state: u64) -> Option<u64>
    ensures value { (all : ℕ → BitVector) → run.value_set form.is_next lines.now all state ≡ option_map all result }
    ensures id { result ≡ option_map (λ line. scope.id_at line.arguments 2) (find (sets form.is_next state) lines.now) }
{
    for line in lines {
        if is_next_of(line, state) {
            return Some(id_at(line.arguments.as_slice(), 2));
        }
    }
    None
}

fn is_next_of(line: &Line, state: u64) -> bool
    ensures { result ≡ sets form.is_next state line.now }
{
    FormRule::of(line.keyword).is_next() && state == id_at(line.arguments.as_slice(), 1)
}
