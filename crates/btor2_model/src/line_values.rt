//! Circuits: the values of all lines in a step, for the slow run.

// The values of lines in a step.
ghost use Rattle.std.specs.Prelude.{◌≡◌, ℕ, Bool, true, None, Some, nat_eq, IfOk, IfSome, OnOk};
ghost use Rattle.std.specs.List.{zip};
ghost use Rattle.std.specs.Map.{lookup};
ghost use Rattle.kw_bits.specs.BitVector.{BitVector};
ghost use Rattle.btor2_text.specs.Printable.{ArePrintable};
ghost use Rattle.btor2_model.specs.Acceptance as acceptance;
ghost use Rattle.btor2_model.specs.inner.Known.{scope_of, AreNarrow};
ghost use Rattle.btor2_model.specs.Rules as form;
ghost use Rattle.btor2_model.specs.Run as run;
ghost use Rattle.btor2_model.specs.Scope as scope;
ghost use Rattle.btor2_model.specs.inner.SlowRun.{computes, known_value, step_with, GivesValue, InputsHave, IsFilled, Knows, StatesHave};

use crate::known::Known;
use crate::known_values::KnownValues;
use crate::operators::{binary, chosen, extended, named_constant, sliced, unary, written_constant};
use crate::rule::FormRule;
use btor2_text::{Argument, Keyword, Line};
use kw_base::Refusal;
use kw_bits::{Bits, NoMemory};
use std::alloc::Global;

/// The values of all lines in a step in which the inputs and the states have these.
pub(crate) fn values_with(
    alloc: Global,
    lines: &[Line],
    inputs: &[Bits],
    states: &KnownValues,
) -> Result<KnownValues, NoMemory>
    requires { acceptance.lines_fault scope.no_lines lines.now ≡ None }
    ensures known { IfOk result (λ values. (all : ℕ → BitVector) → Knows states.now all → Knows values (run.values_with lines.now inputs.now all)) }
    // What depends on inputs and states has a value where each of those has one of its width; all else always has.
    ensures filled { IfOk result (λ values. (given : Bool) → ArePrintable lines.now → (given ≡ true → InputsHave lines.now inputs.now) → (given ≡ true → StatesHave lines.now states.now)
        → IsFilled given (scope.behind_all scope.no_lines lines.now) values) }
{
    let ids = input_ids(alloc, lines)?;
    let mut known = Known::new(alloc, lines.len())?;
    let mut values = KnownValues::new(alloc);
    for line in lines {
        let value = line_value(&known, &values, &ids, inputs, states, line);
        values.set(line.id, value)?;
        declare(&mut known, line)?;
    }
    Ok(values)
}

// Takes what the next line declares, which has no fault.
fn declare(known: &mut Known, line: &Line) -> Result<(), NoMemory>
    requires narrow { AreNarrow (scope_of known.old) }
    requires accepted { acceptance.line_fault (scope_of known.old) line.now ≡ None }
    ensures declared { OnOk result (scope_of known.new ≡ scope.behind (scope_of known.old) line.now) }
    ensures narrow { OnOk result (AreNarrow (scope_of known.new)) }
{
    match known.add(line) {
        Ok(()) => Ok(()),
        Err(Refusal::NoMemory) => Err(NoMemory),
        Err(Refusal::Fault(_)) => unreachable!(),
    }
}

// The ids of the inputs.
fn input_ids(alloc: Global, lines: &[Line]) -> Result<Vec<u64>, NoMemory>
    ensures { IfOk result (λ ids. ids.items ≡ run.ids_of form.is_input lines.now) }
{
    let mut ids = Vec::new(alloc);
    for line in lines {
        if FormRule::of(line.keyword).is_input() {
            ids.push(line.id)?;
        }
    }
    Ok(ids)
}

// The value of a line after others.
fn line_value(
    known: &Known,
    values: &KnownValues,
    ids: &[u64],
    inputs: &[Bits],
    states: &KnownValues,
    line: &Line,
) -> Option<Bits>
    requires { AreNarrow (scope_of known.now) }
    ensures input { form.is_input (form.rule_of line.now.keyword) ≡ true → result ≡ lookup (nat_eq line.now.id) (zip ids.now inputs.now) }
    ensures state { form.is_state (form.rule_of line.now.keyword) ≡ true → result ≡ known_value states.now line.now.id }
    ensures some { computes (form.rule_of line.now.keyword) ≡ true → GivesValue (scope_of known.now) values.now line.now.keyword line.now.arguments result }
    ensures value { (before after : ℕ → BitVector) → Knows states.now before → Knows values.now after
        → IfSome result (λ value. value ≡ run.value_by (form.rule_of line.now.keyword) (step_with ids.now inputs.now before) (scope_of known.now) after line.now) }
{
    match FormRule::of(line.keyword) {
        FormRule::Input => input_value(ids, inputs, line.id),
        FormRule::State => states.get(line.id),
        _ => operator_value(known, values, line.keyword, line.arguments.as_slice()),
    }
}

// The value that an operator or a constant gives, where those of its operands are known.
fn operator_value(
    known: &Known,
    values: &KnownValues,
    keyword: Keyword,
    arguments: &[Argument],
) -> Option<Bits>
    requires { AreNarrow (scope_of known.now) }
    ensures some { GivesValue (scope_of known.now) values.now keyword arguments.now result }
    ensures value { (all : ℕ → BitVector) → Knows values.now all
        → IfSome result (λ value. value ≡ run.operator_value (scope_of known.now) all keyword arguments.now) }
{
    match arguments {
        [Argument::Id(sort)] => named_constant(keyword, known.sort_width(*sort)),
        [Argument::Id(sort), Argument::Numeral(digits)] => {
            written_constant(keyword, known.sort_width(*sort), digits.as_slice())
        }
        [Argument::Id(_), Argument::Id(a)] => unary(keyword, values.get(*a)?),
        [Argument::Id(_), Argument::Id(a), Argument::Id(b)] => {
            binary(keyword, values.get(*a)?, values.get(*b)?)
        }
        [Argument::Id(_), Argument::Id(a), Argument::Number(more)] => {
            extended(keyword, values.get(*a)?, *more)
        }
        [
            Argument::Id(_),
            Argument::Id(a),
            Argument::Number(upper),
            Argument::Number(lower),
        ] => sliced(values.get(*a)?, *upper, *lower),
        [
            Argument::Id(_),
            Argument::Id(condition),
            Argument::Id(a),
            Argument::Id(b),
        ] => Some(chosen(values.get(*condition)?, values.get(*a)?, values.get(*b)?)),
        _ => None,
    }
}

// The value that is given for an input.
fn input_value(ids: &[u64], inputs: &[Bits], id: u64) -> Option<Bits>
    ensures { result ≡ lookup (nat_eq id) (zip ids.now inputs.now) }
{
    for (place, known) in ids.iter().enumerate() {
        if id == *known {
            return inputs.get(place).copied();
        }
    }
    None
}
