//! Circuits: the slow run of an accepted file, the plain program of its definition.

// The run of a text, step by step.
ghost use Rattle.std.specs.Prelude.{◌≡◌, ◌==◌, ℕ, All, false, true, None, Some, map, IfOk, IfSome, IsSome};
ghost use Rattle.kw_bits.specs.BitVector.{BitVector};
ghost use Rattle.btor2_text.specs.Printable.{ArePrintable};
ghost use Rattle.one_rule.specs.Stimulus.{inputs_of};
ghost use Rattle.btor2_model.specs.Acceptance as acceptance;
ghost use Rattle.btor2_model.specs.inner.Known.{scope_of};
ghost use Rattle.btor2_model.specs.Rules as form;
ghost use Rattle.btor2_model.specs.Run as run;
ghost use Rattle.btor2_model.specs.Scope as scope;
ghost use Rattle.btor2_model.specs.inner.SlowRun.{is_flag, known_value, IsFilled, Knows, StatesHave};

use crate::acceptance::declared;
use crate::arguments::id_at;
use crate::btor::Btor;
use crate::known::Known;
use crate::known_values::KnownValues;
use crate::line_values::values_with;
use crate::rule::FormRule;
use crate::states::{first_values, next_values, state_ids};
use btor2_text::Line;
use kw_base::Refusal;
use kw_bits::{Bits, NoMemory};
use one_rule::{FiredSet, Regs, Row, Rows, Stimulus};
use std::alloc::{AllocError, Global};

/// The rows of a text's run of n cycles, each line evaluated anew in each step. There always are for a stimulus of the
/// inputs' widths; for another one there may be none.
pub fn slow_run(
    alloc: Global,
    text: &Btor,
    stimulus: &Stimulus,
    n: u32,
) -> Result<Option<Rows>, NoMemory>
    ensures rows { IfOk result (λ rows. IfSome rows (λ rows. rows ≡ run.run_of text.now (inputs_of stimulus.now) n)) }
    ensures always { stimulus.now.widths ≡ map (run.width_in text.now) (run.ids_of form.is_input text.now) → IfOk result (λ rows. IsSome rows) }
{
    let lines = text.lines().as_slice();
    let known = all_declared(alloc, lines)?;
    let mut states = first_values(alloc, &known, lines)?;
    let Some(first) = first_row(alloc, &known, lines, &states)? else {
        return Ok(None);
    };
    let mut rows = Rows::new(alloc);
    rows.push(first)?;
    for step in 0..n {
        let inputs = stimulus.inputs(step + 1)?;
        let values = values_with(alloc, lines, inputs.as_slice(), &states)?;
        states = next_values(alloc, lines, &values)?;
        let Some(row) = row_behind(alloc, &known, lines, &values, &states)? else {
            return Ok(None);
        };
        rows.push(row)?;
    }
    Ok(Some(rows))
}

// What all lines declare, of which none has a fault.
fn all_declared(alloc: Global, lines: &[Line]) -> Result<Known, NoMemory>
    requires { acceptance.lines_fault scope.no_lines lines.now ≡ None }
    ensures { IfOk result (λ known. scope_of known ≡ scope.behind_all scope.no_lines lines.now) }
{
    match declared(alloc, lines) {
        Ok(known) => Ok(known),
        Err(Refusal::NoMemory) => Err(NoMemory),
        Err(Refusal::Fault(_)) => unreachable!(),
    }
}

// The row before all steps.
fn first_row(
    alloc: Global,
    known: &Known,
    lines: &[Line],
    states: &KnownValues,
) -> Result<Option<Row>, NoMemory>
    requires declared { scope_of known.now ≡ scope.behind_all scope.no_lines lines.now }
    requires states { Knows states.now (run.first_state_values lines.now) }
    ensures row { IfOk result (λ row. IfSome row (λ row. row ≡ run.first_row lines.now)) }
    ensures some { IfOk result (λ row. StatesHave lines.now states.now → IsSome row) }
{
    let Some(regs) = values_of(alloc, &state_ids(alloc, lines)?, states)? else {
        return Ok(None);
    };
    let ids = flag_ids(alloc, known, lines)?;
    Ok(Some(Row {
        regs,
        fired: FiredSet::from_vec(no_flags(alloc, ids.as_slice())?),
    }))
}

// The row after a step, by the values of lines in it and those of the states after it.
fn row_behind(
    alloc: Global,
    known: &Known,
    lines: &[Line],
    values: &KnownValues,
    states: &KnownValues,
) -> Result<Option<Row>, NoMemory>
    requires { scope_of known.now ≡ scope.behind_all scope.no_lines lines.now }
    ensures row { IfOk result (λ row. IfSome row (λ row. (before after : ℕ → BitVector) → Knows values.now before → Knows states.now after
        → row ≡ record { regs = map after (run.ids_of form.is_state lines.now); fired = map (λ id. (before id).number == 1) (run.flag_ids lines.now) })) }
    ensures some { IfOk result (λ row. acceptance.lines_fault scope.no_lines lines.now ≡ None → ArePrintable lines.now → IsFilled true (scope.behind_all scope.no_lines lines.now) values.now
        → StatesHave lines.now states.now → IsSome row) }
{
    let Some(regs) = values_of(alloc, &state_ids(alloc, lines)?, states)? else {
        return Ok(None);
    };
    let Some(outputs) = values_of(alloc, &flag_ids(alloc, known, lines)?, values)? else {
        return Ok(None);
    };
    Ok(Some(Row {
        regs,
        fired: FiredSet::from_vec(flags(alloc, outputs.as_slice())?),
    }))
}

// The ids that outputs of one bit name.
fn flag_ids(alloc: Global, known: &Known, lines: &[Line]) -> Result<Vec<u64>, NoMemory>
    requires { scope_of known.now ≡ scope.behind_all scope.no_lines lines.now }
    ensures { IfOk result (λ ids. ids.items ≡ run.flag_ids lines.now) }
{
    let mut ids = Vec::new(alloc);
    for line in lines {
        if is_flag(known, line) {
            ids.push(id_at(line.arguments.as_slice(), 0))?;
        }
    }
    Ok(ids)
}

// Whether a line is an output of one bit.
fn is_flag(known: &Known, line: &Line) -> bool
    ensures { result ≡ is_flag (scope_of known.now) line.now }
{
    FormRule::of(line.keyword).is_output() && known.width(id_at(line.arguments.as_slice(), 0)) == 1
}

// The values of these ids, if all are known.
fn values_of(alloc: Global, ids: &[u64], values: &KnownValues) -> Result<Option<Regs>, NoMemory>
    ensures values { IfOk result (λ found. IfSome found (λ found. (all : ℕ → BitVector) → Knows values.now all → found ≡ map all ids.now)) }
    ensures some { IfOk result (λ found. All (λ id. IsSome (known_value values.now id)) ids.now → IsSome found) }
{
    let mut found = Regs::new(alloc);
    for id in ids {
        let Some(value) = values.get(*id) else {
            return Ok(None);
        };
        found.push(value)?;
    }
    Ok(Some(found))
}

// Whether each value is 1.
fn flags(alloc: Global, values: &[Bits]) -> Result<Vec<bool>, AllocError>
    ensures { IfOk result (λ fired. fired.items ≡ map (λ (value : BitVector). value.number == 1) values.now) }
{
    values
        .iter()
        .map(|value| value.number() == 1)
        .collect(alloc)
}

// As many flags, none of them up.
fn no_flags(alloc: Global, ids: &[u64]) -> Result<Vec<bool>, AllocError>
    ensures { IfOk result (λ fired. fired.items ≡ map (λ (_ : ℕ). false) ids.now) }
{
    ids.iter().map(|_| false).collect(alloc)
}
