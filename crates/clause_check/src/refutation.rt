//! Refutations: the check of a text.

ghost use Rattle.std.specs.Prelude.{◌≡◌, OnOk, None, Ok, Some};
ghost use Rattle.kw_base.specs.Fault.{IfFault};
ghost use Rattle.clause_check.specs.Clauses.{IsUnsatisfiable};
ghost use Rattle.clause_check.specs.Refutations.{added, after_line, dropped, fault_of};
ghost use Rattle.clause_check.specs.inner.Progresses.{IsFaultOf, IsReady, progress_of};
ghost use Rattle.clause_check.specs.inner.Tokens.{AreWithin};

use crate::database::Database;
use crate::fault_number::{MALFORMED_STEP, NOT_REFUTED, WRONG_STEP};
use crate::formula::Formula;
use crate::step::{Form, Lists, fault, read_step};
use crate::values::Values;
use kw_base::Refusal;
use kw_base::texts::next_line;
use std::alloc::Global;

/// What is known after some lines: the clauses that are there, and the values of variables, which are all open.
#[derive(Drop)]
pub(crate) struct Checker {
    pub(crate) database: Database,
    pub(crate) values: Values,
}

/// Checks that a text, whose first line has this number in its source, refutes a formula. The fault is that of the
/// first line with one, at its first column: 93 where it is of no form, 94 where a clause doesn't follow by its hints or
/// a dropped one isn't there. If there is none of these, 95 one line past the last, where neither the formula nor any
/// line has the clause without literals.
pub fn check_refutation(
    alloc: Global,
    formula: &Formula,
    bytes: &[u8],
    first_line: u32,
) -> Result<(), Refusal>
    ensures taken { OnOk result (fault_of formula.now first_line bytes.now ≡ None) }
    ensures refuted { OnOk result (IsUnsatisfiable formula.now.clauses) }
    ensures fault { IfFault result (λ fault. fault_of formula.now first_line bytes.now ≡ Some fault) }
{
    let variables = formula.variables();
    let database = Database::of_formula(alloc, formula)?;
    let values = Values::new(alloc, variables)?;
    let mut checker = Checker { database, values };
    let mut lists = Lists::new(alloc);
    let mut number = first_line;
    let mut rest = bytes;
    while let Some(cut) = next_line(rest) {
        add_line(
            alloc,
            &mut checker,
            &mut lists,
            variables,
            cut.bytes,
            number,
        )?;
        number = number.saturating_add(1);
        rest = cut.rest;
    }
    if checker.database.is_refuted {
        Ok(())
    } else {
        Err(fault(NOT_REFUTED, number))
    }
}

// Takes what the line of this number says.
fn add_line(
    alloc: Global,
    checker: &mut Checker,
    lists: &mut Lists,
    variables: u32,
    bytes: &[u8],
    line: u32,
) -> Result<(), Refusal>
    requires { IsReady variables checker.old }
    ensures ok { OnOk result (after_line variables bytes.now (progress_of checker.old.database) ≡ Ok (progress_of checker.new.database)) }
    ensures ready { OnOk result (IsReady variables checker.new) }
    ensures fault { IfFault result (IsFaultOf line (after_line variables bytes.now (progress_of checker.old.database))) }
{
    let form = read_step(variables, bytes, line, lists)?;
    match form {
        Form::Skips => Ok(()),
        Form::Adds(number) => add(alloc, checker, variables, number, lists, line),
        Form::Drops => drop_all(alloc, checker, variables, lists.numbers.as_slice(), line),
    }
}

// Adds a clause with this number, if it is above all others and the clause follows by its hints.
fn add(
    alloc: Global,
    checker: &mut Checker,
    variables: u32,
    number: u64,
    lists: &Lists,
    line: u32,
) -> Result<(), Refusal>
    requires ready { IsReady variables checker.old }
    requires within { AreWithin variables lists.now.literals.items }
    ensures ok { OnOk result (added number lists.now.literals.items lists.now.numbers.items (progress_of checker.old.database) ≡ Ok (progress_of checker.new.database)) }
    ensures ready { OnOk result (IsReady variables checker.new) }
    ensures fault { IfFault result (IsFaultOf line (added number lists.now.literals.items lists.now.numbers.items (progress_of checker.old.database))) }
{
    let _variables = variables;
    if number <= checker.database.last {
        return Err(fault(MALFORMED_STEP, line));
    }
    let clause = lists.literals.as_slice();
    let hints = lists.numbers.as_slice();
    let follows = checker.values.follows(&checker.database, clause, hints)?;
    if !follows {
        return Err(fault(WRONG_STEP, line));
    }
    checker.database.add(number, clause)?;
    checker.database.tidy(alloc)?;
    Ok(())
}

// Drops clauses one after another, if they are there.
fn drop_all(
    alloc: Global,
    checker: &mut Checker,
    variables: u32,
    numbers: &[u64],
    line: u32,
) -> Result<(), Refusal>
    requires { IsReady variables checker.old }
    ensures ok { OnOk result (dropped numbers.now (progress_of checker.old.database) ≡ Ok (progress_of checker.new.database)) }
    ensures ready { OnOk result (IsReady variables checker.new) }
    ensures fault { IfFault result (IsFaultOf line (dropped numbers.now (progress_of checker.old.database))) }
{
    let _variables = variables;
    remove_all(&mut checker.database, numbers, line)?;
    checker.database.tidy(alloc)?;
    Ok(())
}

fn remove_all(database: &mut Database, numbers: &[u64], line: u32) -> Result<(), Refusal>
    ensures ok { OnOk result (dropped numbers.now (progress_of database.old) ≡ Ok (progress_of database.new)) }
    ensures variables { database.new.variables ≡ database.old.variables }
    ensures fault { IfFault result (IsFaultOf line (dropped numbers.now (progress_of database.old))) }
{
    let mut rest = numbers;
    while let Some((number, others)) = rest.split_first() {
        if !database.remove(*number) {
            return Err(fault(WRONG_STEP, line));
        }
        rest = others;
    }
    Ok(())
}
