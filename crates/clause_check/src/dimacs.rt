//! Clauses: the DIMACS text of a formula.

ghost use Rattle.std.specs.Prelude.{◌≡◌, ◌++◌, decimal, flat_map, OnOk};
ghost use Rattle.clause_check.specs.Dimacs.{clause_line, dimacs_of, literal_text, problem_line};
ghost use Rattle.clause_check.specs.Flat.{clauses_by};

use crate::formula::{Clauses, Formula, first_clause};
use crate::literal::Literal;
use itoa::Buffer;
use kw_bits::{NoMemory, Text};

/// Adds the text of a formula: the line `p cnf V C` and a line for each clause.
#[tactic(auto, unfolding(crate::specs::Dimacs::dimacs_of))]
pub fn push_dimacs(text: &mut Text, formula: &Formula) -> Result<(), NoMemory>
    ensures { OnOk result (text.new ≡ text.old ++ dimacs_of formula.now) }
{
    push_problem(text, formula)?;
    push_clauses(text, formula.clauses())
}

fn push_problem(text: &mut Text, formula: &Formula) -> Result<(), NoMemory>
    ensures { OnOk result (text.new ≡ text.old ++ problem_line formula.now) }
{
    text.extend_from_slice(b"p cnf ")?;
    push_number(text, u64::from(formula.variables()))?;
    text.extend_from_slice(b" ")?;
    push_number(text, formula.len() as u64)?;
    text.push(b'\n')
}

fn push_clauses(text: &mut Text, clauses: Clauses<'_>) -> Result<(), NoMemory>
    ensures { OnOk result (text.new ≡ text.old ++ flat_map clause_line (clauses_by clauses.entry.literals.now clauses.entry.lengths.now)) }
{
    let mut rest = clauses;
    while let Some(first) = first_clause(rest) {
        push_clause(text, first.clause)?;
        rest = first.rest;
    }
    Ok(())
}

fn push_clause(text: &mut Text, clause: &[Literal]) -> Result<(), NoMemory>
    ensures { OnOk result (text.new ≡ text.old ++ clause_line clause.now) }
{
    push_literals(text, clause)?;
    text.extend_from_slice(b"0\n")
}

fn push_literals(text: &mut Text, clause: &[Literal]) -> Result<(), NoMemory>
    ensures { OnOk result (text.new ≡ text.old ++ flat_map literal_text clause.now) }
{
    for literal in clause {
        push_literal(text, *literal)?;
    }
    Ok(())
}

fn push_literal(text: &mut Text, literal: Literal) -> Result<(), NoMemory>
    ensures { OnOk result (text.new ≡ text.old ++ literal_text literal) }
{
    if literal.is_negated {
        text.push(b'-')?;
    }
    push_number(text, u64::from(literal.variable))?;
    text.push(b' ')
}

fn push_number(text: &mut Text, number: u64) -> Result<(), NoMemory>
    ensures { OnOk result (text.new ≡ text.old ++ decimal number) }
{
    let mut buffer = Buffer::new();
    text.extend_from_slice(buffer.format(number).as_bytes())
}
