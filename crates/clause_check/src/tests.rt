//! Refutations: texts with their answers.

ghost use Rattle.std.specs.Prelude.{◌≡◌, ◌≤◌, OnOk};
ghost use Rattle.clause_check.specs.Clauses.{IsLiteral};

use crate::{Formula, Literal, check_refutation, push_dimacs};
use kw_base::{Fault, Refusal};
use kw_bits::{NoMemory, Text};
use std::alloc::Global;
use std::test::Fail;

fn add_one(formula: &mut Formula, a: Literal) -> Result<(), NoMemory>
    requires few { formula.old.variables ≡ 3 }
    requires a { IsLiteral 3 a }
    ensures { OnOk result (formula.new.variables ≡ 3) }
{
    formula.push(&[a])
}

fn add_two(formula: &mut Formula, a: Literal, b: Literal) -> Result<(), NoMemory>
    requires few { formula.old.variables ≡ 3 }
    requires a { IsLiteral 3 a }
    requires b { IsLiteral 3 b }
    ensures { OnOk result (formula.new.variables ≡ 3) }
{
    formula.push(&[a, b])
}

fn literal(variable: u32, is_negated: bool) -> Literal
    requires some { 1 ≤ variable }
    requires few { variable ≤ 3 }
    ensures { IsLiteral 3 result }
{
    Literal {
        variable,
        is_negated,
    }
}

// Clauses 1 to 4 over 3 variables: `1`, `-1 2`, `-2 3`, `-3 -1`.
fn chain(alloc: Global) -> Result<Formula, NoMemory> {
    let mut formula = Formula::new(alloc, 3);
    add_one(&mut formula, literal(1, false))?;
    add_two(&mut formula, literal(1, true), literal(2, false))?;
    add_two(&mut formula, literal(2, true), literal(3, false))?;
    add_two(&mut formula, literal(3, true), literal(1, true))?;
    Ok(formula)
}

// The number and the line of the fault, or zeros.
fn answer(alloc: Global, formula: &Formula, text: &[u8]) -> Result<(u32, u32), NoMemory> {
    match check_refutation(alloc, formula, text, 7) {
        Ok(()) => Ok((0, 0)),
        Err(Refusal::Fault(fault)) => Ok((fault.number, fault.line)),
        Err(Refusal::NoMemory) => Err(NoMemory),
    }
}

#[test]
fn dimacs_text(rt: HostRuntime) -> Result<(), Fail> {
    let formula = chain(rt.alloc())?;
    let mut text = Text::new(rt.alloc());
    push_dimacs(&mut text, &formula)?;
    assert_eq!(rt;
        text.as_slice(),
        b"p cnf 3 4\n1 0\n-1 2 0\n-2 3 0\n-3 -1 0\n".as_slice()
    );
    Ok(())
}

#[test]
fn refutations(rt: HostRuntime) -> Result<(), Fail> {
    let alloc = rt.alloc();
    let formula = chain(alloc)?;
    let cases: [(&[u8], u32, u32); 40] = [
        (b"5 0 1 2 3 4 0", 0, 0),
        (b"5 0 1 2 3 4 0\n", 0, 0),
        (b"5 0 1 2 3 4 0\r\n", 0, 0),
        (b"\t5\t0 1  2 3\t4 0 \n", 0, 0),
        (b"5 2 0 1 2 0\n6 3 0 5 3 0\n7 0 6 4 1 0\n", 0, 0),
        (b"005 0 01 2 3 4 0\n", 0, 0),
        (b"c a comment\n\n  \nc\n5 0 1 2 3 4 0\nc x\n", 0, 0),
        (b"5 0 1 2 3 4 0\n6 0 0\n", 94, 8),
        (b"5 0 1 2 3 4 0\nx\n", 93, 8),
        (b"5 0 1 2 3 4 0\n5 0 1 2 3 4 0\n", 93, 8),
        (b"5 0 1 2 3 4 0\n5 d 5 0\n", 0, 0),
        (b"5 0 1 2 3 4 0\n5 d 5 5 0\n", 94, 8),
        (b"4 0 1 2 3 4 0\n", 93, 7),
        (b"5 0 1 2 3 0\n", 94, 7),
        (b"5 0 1 2 2 2 3 4 0\n", 0, 0),
        (b"5 0 2 1 3 4 0\n", 94, 7),
        (b"5 0 1 2 3 4 9 0\n", 0, 0),
        (b"5 0 1 9 2 3 4 0\n", 94, 7),
        (b"5 1 -1 0 0\n", 95, 8),
        (b"5 2 2 -2 0 9 0\n", 95, 8),
        (b"5 -1 -1 0 2 3 4 0\n6 0 5 1 0\n", 0, 0),
        (b"5 4 0 1 2 3 4 0\n", 93, 7),
        (b"5 -4 0 1 2 3 4 0\n", 93, 7),
        (b"5 - 0 1 2 3 4 0\n", 93, 7),
        (b"5 -0 0 1 2 3 4 0\n", 93, 7),
        (b"5 0 1 2 3 4 00\n", 93, 7),
        (b"5 00 1 2 3 4 0\n", 93, 7),
        (b"5 0 1 2 3 4\n", 93, 7),
        (b"5 0 1 2 3 4 0 0\n", 93, 7),
        (b"5 0 1 2 -3 4 0\n", 93, 7),
        (b"0 0 1 2 3 4 0\n", 93, 7),
        (b"9223372036854775807 0 1 2 3 4 0\n", 0, 0),
        (b"9223372036854775808 0 1 2 3 4 0\n", 93, 7),
        (b"99999999999999999999999 0 1 2 3 4 0\n", 93, 7),
        (b"1 d 1 0\n5 0 1 2 3 4 0\n", 94, 8),
        (b"1 d 9 0\n", 94, 7),
        (b"0 d 1 0\n", 93, 7),
        (b"1 d 0\n5 0 1 2 3 4 0", 0, 0),
        (b"", 95, 7),
        (b"5 0 9 0 1\n", 93, 7),
    ];
    for (text, number, line) in &cases {
        assert_eq!(rt; answer(alloc, &formula, text)?, (*number, *line));
    }
    Ok(())
}
