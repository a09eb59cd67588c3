//! Invariants: the reader.

ghost use Rattle.std.specs.Prelude.{◌≡◌, ◌<◌, false, IfOk, OnOk, IsTrue, length, sum, All, Ok, Err, slice_index_or};
ghost use Rattle.kw_base.specs.Fault.{IfFault, fault_at};
ghost use Rattle.kw_base.specs.declared.fault.Refusal.TheVariants as refusals;
ghost use Rattle.kw_base.specs.Texts.{lines_of};
ghost use Rattle.clause_check.specs.Clauses.{IsLiteral, clause_value};
ghost use Rattle.aig_blast.specs.Aigs.{latch_widths};
ghost use Rattle.aig_blast.specs.AigRun.{first_words};
ghost use Rattle.invariant_check.specs.Bits.{bit_values, register_bits};
ghost use Rattle.invariant_check.specs.Invariants.{clause_of, clauses_from, invariant_of};
ghost use Rattle.invariant_check.specs.Kept.{HaveLiterals, is_true_of};
ghost use Rattle.invariant_check.specs.Words as words;
ghost use Rattle.invariant_check.specs.inner.Reading.{AreRead, with_line};

use crate::bits::Registers;
use crate::fault_number::{FALSE_AT_FIRST, WRONG_LITERAL};
use aig_blast::Aig;
use clause_check::{Formula, Literal};
use kw_base::texts::{Separator, next_line, next_word};
use kw_base::{Fault, Place, Refusal};
use std::alloc::Global;

/// The invariant of a text whose first line has this number in its source: clauses over the bits of a circuit's
/// registers, numbered from 1. The fault is that of the first word that is no literal, 91 at its first byte; if there
/// is none, 92 in the line of the first clause that is false of the first values, at its first column.
pub fn read_invariant(
    alloc: Global,
    aig: &Aig,
    bytes: &[u8],
    first_line: u32,
) -> Result<Formula, Refusal>
    ensures invariant { IfOk result (λ invariant. invariant_of (register_bits aig.now.latches)
        (first_words aig.now.latches) first_line bytes.now
        ≡ Ok invariant.clauses) }
    ensures variables { IfOk result (λ invariant. invariant.variables ≡ sum (latch_widths aig.now.latches)) }
    ensures literals { IfOk result (λ invariant. HaveLiterals invariant.clauses) }
    ensures first { IfOk result (λ invariant. IsTrue (is_true_of invariant.clauses (first_words aig.now.latches))) }
    ensures fault { IfFault result (λ fault. invariant_of (register_bits aig.now.latches)
        (first_words aig.now.latches) first_line bytes.now ≡ Err fault) }
{
    let registers = Registers::new(alloc, aig.latches.as_slice())?;
    let clauses = read_clauses(alloc, &registers, bytes, first_line)?;
    match clauses.false_line {
        Some(line) => Err(fault(FALSE_AT_FIRST, Place { line, column: 1 })),
        None => Ok(clauses.formula),
    }
}

// Clauses, and the line of the first that is false of the first values.
#[derive(Drop)]
struct Clauses {
    formula: Formula,
    false_line: Option<u32>,
}

// The clauses of a text.
fn read_clauses(
    alloc: Global,
    registers: &Registers<'_>,
    bytes: &[u8],
    first_line: u32,
) -> Result<Clauses, Refusal>
    ensures read { IfOk result
        (λ clauses. AreRead (clauses_from (register_bits registers.now.latches.now) first_line (lines_of bytes.now))
        (bit_values (first_words registers.now.latches.now)) clauses.formula.clauses clauses.false_line) }
    ensures literals { IfOk result (λ clauses. HaveLiterals clauses.formula.clauses) }
    ensures variables { IfOk result (λ clauses. clauses.formula.variables
        ≡ sum (latch_widths registers.now.latches.now)) }
    ensures fault { IfFault result
        (λ fault. clauses_from (register_bits registers.now.latches.now) first_line (lines_of bytes.now) ≡ Err fault) }
{
    let count = registers.count()?;
    let mut formula = Formula::new(alloc, count);
    let mut false_line = None;
    let mut clause: Vec<Literal> = Vec::new(alloc);
    let mut number = first_line;
    let mut rest = bytes;
    while let Some(cut) = next_line(rest) {
        read_line(registers, cut.bytes, number, &mut clause)?;
        let line = number;
        number = number.saturating_add(1);
        rest = cut.rest;
        if clause.is_empty() {
            continue;
        }
        false_line = first_false(
            false_line,
            registers.firsts.as_slice(),
            clause.as_slice(),
            line,
        );
        formula.push(clause.as_slice())?;
    }
    Ok(Clauses {
        formula,
        false_line,
    })
}

// Reads the literals of the line of this number.
fn read_line(
    registers: &Registers<'_>,
    bytes: &[u8],
    line: u32,
    clause: &mut Vec<Literal>,
) -> Result<(), Refusal>
    ensures read { OnOk result (clause_of (register_bits registers.now.latches.now) line bytes.now
        ≡ Ok clause.new.items) }
    ensures literals { OnOk result (All (IsLiteral (length (register_bits registers.now.latches.now))) clause.new.items) }
    ensures fault { IfFault result (λ fault. clause_of (register_bits registers.now.latches.now) line bytes.now
        ≡ Err fault) }
{
    clause.clear();
    let mut column: usize = 1;
    let mut rest = bytes;
    while let Some(word) = next_word(rest, Separator::Blank) {
        let place = place_in(line, column + word.blanks);
        let Some(literal) = registers.literal(word.bytes) else {
            return Err(fault(WRONG_LITERAL, place));
        };
        clause.push(literal)?;
        column += word.blanks + word.bytes.len();
        rest = word.rest;
    }
    Ok(())
}

// The place of a column in a line.
fn place_in(line: u32, column: usize) -> Place
    ensures { result ≡ words.place_in line column }
{
    match u32::try_from(column) {
        Ok(column) => Place { line, column },
        Err(_) => Place {
            line,
            column: u32::MAX,
        },
    }
}

fn fault(number: u32, place: Place) -> Refusal
    ensures { result ≡ refusals.Fault (fault_at number place) }
{
    Refusal::Fault(Fault::new(number, place))
}

// The line of the first clause that is false: the one before, if there is one, or else this one, if its clause is
// false.
fn first_false(before: Option<u32>, values: &[bool], clause: &[Literal], line: u32) -> Option<u32>
    requires { All (λ literal. literal.variable < length values.now) clause.now }
    ensures { result ≡ with_line before (clause_value (λ v. slice_index_or values.now v false) clause.now) line }
{
    if before.is_some() {
        return before;
    }
    if is_true(values, clause) {
        None
    } else {
        Some(line)
    }
}

// Whether a clause is true, by the values of variables.
fn is_true(values: &[bool], clause: &[Literal]) -> bool
    requires { All (λ literal. literal.variable < length values.now) clause.now }
    ensures { result ≡ clause_value (λ v. slice_index_or values.now v false) clause.now }
{
    for literal in clause {
        if values[literal.variable as usize] != literal.is_negated {
            return true;
        }
    }
    false
}
