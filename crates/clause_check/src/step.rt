//! Refutations: what a line says.

ghost use Rattle.std.specs.Prelude.{◌≡◌, [], IfOk, OnOk, Some};
ghost use Rattle.kw_base.specs.Fault.{IfFault};
ghost use Rattle.kw_base.specs.declared.fault.Refusal.TheVariants as refusals;
ghost use Rattle.clause_check.specs.Lines.{tokens_of};
ghost use Rattle.clause_check.specs.Refutations.{fault_in};
ghost use Rattle.clause_check.specs.Steps.{at_end, literals_in, numbered_in, numbers_in, step_of};
ghost use Rattle.clause_check.specs.inner.Tokens.{AreWithin, FormIsWithin, IsMalformed, step_by};

use crate::fault_number::MALFORMED_STEP;
use crate::literal::Literal;
use crate::token::{LiteralToken, NumberToken, after_letter, next_literal, next_number};
use kw_base::texts::without_blanks;
use kw_base::{Fault, Place, Refusal};
use std::alloc::Global;

/// The form of a line: it is skipped, adds a clause with a number, or drops clauses.
#[derive(Clone, Copy, Debug, PartialEq, Eq)]
pub(crate) enum Form {
    Skips,
    Adds(u64),
    Drops,
}

/// The lists of the last line that was read: the literals of its clause, and its hints or the numbers that it drops.
#[derive(Drop)]
pub(crate) struct Lists {
    pub(crate) literals: Vec<Literal>,
    pub(crate) numbers: Vec<u64>,
}

impl Lists {
    pub(crate) fn new(alloc: Global) -> Lists {
        Lists {
            literals: Vec::new(alloc),
            numbers: Vec::new(alloc),
        }
    }
}

/// The form of the line of this number. Its lists are put in the place of those of the line before.
pub(crate) fn read_step(
    variables: u32,
    bytes: &[u8],
    line: u32,
    lists: &mut Lists,
) -> Result<Form, Refusal>
    ensures read { IfOk result (λ form. step_of variables (tokens_of bytes.now) ≡ Some (step_by form lists.new.literals.items lists.new.numbers.items)) }
    ensures within { IfOk result (λ form. FormIsWithin variables form lists.new.literals.items) }
    ensures fault { IfFault result (IsMalformed line (step_of variables (tokens_of bytes.now))) }
{
    if without_blanks(bytes).is_empty() {
        return Ok(Form::Skips);
    }
    if after_letter(bytes, b'c').is_some() {
        return Ok(Form::Skips);
    }
    match next_number(bytes) {
        NumberToken::Number(number, rest) => read_numbered(variables, number, rest, line, lists),
        NumberToken::Closing(_) => Err(fault(MALFORMED_STEP, line)),
        NumberToken::Malformed => Err(fault(MALFORMED_STEP, line)),
    }
}

// The form of a line of which the number is read.
fn read_numbered(
    variables: u32,
    number: u64,
    bytes: &[u8],
    line: u32,
    lists: &mut Lists,
) -> Result<Form, Refusal>
    ensures read { IfOk result (λ form. numbered_in variables number (tokens_of bytes.now) ≡ Some (step_by form lists.new.literals.items lists.new.numbers.items)) }
    ensures within { IfOk result (λ form. FormIsWithin variables form lists.new.literals.items) }
    ensures fault { IfFault result (IsMalformed line (numbered_in variables number (tokens_of bytes.now))) }
{
    if let Some(rest) = after_letter(bytes, b'd') {
        read_numbers(rest, line, &mut lists.numbers)?;
        return Ok(Form::Drops);
    }
    let rest = read_literals(variables, bytes, line, &mut lists.literals)?;
    read_numbers(rest, line, &mut lists.numbers)?;
    Ok(Form::Adds(number))
}

// The literals up to a closing token, and the bytes after it.
fn read_literals<'a>(
    variables: u32,
    bytes: &'a [u8],
    line: u32,
    literals: &mut Vec<Literal>,
) -> Result<&'a [u8], Refusal>
    ensures read { IfOk result (λ rest. literals_in variables (tokens_of bytes.now) ≡ Some (literals.new.items, tokens_of rest.now)) }
    ensures within { OnOk result (AreWithin variables literals.new.items) }
    ensures fault { IfFault result (IsMalformed line (literals_in variables (tokens_of bytes.now))) }
{
    literals.clear();
    let mut rest = bytes;
    'tokens: loop {
        match next_literal(variables, rest) {
            LiteralToken::Literal(literal, after) => {
                literals.push(literal)?;
                rest = after;
            }
            LiteralToken::Closing(after) => return Ok(after),
            LiteralToken::Malformed => return Err(fault(MALFORMED_STEP, line)),
        }
    }
}

// The numbers up to a closing token, which is the line's last.
fn read_numbers(bytes: &[u8], line: u32, numbers: &mut Vec<u64>) -> Result<(), Refusal>
    ensures read { OnOk result (numbers_in (tokens_of bytes.now) ≡ Some numbers.new.items) }
    ensures fault { IfFault result (IsMalformed line (numbers_in (tokens_of bytes.now))) }
{
    numbers.clear();
    let mut rest = bytes;
    'tokens: loop {
        match next_number(rest) {
            NumberToken::Number(number, after) => {
                numbers.push(number)?;
                rest = after;
            }
            NumberToken::Closing(after) => return end_of_line(after, line),
            NumberToken::Malformed => return Err(fault(MALFORMED_STEP, line)),
        }
    }
}

// No token is left.
fn end_of_line(bytes: &[u8], line: u32) -> Result<(), Refusal>
    ensures end { OnOk result (tokens_of bytes.now ≡ []) }
    ensures fault { IfFault result (IsMalformed line (at_end (tokens_of bytes.now))) }
{
    if without_blanks(bytes).is_empty() {
        Ok(())
    } else {
        Err(fault(MALFORMED_STEP, line))
    }
}

/// The fault of this number in the line of this number, at its first column.
pub(crate) fn fault(number: u32, line: u32) -> Refusal
    ensures { result ≡ refusals.Fault (fault_in number line) }
{
    Refusal::Fault(Fault::new(number, Place { line, column: 1 }))
}
