//! The literals of an AIGER text, numbered as the graph numbers them.

ghost use Rattle.std.specs.Prelude.{◌≡◌, ◌+◌, ◌≤◌, ◌^◌, length, IfOk, Ok, Err};
ghost use Rattle.kw_base.specs.Fault.{IfFault};
ghost use Rattle.kw_base.specs.Place.{capped};
ghost use Rattle.kw_base.specs.declared.fault.Refusal.TheVariants as refusals;
ghost use Rattle.aiger_text.specs.Drafts.{fault_in};
ghost use Rattle.aiger_text.specs.Reading as reading;

use crate::variables::Variables;
use aig_blast::{Gate, Lit};
use kw_base::fault_number::UNDEFINED_VARIABLE;
use kw_base::{Fault, Place, Refusal};
use std::alloc::Global;

/// The literals of lines, the first of this number, with places below a bound for their variables. The first that has
/// none is a fault.
pub(crate) fn all_placed(
    alloc: Global,
    variables: &Variables,
    bound: u64,
    first_line: u32,
    lits: &[Lit],
) -> Result<Vec<Lit>, Refusal>
    requires { length variables.now ≤ 2 ^ 60 }
    ensures placed { IfOk result (λ placed. reading.all_placed variables.now bound first_line lits.now ≡ Ok placed.items) }
    ensures fault { IfFault result (λ fault. reading.all_placed variables.now bound first_line lits.now ≡ Err fault) }
{
    let mut found = Vec::with_capacity(alloc, lits.len())?;
    let mut number = first_line;
    for lit in lits {
        let Some(other) = placed(variables, bound, *lit) else {
            return Err(undefined(number));
        };
        found.push(other)?;
        number = number.saturating_add(1);
    }
    Ok(found)
}

/// The gates of lines, the first of this number, each over variables with places below a bound, which is one more for
/// each.
pub(crate) fn gates_placed(
    alloc: Global,
    variables: &Variables,
    first_bound: u64,
    first_line: u32,
    gates: &[Gate],
) -> Result<Vec<Gate>, Refusal>
    requires variables { length variables.now ≤ 2 ^ 60 }
    requires bound { first_bound + length gates.now ≤ 2 ^ 61 }
    ensures placed { IfOk result (λ placed. reading.gates_placed variables.now first_bound first_line gates.now ≡ Ok placed.items) }
    ensures fault { IfFault result (λ fault. reading.gates_placed variables.now first_bound first_line gates.now ≡ Err fault) }
{
    let mut found = Vec::with_capacity(alloc, gates.len())?;
    let mut bound = first_bound;
    let mut number = first_line;
    for gate in gates {
        let Some(other) = placed_gate(variables, bound, gate) else {
            return Err(undefined(number));
        };
        found.push(other)?;
        bound += 1;
        number = number.saturating_add(1);
    }
    Ok(found)
}

// The fault of a line with a literal that has no place.
fn undefined(number: u32) -> Refusal
    ensures { result ≡ refusals.Fault (fault_in 74 number) }
{
    refusal(UNDEFINED_VARIABLE, number)
}

/// The refusal of the line of this number.
pub(crate) fn refusal(fault: u32, number: u32) -> Refusal
    ensures { result ≡ refusals.Fault (fault_in fault number) }
{
    let place = Place {
        line: number,
        column: 1,
    };
    Refusal::Fault(Fault::new(fault, place))
}

fn placed_gate(variables: &Variables, bound: u64, gate: &Gate) -> Option<Gate>
    requires { length variables.now ≤ 2 ^ 60 }
    ensures { result ≡ reading.placed_gate variables.now bound gate.now }
{
    let left = placed(variables, bound, gate.left)?;
    let right = placed(variables, bound, gate.right)?;
    Some(Gate { left, right })
}

// The literal of a variable's place, if that is below a bound.
fn placed(variables: &Variables, bound: u64, lit: Lit) -> Option<Lit>
    requires { length variables.now ≤ 2 ^ 60 }
    ensures { result ≡ reading.placed_literal variables.now bound lit }
{
    let place = variables.place_of(lit / 2)?;
    if place < bound {
        Some(2 * place + lit % 2)
    } else {
        None
    }
}

/// The number of a line, the greatest where it doesn't fit.
pub(crate) fn line_number(number: u64) -> u32
    ensures { result ≡ capped number }
{
    match u32::try_from(number) {
        Ok(number) => number,
        Err(_) => u32::MAX,
    }
}
