//! Obligations: the clauses that say when a step of a circuit breaks an invariant or makes a claimed output 1.

ghost use Rattle.std.specs.Prelude.{◌≡◌, ◌+◌, ◌<◌, ◌≤◌, ◌^◌, ◌++◌, IsTrue, IfOk, OnOk, length, map, sum, All};
ghost use Rattle.std.specs.List.{list_any};
ghost use Rattle.clause_check.specs.Clauses.{IsUnsatisfiable};
ghost use Rattle.clause_check.specs.Refutations.{is_empty};
ghost use Rattle.aig_blast.specs.Aigs.{latch_widths, sources};
ghost use Rattle.aig_blast.specs.AigRun.{first_words};
ghost use Rattle.invariant_check.specs.Kept.{HaveLiterals, IsIdle, IsKeptInEveryRun, SaysWhatBreaks, is_true_of};
ghost use Rattle.invariant_check.specs.Obligations as obligations;
ghost use Rattle.invariant_check.specs.inner.Parts.{ArePartsOf};
ghost use Rattle.invariant_check.specs.Obligations.{broken_lits, claimed_lits, next_lit, obligation_of};

use crate::bits::count_inputs;
use crate::cone::{cone_of, greatest};
use crate::draft::{Draft, next_of};
use aig_blast::{Aig, LatchWord, Lit, OutputBit};
use clause_check::{Clauses, Formula};
use kw_bits::NoMemory;
use std::alloc::Global;

/// The obligation of an invariant over the bits of a circuit's registers, and of claimed outputs, which are given by
/// their numbers from 0. The variables of the circuit's inputs and registers are those of the circuit: inputs from 1
/// on, then registers.
pub fn obligation(
    alloc: Global,
    aig: &Aig,
    invariant: &Formula,
    claimed: &[u32],
) -> Result<Formula, NoMemory>
    requires bits { invariant.now.variables ≡ sum (latch_widths aig.now.latches) }
    requires outputs { All (λ output. output < length aig.now.outputs) claimed.now }
    ensures clauses { IfOk result (λ formula. formula ≡ obligation_of aig.now invariant.now.clauses claimed.now) }
    ensures says { IfOk result (λ formula. SaysWhatBreaks aig.now invariant.now.clauses claimed.now formula) }
    ensures kept { IfOk result (λ formula. IsTrue (is_true_of invariant.now.clauses (first_words aig.now.latches))
        → IsUnsatisfiable formula.clauses → IsKeptInEveryRun aig.now invariant.now.clauses claimed.now) }
    ensures empty { IfOk result (λ formula. HaveLiterals invariant.now.clauses
        → IsTrue (list_any is_empty formula.clauses)
        → IsIdle aig.now invariant.now.clauses claimed.now) }
    ensures named { IfOk result (λ formula. sources aig.now ≤ formula.variables) }
{
    let parts = parts_of(alloc, aig, invariant, claimed)?;
    let formula = draft_of(alloc, aig, invariant, claimed, parts)?;
    Ok(formula)
}

// What an obligation is made of: how many inputs there are, the literals of the next values of registers and of claimed
// outputs, which variables are needed, and the greatest of them.
#[derive(Drop)]
struct Parts {
    inputs: usize,
    nexts: Vec<Lit>,
    claims: Vec<Lit>,
    needed: Vec<bool>,
    top: usize,
}

fn parts_of(
    alloc: Global,
    aig: &Aig,
    invariant: &Formula,
    claimed: &[u32],
) -> Result<Parts, NoMemory>
    requires bits { invariant.now.variables ≡ sum (latch_widths aig.now.latches) }
    requires outputs { All (λ output. output < length aig.now.outputs) claimed.now }
    ensures { IfOk result (λ parts. ArePartsOf aig.now invariant.now.clauses claimed.now parts) }
{
    let inputs = count_inputs(aig.inputs.as_slice());
    let nexts = next_lits(alloc, aig.latches.as_slice())?;
    let claims = claimed_lits(alloc, aig.outputs.as_slice(), claimed)?;
    let clauses = invariant.clauses();
    let lits = needed_lits(alloc, claims.as_slice(), nexts.as_slice(), clauses)?;
    let sources = inputs + nexts.len();
    let needed = cone_of(alloc, sources, aig.gates.as_slice(), lits.as_slice())?;
    let top = greatest(needed.as_slice());
    Ok(Parts {
        inputs,
        nexts,
        claims,
        needed,
        top,
    })
}

// The clauses of an obligation of these parts.
fn draft_of(
    alloc: Global,
    aig: &Aig,
    invariant: &Formula,
    claimed: &[u32],
    parts: Parts,
) -> Result<Formula, NoMemory>
    requires bits { invariant.now.variables ≡ sum (latch_widths aig.now.latches) }
    requires parts { ArePartsOf aig.now invariant.now.clauses claimed.now parts }
    ensures { IfOk result (λ formula. formula ≡ obligation_of aig.now invariant.now.clauses claimed.now) }
{
    let _claimed = claimed;
    let clauses = invariant.clauses();
    let gates = aig.gates.as_slice();
    let sources = parts.inputs + parts.nexts.len();
    let first = 1 + parts.top as u64;
    let mut draft = Draft::new(alloc, variables(parts.top, invariant.len())?);
    let mut lits = Vec::new(alloc);
    draft.push_before(parts.inputs, clauses, &mut lits)?;
    draft.push_gates(parts.needed.as_slice(), sources, gates)?;
    draft.push_broken(parts.nexts.as_slice(), first, clauses)?;
    let mut last = parts.claims;
    add_broken_lits(&mut last, first, invariant.len())?;
    draft.push(last.as_slice())?;
    Ok(draft.formula)
}

// How many variables there are, where their numbers fit.
fn variables(top: usize, clauses: usize) -> Result<u32, NoMemory>
    ensures { IfOk result (λ variables. variables ≡ top + clauses) }
{
    let Some(count) = top.checked_add(clauses) else {
        return Err(NoMemory);
    };
    match u32::try_from(count) {
        Ok(count) => Ok(count),
        Err(_) => Err(NoMemory),
    }
}

// The literals of the next values of registers, bit by bit.
fn next_lits(alloc: Global, latches: &[LatchWord]) -> Result<Vec<Lit>, NoMemory>
    ensures { IfOk result (λ lits. lits.items ≡ obligations.next_lits latches.now) }
{
    let mut lits = Vec::new(alloc);
    for word in latches {
        lits.extend_from_slice(word.nexts.as_slice())?;
    }
    Ok(lits)
}

// The literals of claimed outputs.
fn claimed_lits(alloc: Global, outputs: &[OutputBit], claimed: &[u32]) -> Result<Vec<Lit>, NoMemory>
    requires { All (λ output. output < length outputs.now) claimed.now }
    ensures { IfOk result (λ lits. lits.items ≡ claimed_lits outputs.now claimed.now) }
{
    let mut lits = Vec::new(alloc);
    for output in claimed {
        lits.push(outputs[*output as usize].lit)?;
    }
    Ok(lits)
}

// The literals that the obligation is about: those of claimed outputs, and those of the next values of an invariant's
// bits.
fn needed_lits(
    alloc: Global,
    claims: &[Lit],
    nexts: &[Lit],
    invariant: Clauses<'_>,
) -> Result<Vec<Lit>, NoMemory>
    requires { All (λ literal. (1 ≤ literal.variable) × (literal.variable ≤ length nexts.now)) invariant.literals.now }
    ensures { IfOk result (λ lits. lits.items ≡ claims.now ++ map (next_lit nexts.now) invariant.entry.literals.now) }
{
    let mut lits = Vec::from_slice(alloc, claims)?;
    for literal in invariant.literals {
        lits.push(next_of(nexts, *literal))?;
    }
    Ok(lits)
}

// Adds the literals of variables from this one on, as many as there are clauses.
fn add_broken_lits(lits: &mut Vec<Lit>, variable: u64, clauses: usize) -> Result<(), NoMemory>
    requires { variable + clauses < 2 ^ 62 }
    ensures { OnOk result (lits.new.items ≡ lits.old.items ++ broken_lits variable clauses) }
{
    for k in 0..clauses {
        lits.push(2 * (variable + k as u64))?;
    }
    Ok(())
}
