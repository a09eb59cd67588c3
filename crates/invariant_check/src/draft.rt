//! Obligations: clauses over literals of a graph that go to a formula.

ghost use Rattle.std.specs.Prelude.{◌≡◌, ℕ, ◌+◌, ◌*◌, ◌/◌, ◌<◌, ◌≤◌, ◌^◌, ◌++◌, ◌∷◌, [], IsTrue, not, nat_eq, filter, flat_map, length, map, All, IfOk, OnOk, if◌then◌else◌};
ghost use Rattle.std.specs.List.{list_any};
ghost use Rattle.clause_check.specs.Clauses.{IsLiteral};
ghost use Rattle.clause_check.specs.Flat.{clauses_by};
ghost use Rattle.aig_blast.specs.Graphs.{AllStand, negation};
ghost use Rattle.invariant_check.specs.Cones.{is_needed};
ghost use Rattle.invariant_check.specs.Obligations as obligations;
ghost use Rattle.invariant_check.specs.Obligations.{all_broken_clauses, before_step, broken_clauses, broken_lits, folded, gate_clauses, graph_clauses, next_lit};

use aig_blast::{Gate, Lit};
use clause_check::{Clauses, Formula, Literal, first_clause};
use kw_bits::NoMemory;
use std::alloc::Global;

/// A formula that grows clause by clause, and room for the clause that is made.
#[derive(Drop)]
pub(crate) struct Draft {
    pub(crate) formula: Formula,
    literals: Vec<Literal>,
}

impl Draft {
    /// No clauses yet, over this many variables. It takes no memory.
    pub(crate) fn new(alloc: Global, variables: u32) -> Draft
        ensures variables { result.formula.variables ≡ variables }
        ensures clauses { result.formula.clauses ≡ [] }
    {
        Draft {
            formula: Formula::new(alloc, variables),
            literals: Vec::new(alloc),
        }
    }

    /// Adds a clause of literals of the graph, constants folded.
    pub(crate) fn push(&mut self, lits: &[Lit]) -> Result<(), NoMemory>
        requires few { self.old.formula.variables < 2 ^ 32 }
        requires within { All (λ lit. lit / 2 ≤ self.old.formula.variables) lits.now }
        ensures clauses { OnOk result (self.new.formula.clauses ≡ self.old.formula.clauses ++ folded lits.now) }
        ensures variables { OnOk result (self.new.formula.variables ≡ self.old.formula.variables) }
    {
        let is_open = put_literals(&mut self.literals, lits)?;
        if !is_open {
            return Ok(());
        }
        self.formula.push(self.literals.as_slice())
    }

    /// Adds the clauses of the gates that are needed, which come after this many sources.
    pub(crate) fn push_gates(
        &mut self,
        needed: &[bool],
        sources: usize,
        gates: &[Gate],
    ) -> Result<(), NoMemory>
        requires few { self.old.formula.variables < 2 ^ 32 }
        requires sources { sources ≤ 2 ^ 60 }
        requires room { 1 + sources + length gates.now ≤ length needed.now }
        requires stand { AllStand sources gates.now }
        requires bound { (v : ℕ) → IsTrue (is_needed needed.now v) → v ≤ self.old.formula.variables }
        ensures clauses { OnOk result (self.new.formula.clauses
            ≡ self.old.formula.clauses ++ flat_map folded (graph_clauses needed.now (1 + sources) gates.now)) }
        ensures variables { OnOk result (self.new.formula.variables ≡ self.old.formula.variables) }
    {
        for (k, gate) in gates.iter().enumerate() {
            self.push_if_needed(needed, 1 + sources + k, *gate)?;
        }
        Ok(())
    }

    // Adds the clauses of a gate, which is this variable, if it is needed.
    fn push_if_needed(
        &mut self,
        needed: &[bool],
        variable: usize,
        gate: Gate,
    ) -> Result<(), NoMemory>
        requires few { self.old.formula.variables < 2 ^ 32 }
        requires within { variable < length needed.now }
        requires bound { IsTrue (is_needed needed.now variable) → variable ≤ self.old.formula.variables }
        requires left { gate.left / 2 < variable }
        requires right { gate.right / 2 < variable }
        ensures clauses { OnOk result (self.new.formula.clauses ≡ self.old.formula.clauses
            ++ flat_map folded (if is_needed needed.now variable then gate_clauses variable gate else [])) }
        ensures variables { OnOk result (self.new.formula.variables ≡ self.old.formula.variables) }
    {
        if needed[variable] {
            self.push_gate(variable as u64, gate)?;
        }
        Ok(())
    }

    // Adds the clauses of a gate, which is this variable.
    fn push_gate(&mut self, variable: u64, gate: Gate) -> Result<(), NoMemory>
        requires few { self.old.formula.variables < 2 ^ 32 }
        requires variable { variable ≤ self.old.formula.variables }
        requires left { gate.left / 2 ≤ self.old.formula.variables }
        requires right { gate.right / 2 ≤ self.old.formula.variables }
        ensures clauses { OnOk result (self.new.formula.clauses
            ≡ self.old.formula.clauses ++ flat_map folded (gate_clauses variable gate)) }
        ensures variables { OnOk result (self.new.formula.variables ≡ self.old.formula.variables) }
    {
        self.push(&[2 * variable + 1, gate.left])?;
        self.push(&[2 * variable + 1, gate.right])?;
        self.push(&[2 * variable, negated(gate.left), negated(gate.right)])
    }

    /// Adds the clauses of an invariant before the step, after this many inputs.
    pub(crate) fn push_before(
        &mut self,
        inputs: usize,
        invariant: Clauses<'_>,
        lits: &mut Vec<Lit>,
    ) -> Result<(), NoMemory>
        requires few { self.old.formula.variables < 2 ^ 32 }
        requires inputs { inputs ≤ 2 ^ 60 }
        requires bound { All (λ literal. inputs + literal.variable ≤ self.old.formula.variables) invariant.literals.now }
        ensures clauses { OnOk result (self.new.formula.clauses ≡ self.old.formula.clauses
            ++ flat_map folded (map (λ clause. map (before_step inputs) clause)
            (clauses_by invariant.entry.literals.now invariant.entry.lengths.now))) }
        ensures variables { OnOk result (self.new.formula.variables ≡ self.old.formula.variables) }
    {
        let mut rest = invariant;
        while let Some(first) = first_clause(rest) {
            put_before(lits, inputs, first.clause)?;
            self.push(lits.as_slice())?;
            rest = first.rest;
        }
        Ok(())
    }

    /// Adds the clauses that say which clauses of an invariant are broken after the step, by variables from this one
    /// on.
    pub(crate) fn push_broken(
        &mut self,
        nexts: &[Lit],
        variable: u64,
        invariant: Clauses<'_>,
    ) -> Result<(), NoMemory>
        requires few { self.old.formula.variables < 2 ^ 32 }
        requires variable { variable + length invariant.lengths.now ≤ 1 + self.old.formula.variables }
        requires within { All (λ literal. (1 ≤ literal.variable)
            × (literal.variable ≤ length nexts.now)) invariant.literals.now }
        requires bound { All (λ literal. next_lit nexts.now literal / 2 ≤ self.old.formula.variables)
            invariant.literals.now }
        ensures clauses { OnOk result (self.new.formula.clauses ≡ self.old.formula.clauses
            ++ flat_map folded (all_broken_clauses nexts.now variable
            (clauses_by invariant.entry.literals.now invariant.entry.lengths.now))) }
        ensures variables { OnOk result (self.new.formula.variables ≡ self.old.formula.variables) }
    {
        let mut rest = invariant;
        let mut next = variable;
        while let Some(first) = first_clause(rest) {
            self.push_broken_clause(nexts, next, first.clause)?;
            next += 1;
            rest = first.rest;
        }
        Ok(())
    }

    // The same for one clause.
    fn push_broken_clause(
        &mut self,
        nexts: &[Lit],
        variable: u64,
        clause: &[Literal],
    ) -> Result<(), NoMemory>
        requires few { self.old.formula.variables < 2 ^ 32 }
        requires variable { variable ≤ self.old.formula.variables }
        requires within { All (λ literal. (1 ≤ literal.variable) × (literal.variable ≤ length nexts.now)) clause.now }
        requires bound { All (λ literal. next_lit nexts.now literal / 2 ≤ self.old.formula.variables) clause.now }
        ensures clauses { OnOk result (self.new.formula.clauses
            ≡ self.old.formula.clauses ++ flat_map folded (broken_clauses nexts.now variable clause.now)) }
        ensures variables { OnOk result (self.new.formula.variables ≡ self.old.formula.variables) }
    {
        for literal in clause {
            let after = after_step(nexts, *literal);
            self.push(&[2 * variable + 1, negated(after)])?;
        }
        Ok(())
    }
}

// Puts the literals of a clause that are no constants, and says whether none is the constant true.
fn put_literals(literals: &mut Vec<Literal>, lits: &[Lit]) -> Result<bool, NoMemory>
    requires { All (λ lit. lit / 2 < 2 ^ 32) lits.now }
    ensures open { IfOk result (λ is_open. is_open ≡ not (list_any (λ lit. nat_eq lit 1) lits.now)) }
    ensures literals { IfOk result (λ is_open. IsTrue is_open
        → literals.new.items ≡ map obligations.literal_of (filter (λ lit. not (nat_eq lit 0)) lits.now)) }
{
    literals.clear();
    for lit in lits {
        if *lit == 1 {
            return Ok(false);
        }
        if *lit != 0 {
            literals.push(literal_of(*lit))?;
        }
    }
    Ok(true)
}

// Puts the literals of a clause before the step.
fn put_before(lits: &mut Vec<Lit>, inputs: usize, clause: &[Literal]) -> Result<(), NoMemory>
    requires { inputs ≤ 2 ^ 60 }
    ensures { OnOk result (lits.new.items ≡ map (before_step inputs) clause.now) }
{
    lits.clear();
    for literal in clause {
        lits.push(before(inputs, *literal))?;
    }
    Ok(())
}

// The literal of a register's bit before the step, after this many inputs.
fn before(inputs: usize, literal: Literal) -> Lit
    requires { inputs ≤ 2 ^ 60 }
    ensures { result ≡ before_step inputs literal }
{
    signed(
        literal.is_negated,
        2 * (inputs as u64 + literal.variable as u64),
    )
}

// The literal of a register's bit after the step.
fn after_step(nexts: &[Lit], literal: Literal) -> Lit
    requires some { 1 ≤ literal.variable }
    requires within { literal.variable ≤ length nexts.now }
    ensures literal { result ≡ obligations.after_step nexts.now literal }
    ensures variable { result / 2 ≡ next_lit nexts.now literal / 2 }
{
    signed(literal.is_negated, nexts[literal.variable as usize - 1])
}

/// The literal of the next value of a register's bit.
pub(crate) fn next_of(nexts: &[Lit], literal: Literal) -> Lit
    requires some { 1 ≤ literal.variable }
    requires within { literal.variable ≤ length nexts.now }
    ensures { result ≡ next_lit nexts.now literal }
{
    nexts[literal.variable as usize - 1]
}

// A literal, or the one of the other value.
fn signed(is_negated: bool, lit: Lit) -> Lit
    ensures literal { result ≡ obligations.signed is_negated lit }
    ensures variable { result / 2 ≡ lit / 2 }
{
    if is_negated { negated(lit) } else { lit }
}

// The literal of the other value.
#[tactic(auto, unfolding(aig_blast::specs::Graphs::negation))]
fn negated(lit: Lit) -> Lit
    ensures negation { result ≡ negation lit }
    ensures variable { result / 2 ≡ lit / 2 }
{
    if lit % 2 == 1 { lit - 1 } else { lit + 1 }
}

// A literal of the graph in a formula.
fn literal_of(lit: Lit) -> Literal
    requires { lit / 2 < 2 ^ 32 }
    ensures { result ≡ obligations.literal_of lit }
{
    Literal {
        variable: (lit / 2) as u32,
        is_negated: lit % 2 == 1,
    }
}
