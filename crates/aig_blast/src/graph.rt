//! A graph of and-gates that grows: a gate is made once, and gates of constants are left out.

ghost use Rattle.std.specs.Prelude.{◌≡◌, ◌≤◌, ◌^◌, [], ◌&&◌, ◌||◌, Bool, true, List, IfOk};
ghost use Rattle.aig_blast.specs.inner.Rules.{IsAndOf, IsChoiceOf, IsKnown};
ghost use Rattle.aig_blast.specs.Graphs.{carry as carry_of, choice, gate_value, IsGraph, IsLit, Makes, Stands, value, variables, variables_of, xor};

use crate::gate::{Gate, Lit, not};
use crate::rules::{Choice, Known, choice_by, simpler_pair, with_one_second};
use indexmap::IndexSet;
use kw_bits::NoMemory;
use std::alloc::Global;
use std::marker::Model;

/// A graph of and-gates over sources that is being built. Equal gates are one.
#[derive(Drop)]
pub struct Graph {
    sources: u64,
    gates: IndexSet<Gate>,
}

impl Model for Graph {
    ghost use Rattle.aig_blast.specs.Graphs.{Gates, IsGraph};

    ghost Value = { Gates };

    ghost view = { λ g. record { sources = g.sources; gates = g.gates.keys } };

    ghost invariant = { λ g. IsGraph (record { sources = g.sources; gates = g.gates.keys }) };
}

impl Graph {
    /// The literal that is false.
    pub const FALSE: Lit = 0;

    /// The literal that is true.
    pub const TRUE: Lit = 1;

    /// The most variables that a graph has, since more would not fit any memory.
    pub const MOST_VARIABLES: u64 = 1 << 60;

    /// No gates over this many sources. It takes no memory.
    pub fn new(alloc: Global, sources: u64) -> Graph
        requires { sources ≤ 2 ^ 60 }
        ensures { result ≡ record { sources = sources; gates = [] } }
    {
        Graph {
            sources,
            gates: IndexSet::new(alloc),
        }
    }

    /// How many sources there are.
    pub fn source_count(&self) -> u64
        ensures { result ≡ self.now.sources }
    {
        self.sources
    }

    /// The gates in order. Gate k is the variable after the sources and the gates before it.
    pub fn gates(&self) -> &[Gate]
        ensures gates { result.now ≡ self.now.gates }
        ensures graph { IsGraph self.now }
    {
        self.gates.as_slice()
    }

    // The literal of a gate, which goes last unless it stands already.
    fn add(&mut self, gate: Gate) -> Result<Lit, NoMemory>
        requires { Stands (variables self.old) gate }
        ensures { IfOk result (λ lit. Makes self.old self.new lit (λ inputs. gate_value (variables_of inputs self.old) gate)) }
    {
        if self.sources + self.gates.len() as u64 >= Graph::MOST_VARIABLES {
            return Err(NoMemory);
        }
        let (id, _) = self.gates.insert_full(gate)?;
        Ok(2 * (self.sources + id as u64 + 1))
    }
    /// The literal that is true where both are. Constants, equal and opposite literals make no gate.
    pub fn and(&mut self, a: Lit, b: Lit) -> Result<Lit, NoMemory>
        requires a { IsLit self.old a }
        requires b { IsLit self.old b }
        ensures { IfOk result (λ lit. Makes self.old self.new lit (λ i. value i self.old a && value i self.old b)) }
    {
        let (first, second) = self.simplest(a, b);
        if first < second {
            let gate = self.ordered_and(first, second)?;
            return Ok(gate);
        }
        let gate = self.ordered_and(second, first)?;
        Ok(gate)
    }

    // Two literals with the and of two others, by two rules at most.
    fn simplest(&self, a: Lit, b: Lit) -> (Lit, Lit)
        requires a { IsLit self.now a }
        requires b { IsLit self.now b }
        ensures first { IsLit self.now result.0 }
        ensures second { IsLit self.now result.1 }
        ensures same { (i : List Bool) → (value i self.now result.0 && value i self.now result.1) ≡ (value i self.now a && value i self.now b) }
    {
        let (first, second) = self.simpler(a, b);
        self.simpler(first, second)
    }

    // The literals whose and a literal's variable is: those of its gate, or the variable itself, twice.
    fn known(&self, lit: Lit) -> Known
        requires { IsLit self.now lit }
        ensures lit { result.lit ≡ lit }
        ensures known { (i : List Bool) → IsKnown (variables self.now) (value i self.now) result }
    {
        let variable = lit / 2;
        if variable <= self.sources {
            let positive = 2 * variable;
            return Known {
                lit,
                left: positive,
                right: positive,
            };
        }
        let gate = self.gates.as_slice()[(variable - self.sources - 1) as usize];
        Known {
            lit,
            left: gate.left,
            right: gate.right,
        }
    }

    // Two literals with the and of two others, simpler ones where the gates behind these show some.
    fn simpler(&self, a: Lit, b: Lit) -> (Lit, Lit)
        requires a { IsLit self.now a }
        requires b { IsLit self.now b }
        ensures first { IsLit self.now result.0 }
        ensures second { IsLit self.now result.1 }
        ensures same { (i : List Bool) → (value i self.now result.0 && value i self.now result.1) ≡ (value i self.now a && value i self.now b) }
    {
        let (first, second) = (self.known(a), self.known(b));
        if let Some(pair) = simpler_pair(first, second) {
            return pair;
        }
        if let Some(pair) = simpler_pair(second, first) {
            return pair;
        }
        (a, b)
    }

    // The same of literals that are in order.
    fn ordered_and(&mut self, a: Lit, b: Lit) -> Result<Lit, NoMemory>
        requires a { IsLit self.old a }
        requires b { IsLit self.old b }
        ensures { IfOk result (λ lit. Makes self.old self.new lit (λ i. value i self.old a && value i self.old b)) }
    {
        if a == Graph::FALSE {
            return Ok(Graph::FALSE);
        }
        if a == Graph::TRUE || a == b {
            return Ok(b);
        }
        if a == not(b) {
            return Ok(Graph::FALSE);
        }
        let gate = self.add(Gate { left: a, right: b })?;
        Ok(gate)
    }

    /// The literal that is true where one is or both are.
    pub fn or(&mut self, a: Lit, b: Lit) -> Result<Lit, NoMemory>
        requires a { IsLit self.old a }
        requires b { IsLit self.old b }
        ensures { IfOk result (λ lit. Makes self.old self.new lit (λ i. value i self.old a || value i self.old b)) }
    {
        let neither = self.and(not(a), not(b))?;
        Ok(not(neither))
    }

    /// The literal that is true where exactly one is.
    pub fn xor(&mut self, a: Lit, b: Lit) -> Result<Lit, NoMemory>
        requires a { IsLit self.old a }
        requires b { IsLit self.old b }
        ensures { IfOk result (λ lit. Makes self.old self.new lit (λ i. xor (value i self.old a) (value i self.old b))) }
    {
        let both = self.and(a, b)?;
        let neither = self.and(not(a), not(b))?;
        let one = self.and(not(both), not(neither))?;
        Ok(one)
    }

    /// The literal with the value of a where the condition is true, else with that of b. Where an arm is a choice by the same
    /// condition, it is that choice's arm; where both arms are choices that share a literal, it is chosen last.
    pub fn mux(&mut self, condition: Lit, a: Lit, b: Lit) -> Result<Lit, NoMemory>
        requires condition { IsLit self.old condition }
        requires a { IsLit self.old a }
        requires b { IsLit self.old b }
        ensures { IfOk result (λ lit. Makes self.old self.new lit (λ i. choice (value i self.old condition) (value i self.old a) (value i self.old b))) }
    {
        let first = self.where_true(condition, a);
        let second = self.where_true(not(condition), b);
        let chosen = self.choose(condition, first, second)?;
        Ok(chosen)
    }

    // The same with no look at arms that are choices by the same condition.
    fn choose(&mut self, condition: Lit, a: Lit, b: Lit) -> Result<Lit, NoMemory>
        requires condition { IsLit self.old condition }
        requires a { IsLit self.old a }
        requires b { IsLit self.old b }
        ensures { IfOk result (λ lit. Makes self.old self.new lit (λ i. choice (value i self.old condition) (value i self.old a) (value i self.old b))) }
    {
        let (first, second) = (self.choice_of(a), self.choice_of(b));
        let Some((first, second)) = with_one_second(a, first, b, second) else {
            let chosen = self.simple_mux(condition, a, b)?;
            return Ok(chosen);
        };
        let is_other = self.simple_mux(condition, first.condition, second.condition)?;
        let other = self.simple_mux(condition, first.first, second.first)?;
        let chosen = self.simple_mux(is_other, other, first.second)?;
        Ok(chosen)
    }

    // A literal as a choice.
    fn choice_of(&self, lit: Lit) -> Choice
        requires { IsLit self.now lit }
        ensures { (i : List Bool) → IsChoiceOf (variables self.now) (value i self.now) lit result }
    {
        let whole = self.known(lit);
        let (a, b) = (self.known(whole.left), self.known(whole.right));
        if let Some(found) = choice_by(whole, a, b) {
            return found;
        }
        Choice {
            condition: Graph::FALSE,
            first: lit,
            second: lit,
        }
    }

    // A literal with the value of another one where a condition is true: an arm, if that one is a choice by the condition.
    fn where_true(&self, condition: Lit, lit: Lit) -> Lit
        requires { IsLit self.now lit }
        ensures lit { IsLit self.now result }
        ensures value { (i : List Bool) → value i self.now condition ≡ true → value i self.now result ≡ value i self.now lit }
    {
        let found = self.choice_of(lit);
        if found.condition == condition {
            return found.first;
        }
        if found.condition == not(condition) {
            return found.second;
        }
        lit
    }

    // The choice of one of two literals. Equal and opposite ones, and a constant condition, are no choice.
    fn simple_mux(&mut self, condition: Lit, a: Lit, b: Lit) -> Result<Lit, NoMemory>
        requires condition { IsLit self.old condition }
        requires a { IsLit self.old a }
        requires b { IsLit self.old b }
        ensures { IfOk result (λ lit. Makes self.old self.new lit (λ i. choice (value i self.old condition) (value i self.old a) (value i self.old b))) }
    {
        if a == b || condition == Graph::TRUE {
            return Ok(a);
        }
        if condition == Graph::FALSE {
            return Ok(b);
        }
        if a == not(b) {
            let opposite = self.xor(condition, b)?;
            return Ok(opposite);
        }
        let first = self.and(condition, a)?;
        let second = self.and(not(condition), b)?;
        let chosen = self.or(first, second)?;
        Ok(chosen)
    }

    /// The sum of two bits and a carry, and the carry that goes out.
    pub fn full_adder(&mut self, a: Lit, b: Lit, carry: Lit) -> Result<(Lit, Lit), NoMemory>
        requires a { IsLit self.old a }
        requires b { IsLit self.old b }
        requires carry { IsLit self.old carry }
        ensures sum { IfOk result (λ r. Makes self.old self.new r.0 (λ i. xor (xor (value i self.old a) (value i self.old b)) (value i self.old carry))) }
        ensures carry { IfOk result (λ r. Makes self.old self.new r.1 (λ i. carry_of (value i self.old a) (value i self.old b) (value i self.old carry))) }
    {
        let half = self.xor(a, b)?;
        let sum = self.xor(half, carry)?;
        let both = self.and(a, b)?;
        let passed = self.and(carry, half)?;
        let carried = self.or(both, passed)?;
        Ok((sum, carried))
    }
}
