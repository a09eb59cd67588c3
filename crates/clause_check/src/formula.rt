//! Clauses: a formula, made clause by clause.

ghost use Rattle.std.specs.Prelude.{◌≡◌, ◌<◌, ◌++◌, ◌∷◌, ◌↔◌, [], IsTrue, length, sum, All, OnOk, OnErr, IfSome, IfNone};
ghost use Rattle.clause_check.specs.Clauses.{IsLiteral};
ghost use Rattle.clause_check.specs.Flat.{clauses_by};

use crate::literal::Literal;
use kw_bits::NoMemory;
use std::alloc::Global;
use std::marker::Model;

/// A formula: clauses over the variables from 1 to a number. Contracts see it as a `Cnf`.
#[derive(Debug, Drop)]
pub struct Formula {
    variables: u32,
    literals: Vec<Literal>,
    lengths: Vec<usize>,
}

impl Model for Formula {
    ghost use Rattle.clause_check.specs.Clauses.{Cnf};
    ghost use Rattle.clause_check.specs.Flat.{IsFlat, clauses_by};

    ghost Value = { Cnf };

    ghost view = { λ f. record { variables = f.variables; clauses = clauses_by f.literals.items f.lengths.items } };

    ghost invariant = { λ f. IsFlat f.variables f.literals.items f.lengths.items };
}

impl Formula {
    /// No clauses yet. It takes no memory.
    pub fn new(alloc: Global, variables: u32) -> Formula
        ensures { result ≡ record { variables = variables; clauses = [] } }
    {
        Formula {
            variables,
            literals: Vec::new(alloc),
            lengths: Vec::new(alloc),
        }
    }

    /// Adds a clause at the end. An `Err` leaves the formula as it was.
    pub fn push(&mut self, clause: &[Literal]) -> Result<(), NoMemory>
        requires { All (IsLiteral self.old.variables) clause.now }
        ensures ok { OnOk result (self.new ≡ record self.old { clauses = self.old.clauses ++ clause.now ∷ [] }) }
        ensures err { OnErr result (self.new ≡ self.old) }
    {
        let count = self.literals.len();
        self.literals.extend_from_slice(clause)?;
        let Ok(()) = self.lengths.push(clause.len()) else {
            self.literals.truncate(count);
            return Err(NoMemory);
        };
        Ok(())
    }

    /// The greatest number of a variable.
    pub fn variables(&self) -> u32
        ensures { result ≡ self.now.variables }
    {
        self.variables
    }

    /// How many clauses there are.
    pub fn len(&self) -> usize
        ensures { result ≡ length self.now.clauses }
    {
        self.lengths.len()
    }

    /// Whether there is no clause.
    pub fn is_empty(&self) -> bool
        ensures { IsTrue result ↔ (length self.now.clauses ≡ 0) }
    {
        self.len() == 0
    }

    /// All clauses, in order.
    pub fn clauses(&self) -> Clauses<'_>
        ensures clauses { clauses_by result.literals.now result.lengths.now ≡ self.now.clauses }
        ensures literals { All (IsLiteral self.now.variables) result.literals.now }
    {
        Clauses {
            literals: self.literals.as_slice(),
            lengths: self.lengths.as_slice(),
        }
    }
}

/// Clauses, one after another: all their literals, and how many of them each has.
#[derive(Clone, Copy)]
pub struct Clauses<'a> {
    pub literals: &'a [Literal],
    pub lengths: &'a [usize],
    ghost whole: { sum lengths.now ≡ length literals.now },
}

/// A clause, and the clauses after it.
#[derive(Clone, Copy)]
pub struct First<'a> {
    pub clause: &'a [Literal],
    pub rest: Clauses<'a>,
}

/// The first clause, if there is one.
pub fn first_clause(clauses: Clauses<'_>) -> Option<First<'_>>
    ensures found { IfSome result (λ first. clauses_by clauses.entry.literals.now clauses.entry.lengths.now
        ≡ first.clause.now ∷ clauses_by first.rest.literals.now first.rest.lengths.now) }
    ensures literals { IfSome result (λ first. clauses.entry.literals.now ≡ first.clause.now ++ first.rest.literals.now) }
    ensures shorter { IfSome result (λ first. length first.rest.lengths.now < length clauses.entry.lengths.now) }
    ensures absent { IfNone result (clauses_by clauses.entry.literals.now clauses.entry.lengths.now ≡ []) }
{
    let Some((len, lengths)) = clauses.lengths.split_first() else {
        return None;
    };
    let (clause, literals) = clauses.literals.split_at(*len);
    Some(First {
        clause,
        rest: Clauses { literals, lengths },
    })
}
