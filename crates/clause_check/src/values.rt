//! Refutations: the values of variables, and unit propagation.

ghost use Rattle.std.specs.Prelude.{◌≡◌, ◌+◌, ◌<◌, [], ◌∷◌, List, length, false, All, if◌then◌else◌, IfOk, OnOk};
ghost use Rattle.clause_check.specs.Clauses.{negation};
ghost use Rattle.clause_check.specs.Propagation as propagation;
ghost use Rattle.clause_check.specs.Propagation.{follows_by_hints, is_false, left_of};
ghost use Rattle.clause_check.specs.declared.literal.Literal.{Literal as LiteralOf};
ghost use Rattle.clause_check.specs.inner.Tokens.{AreWithin};
ghost use Rattle.clause_check.specs.inner.Values.{Agrees, Denies, IsTrail, LeftIsBelow, left_with, makes, value_by, value_in};

use crate::database::Database;
use crate::left::Left;
use crate::literal::Literal;
use kw_bits::NoMemory;
use std::alloc::Global;

/// The value of a variable.
#[derive(Clone, Copy, Debug, PartialEq, Eq)]
pub(crate) enum Value {
    Open,
    True,
    False,
}

/// The values of variables from 0 up, and the variables that aren't open. Variable 0 is of no literal.
#[derive(Drop)]
pub(crate) struct Values {
    pub(crate) values: Vec<Value>,
    pub(crate) trail: Vec<u32>,
    ghost trailed: { IsTrail values.items trail.items },
}

impl Values {
    ghost use Rattle.clause_check.specs.inner.Progresses.{progress_of};

    /// All variables are open.
    pub(crate) fn new(alloc: Global, variables: u32) -> Result<Values, NoMemory>
        ensures open { IfOk result (λ values. values.trail.items ≡ []) }
        ensures count { IfOk result (λ values. length values.values.items ≡ variables + 1) }
    {
        let values = vec![in alloc; Value::Open; variables as usize + 1]?;
        Ok(Values {
            values,
            trail: Vec::new(alloc),
        })
    }

    /// Whether a clause follows by its hints. All variables are open before and after.
    pub(crate) fn follows(
        &mut self,
        database: &Database,
        clause: &[Literal],
        hints: &[u64],
    ) -> Result<bool, NoMemory>
        requires open { self.old.trail.items ≡ [] }
        requires rooms { database.now.variables < length self.old.values.items }
        requires within { AreWithin database.now.variables clause.now }
        ensures follows { IfOk result (λ follows. follows ≡ follows_by_hints (progress_of database.now).there clause.now hints.now) }
        ensures open { OnOk result (self.new.trail.items ≡ []) }
        ensures count { length self.new.values.items ≡ length self.old.values.items }
    {
        let follows = self.propagate(database, clause, hints)?;
        self.open_all();
        Ok(follows)
    }

    fn propagate(
        &mut self,
        database: &Database,
        clause: &[Literal],
        hints: &[u64],
    ) -> Result<bool, NoMemory>
        requires open { self.old.trail.items ≡ [] }
        requires rooms { database.now.variables < length self.old.values.items }
        requires within { AreWithin database.now.variables clause.now }
        ensures follows { IfOk result (λ follows. follows ≡ follows_by_hints (progress_of database.now).there clause.now hints.now) }
        ensures count { length self.new.values.items ≡ length self.old.values.items }
    {
        if !self.deny(clause)? {
            return Ok(true);
        }
        self.refutes(database, hints)
    }

    // Makes the literals of a clause false in order, unless one is true already.
    fn deny(&mut self, clause: &[Literal]) -> Result<bool, NoMemory>
        requires open { self.old.trail.items ≡ [] }
        requires within { All (λ (literal : LiteralOf). literal.variable < length self.old.values.items) clause.now }
        ensures denied { IfOk result (λ denied. Denies self.new.values.items denied (propagation.denied [] clause.now)) }
        ensures count { length self.new.values.items ≡ length self.old.values.items }
    {
        let mut rest = clause;
        while let Some((literal, others)) = rest.split_first() {
            if self.is_true(*literal) {
                return Ok(false);
            }
            self.assume(literal.negated())?;
            rest = others;
        }
        Ok(true)
    }

    // Whether hints lead to a clause whose literals are all false.
    fn refutes(&mut self, database: &Database, hints: &[u64]) -> Result<bool, NoMemory>
        requires rooms { database.now.variables < length self.old.values.items }
        ensures refutes { IfOk result (λ refutes. (trues : List LiteralOf) → Agrees self.old.values.items trues
            → refutes ≡ propagation.refutes (progress_of database.now).there trues hints.now) }
        ensures count { length self.new.values.items ≡ length self.old.values.items }
    {
        let mut rest = hints;
        while let Some((hint, others)) = rest.split_first() {
            let Some(clause) = database.clause(*hint) else {
                return Ok(false);
            };
            match self.left_of(clause) {
                Left::Nothing => return Ok(true),
                Left::One(literal) => self.assume(literal)?,
                Left::Several => return Ok(false),
            }
            rest = others;
        }
        Ok(false)
    }

    // What is left of a clause without the literals that are false.
    fn left_of(&self, clause: &[Literal]) -> Left
        requires { All (λ (literal : LiteralOf). literal.variable < length self.now.values.items) clause.now }
        ensures left { (trues : List LiteralOf) → Agrees self.now.values.items trues → result ≡ left_of trues clause.now }
        ensures below { LeftIsBelow (length self.now.values.items) result }
    {
        let mut left = Left::Nothing;
        let mut rest = clause;
        while let Some((literal, others)) = rest.split_first() {
            left = self.left_and(left, *literal);
            rest = others;
        }
        left
    }

    // What is left with one more literal of the clause, if that isn't false.
    fn left_and(&self, left: Left, literal: Literal) -> Left
        requires { literal.variable < length self.now.values.items }
        ensures { result ≡ (if makes (value_in self.now.values.items literal.variable) (negation literal) then left else left_with left literal) }
    {
        if self.is_false(literal) {
            return left;
        }
        with_left(left, literal)
    }

    fn is_true(&self, literal: Literal) -> bool
        requires { literal.variable < length self.now.values.items }
        ensures { result ≡ makes (value_in self.now.values.items literal.variable) literal }
    {
        match self.values[literal.variable as usize] {
            Value::Open => false,
            Value::True => !literal.is_negated,
            Value::False => literal.is_negated,
        }
    }

    fn is_false(&self, literal: Literal) -> bool
        requires { literal.variable < length self.now.values.items }
        ensures { result ≡ makes (value_in self.now.values.items literal.variable) (negation literal) }
    {
        match self.values[literal.variable as usize] {
            Value::Open => false,
            Value::True => literal.is_negated,
            Value::False => !literal.is_negated,
        }
    }

    // Makes a literal true that isn't false.
    fn assume(&mut self, literal: Literal) -> Result<(), NoMemory>
        requires { literal.variable < length self.old.values.items }
        ensures assumed { OnOk result ((trues : List LiteralOf) → Agrees self.old.values.items trues → is_false trues literal ≡ false
            → Agrees self.new.values.items (literal ∷ trues)) }
        ensures count { length self.new.values.items ≡ length self.old.values.items }
    {
        if self.is_true(literal) {
            return Ok(());
        }
        self.trail.push(literal.variable)?;
        self.values[literal.variable as usize] = true_by(literal);
        Ok(())
    }

    // Makes all variables open again.
    fn open_all(&mut self)
        ensures open { self.new.trail.items ≡ [] }
        ensures count { length self.new.values.items ≡ length self.old.values.items }
    {
        while let Some(variable) = self.trail.pop() {
            self.values[variable as usize] = Value::Open;
        }
    }
}

// The value of a variable that makes a literal of it true.
fn true_by(literal: Literal) -> Value
    ensures { result ≡ value_by literal }
{
    if literal.is_negated {
        Value::False
    } else {
        Value::True
    }
}

// What is left with one more literal.
fn with_left(left: Left, literal: Literal) -> Left
    ensures { result ≡ left_with left literal }
{
    match left {
        Left::Nothing => Left::One(literal),
        Left::One(first) => {
            if first == literal {
                Left::One(first)
            } else {
                Left::Several
            }
        }
        Left::Several => Left::Several,
    }
}
