//! Refutations: the clauses that are there, found by their numbers.
//!
//! Numbers ascend, so they are found by halving, however they are chosen. Most are found at the first look: a table has an
//! index for each remainder of numbers, which may be that of another one, and at least twice as many remainders as there
//! are numbers. The literals of all clauses are one list. Once most of it is of dropped clauses, it is made anew without
//! them.

ghost use Rattle.std.specs.Prelude.{◌≡◌, ◌≢◌, ℕ, ◌+◌, ◌<◌, ◌≤◌, ◌||◌, [], length, slice_index, is_some, option_copied, IsTrue, IfOk, OnOk, IfSome, IfNone};
ghost use Rattle.clause_check.specs.Refutations.{begin, is_empty, with_clause, without_clause};
ghost use Rattle.clause_check.specs.inner.Databases.{Ascends, IsKept, Keeps, clause_in};
ghost use Rattle.clause_check.specs.inner.Tokens.{AreWithin};

use crate::formula::{Formula, first_clause};
use crate::literal::Literal;
use kw_bits::NoMemory;
use std::alloc::Global;

/// Where the literals of a clause are, and whether it is still there.
#[derive(Clone, Copy)]
pub(crate) struct Place {
    pub(crate) start: usize,
    pub(crate) end: usize,
    pub(crate) is_there: bool,
}

/// The clauses that are there.
#[derive(Drop)]
pub(crate) struct Database {
    pub(crate) variables: u32,
    pub(crate) numbers: Vec<u64>,
    pub(crate) places: Vec<Place>,
    pub(crate) literals: Vec<Literal>,
    pub(crate) last: u64,
    pub(crate) is_refuted: bool,
    dropped: usize,
    guesses: Vec<usize>,
    ghost kept: { IsKept variables numbers.items places.items literals.items last },
}

impl Database {
    ghost use Rattle.clause_check.specs.inner.Progresses.{progress_of};

    // No clause, with guesses for this many.
    fn new(alloc: Global, variables: u32, count: usize) -> Result<Database, NoMemory>
        ensures progress { IfOk result (λ database. progress_of database ≡ begin []) }
        ensures variables { IfOk result (λ database. database.variables ≡ variables) }
    {
        let guesses = vec![in alloc; 0; count.saturating_mul(4)]?;
        Ok(Database {
            variables,
            numbers: Vec::new(alloc),
            places: Vec::new(alloc),
            literals: Vec::new(alloc),
            last: 0,
            is_refuted: false,
            dropped: 0,
            guesses,
        })
    }

    /// The clauses of a formula, numbered from 1.
    pub(crate) fn of_formula(alloc: Global, formula: &Formula) -> Result<Database, NoMemory>
        ensures progress { IfOk result (λ database. progress_of database ≡ begin formula.now.clauses) }
        ensures variables { IfOk result (λ database. database.variables ≡ formula.now.variables) }
    {
        let mut database = Database::new(alloc, formula.variables(), formula.len())?;
        let mut rest = formula.clauses();
        while let Some(first) = first_clause(rest) {
            database.add_next(first.clause)?;
            rest = first.rest;
        }
        Ok(database)
    }

    // Adds a clause with the next number.
    fn add_next(&mut self, clause: &[Literal]) -> Result<(), NoMemory>
        requires { AreWithin self.old.variables clause.now }
        ensures progress { OnOk result (progress_of self.new ≡ with_clause (self.old.last + 1) clause.now (progress_of self.old)) }
        ensures variables { self.new.variables ≡ self.old.variables }
    {
        if self.last == u64::MAX {
            return Err(NoMemory);
        }
        self.add(self.last + 1, clause)
    }

    /// Adds a clause with a number above all others.
    pub(crate) fn add(&mut self, number: u64, clause: &[Literal]) -> Result<(), NoMemory>
        requires above { self.old.last < number }
        requires within { AreWithin self.old.variables clause.now }
        ensures progress { OnOk result (progress_of self.new ≡ with_clause number clause.now (progress_of self.old)) }
        ensures variables { self.new.variables ≡ self.old.variables }
    {
        let start = self.literals.len();
        self.literals.extend_from_slice(clause)?;
        let end = self.literals.len();
        self.places.push(Place {
            start,
            end,
            is_there: true,
        })?;
        let index = self.numbers.len();
        let Ok(()) = self.numbers.push(number) else {
            let _ = self.places.pop();
            return Err(NoMemory);
        };
        note(&mut self.guesses, number, index);
        self.last = number;
        self.is_refuted = has_empty(self.is_refuted, clause);
        Ok(())
    }

    /// The clause of a number, if it is there.
    pub(crate) fn clause(&self, number: u64) -> Option<&[Literal]>
        ensures clause { option_copied result ≡ clause_in self.now.numbers.items self.now.places.items self.now.literals.items number }
        ensures within { IfSome result (λ clause. AreWithin self.now.variables clause.now) }
    {
        let index = self.index_of(number)?;
        let place = self.places[index];
        if !place.is_there {
            return None;
        }
        Some(&self.literals[place.start..place.end])
    }

    // The index of a number, if a clause with it was there.
    fn index_of(&self, number: u64) -> Option<usize>
        ensures within { IfSome result (λ index. index < length self.now.numbers.items) }
        ensures found { IfSome result (λ index. slice_index self.now.numbers.items index ≡ number) }
        ensures absent { IfNone result ((i : ℕ) → i < length self.now.numbers.items → slice_index self.now.numbers.items i ≢ number) }
    {
        let numbers = self.numbers.as_slice();
        let guess = guess_of(self.guesses.as_slice(), number);
        if guess < numbers.len() && numbers[guess] == number {
            return Some(guess);
        }
        find(numbers, number)
    }

    /// Drops the clause of a number. It returns whether it was there.
    pub(crate) fn remove(&mut self, number: u64) -> bool
        ensures was { result ≡ is_some ((progress_of self.old).there number) }
        ensures removed { IsTrue result → progress_of self.new ≡ without_clause number (progress_of self.old) }
        ensures variables { self.new.variables ≡ self.old.variables }
    {
        let Some(index) = self.index_of(number) else {
            return false;
        };
        let place = self.places[index];
        if !place.is_there {
            return false;
        }
        self.places[index] = Place {
            start: place.start,
            end: place.end,
            is_there: false,
        };
        self.dropped = self.dropped.saturating_add(place.end - place.start + 1);
        true
    }

    /// Gives the memory of dropped clauses back, once it is most, and makes room for guesses.
    pub(crate) fn tidy(&mut self, alloc: Global) -> Result<(), NoMemory>
        ensures progress { OnOk result (progress_of self.new ≡ progress_of self.old) }
        ensures variables { self.new.variables ≡ self.old.variables }
    {
        let is_wasteful = self.dropped > self.literals.len() / 2 + self.numbers.len() / 2;
        if is_wasteful || self.numbers.len() > self.guesses.len() / 2 {
            let kept = self.kept(alloc)?;
            *self = kept;
        }
        Ok(())
    }

    // The same clauses, in memory of their own.
    fn kept(&self, alloc: Global) -> Result<Database, NoMemory>
        ensures progress { IfOk result (λ database. progress_of database ≡ progress_of self.now) }
        ensures variables { IfOk result (λ database. database.variables ≡ self.now.variables) }
    {
        let mut database = Database::new(alloc, self.variables, self.numbers.len())?;
        for k in 0..self.numbers.len() {
            self.keep(k, &mut database)?;
        }
        database.last = self.last;
        database.is_refuted = self.is_refuted;
        Ok(database)
    }

    // Adds the clause at an index to those that are kept, if it is still there.
    fn keep(&self, index: usize, database: &mut Database) -> Result<(), NoMemory>
        requires within { index < length self.now.numbers.items }
        requires above { database.old.last < slice_index self.now.numbers.items index }
        requires variables { database.old.variables ≡ self.now.variables }
        ensures kept { OnOk result (Keeps (slice_index self.now.numbers.items index) (progress_of self.now).there
            (progress_of database.old).there (progress_of database.new).there) }
        ensures last { OnOk result (database.new.last ≤ slice_index self.now.numbers.items index) }
        ensures variables { database.new.variables ≡ database.old.variables }
    {
        let place = self.places[index];
        if !place.is_there {
            return Ok(());
        }
        database.add(self.numbers[index], &self.literals[place.start..place.end])
    }
}

// Whether a clause is without literals, or one was before.
fn has_empty(before: bool, clause: &[Literal]) -> bool
    ensures { result ≡ (before || is_empty clause.now) }
{
    match clause.first() {
        Some(_) => before,
        None => true,
    }
}

// Where a number may be.
fn guess_of(guesses: &[usize], number: u64) -> usize {
    if guesses.is_empty() {
        return 0;
    }
    guesses[number as usize % guesses.len()]
}

// Notes where a number is.
fn note(guesses: &mut Vec<usize>, number: u64, index: usize) {
    if guesses.is_empty() {
        return;
    }
    let slot = number as usize % guesses.len();
    guesses[slot] = index;
}

// The index of a number among ascending ones.
fn find(numbers: &[u64], number: u64) -> Option<usize>
    requires { Ascends numbers.now }
    ensures within { IfSome result (λ index. index < length numbers.now) }
    ensures found { IfSome result (λ index. slice_index numbers.now index ≡ number) }
    ensures absent { IfNone result ((i : ℕ) → i < length numbers.now → slice_index numbers.now i ≢ number) }
{
    let mut low = 0;
    let mut high = numbers.len();
    while low < high {
        let middle = low + (high - low) / 2;
        if numbers[middle] < number {
            low = middle + 1;
        } else {
            high = middle;
        }
    }
    if low < numbers.len() && numbers[low] == number {
        Some(low)
    } else {
        None
    }
}
