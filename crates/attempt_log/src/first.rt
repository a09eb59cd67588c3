//! Engines: the first commit with each kind of access.

ghost use Rattle.std.specs.Prelude.{◌≡◌, ◌<◌, ◌⊎◌, ℕ, List, Option, Some, None, length, replicate, slice_index_or, slice_set, false, IfOk, All};
ghost use Rattle.attempt_log.specs.inner.Firsts.{is_listed};

use kw_bits::{NoMemory, Reserved};
use std::alloc::Global;
use std::marker::Model;

// The first commit with some access: how many were committed before it, and its rule.
#[derive(Clone, Copy, Debug, PartialEq, Eq)]
pub(crate) struct Commit {
    pub(crate) position: u32,
    pub(crate) rule: u32,
}

// A table that keeps the first commit that is put at each place.
#[derive(Debug, Drop)]
pub(crate) struct Firsts {
    commits: Reserved<Option<Commit>>,
    // The places that hold one, which are all that a clear has to walk.
    touched: Reserved<usize>,
}

impl Model for Firsts {
    ghost use Rattle.std.specs.Prelude.{List, Option};
    ghost use Rattle.attempt_log.specs.declared.first.Commit.{Commit};

    ghost Value = { List (Option Commit) };

    ghost view = { λ f. f.commits.items };

    ghost use Rattle.attempt_log.specs.inner.Firsts.{IsSound};

    ghost invariant = { λ f. IsSound f.commits.items f.touched.items f.touched.capacity };
}

impl Firsts {
    /// A table of that many places that hold nothing.
    pub(crate) fn new(alloc: Global, places: usize) -> Result<Firsts, NoMemory>
        ensures { IfOk result (λ firsts. firsts ≡ replicate places None) }
    {
        Ok(Firsts {
            commits: nothing(alloc, places)?,
            touched: Reserved::with_capacity(alloc, places)?,
        })
    }

    /// What a place holds.
    pub(crate) fn get(&self, number: usize) -> Option<Commit>
        requires { number < length self.now }
        ensures { result ≡ slice_index_or self.now number None }
    {
        self.commits[number]
    }

    /// Puts a commit at a place that holds nothing.
    pub(crate) fn put(&mut self, number: usize, commit: Commit)
        requires within { number < length self.old }
        requires first { slice_index_or self.old number None ≡ None }
        ensures { self.new ≡ slice_set self.old number (Some commit) }
    {
        self.commits.set(number, Some(commit));
        self.touched.push(number);
    }

    /// Leaves nothing at any place.
    pub(crate) fn clear(&mut self)
        ensures { self.new ≡ replicate (length self.old) None }
    {
        clear_places(&mut self.commits, self.touched.as_slice());
        self.touched.clear();
    }
}

// Leaves nothing at these places.
fn clear_places(commits: &mut Reserved<Option<Commit>>, places: &[usize])
    requires { All (λ number. number < length commits.old.items) places.now }
    ensures length { length commits.new.items ≡ length commits.old.items }
    ensures each { (number : ℕ) → (slice_index_or commits.new.items number None ≡ None)
        ⊎ ((slice_index_or commits.new.items number None ≡ slice_index_or commits.old.items number None) × (is_listed places.now number ≡ false)) }
{
    for number in places {
        commits.set(*number, None);
    }
}

// That many places that hold nothing.
fn nothing(alloc: Global, places: usize) -> Result<Reserved<Option<Commit>>, NoMemory>
    ensures { IfOk result (λ list. list.items ≡ replicate places None) }
{
    let mut list = Reserved::with_capacity(alloc, places)?;
    for _ in 0..places {
        list.push(None);
    }
    Ok(list)
}
