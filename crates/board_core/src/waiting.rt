//! Engines: the attempts that wait for their turn.

ghost use Rattle.std.specs.Prelude.{◌≡◌, ◌<◌, length, replicate, slice_index_or, slice_set, None, Some, IfOk, is_some};

use attempt_log::Attempt;
use kw_bits::NoMemory;
use std::alloc::Global;
use std::marker::Model;

// The slots of a cycle, one for each rule: the attempts that wait until the cycle reaches their rules.
#[derive(Drop)]
pub(crate) struct Waiting {
    attempts: Vec<Option<Attempt>>,
}

impl Model for Waiting {
    ghost use Rattle.std.specs.Prelude.{List, Option};
    ghost use Rattle.std.specs.Coded.{codes};
    ghost use Rattle.typed_core.specs.contracts.action.Action as action;
    ghost use Rattle.attempt_log.specs.Attempt.{Attempted};

    ghost Value = { List (Option Attempted) };

    ghost coded = { Prim.hlevel (codes, action.the_row.coded) };

    ghost view = { λ w. w.attempts.items };
}

impl Waiting {
    // Empty slots for that many rules.
    pub(crate) fn new(alloc: Global, rules: usize) -> Result<Waiting, NoMemory>
        ensures { IfOk result (λ slots. slots ≡ replicate rules None) }
    {
        let mut attempts = Vec::with_capacity(alloc, rules)?;
        for _ in 0..rules {
            attempts.push_reserved(None);
        }
        Ok(Waiting { attempts })
    }

    // Whether an attempt is at the rule.
    pub(crate) fn stands(&self, rule: usize) -> bool
        requires { rule < length self.now }
        ensures { result ≡ is_some (slice_index_or self.now rule None) }
    {
        self.attempts[rule].is_some()
    }

    // Puts an attempt at the rule.
    pub(crate) fn put(&mut self, rule: usize, attempt: Attempt)
        requires { rule < length self.old }
        ensures { self.new ≡ slice_set self.old rule (Some attempt) }
    {
        self.attempts[rule] = Some(attempt);
    }

    // Takes away what is at the rule.
    pub(crate) fn take(&mut self, rule: usize) -> Option<Attempt>
        requires { rule < length self.old }
        ensures taken { result ≡ slice_index_or self.old rule None }
        ensures left { self.new ≡ slice_set self.old rule None }
    {
        self.attempts[rule].take()
    }

    // Empties all slots.
    pub(crate) fn clear(&mut self)
        ensures { self.new ≡ replicate (length self.old) None }
    {
        for rule in 0..self.attempts.len() {
            self.attempts[rule] = None;
        }
    }
}
