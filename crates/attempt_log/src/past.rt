//! Engines: what a cycle has committed.

ghost use Rattle.std.specs.Prelude.{◌≡◌, ◌+◌, ◌*◌, ◌<◌, ℕ, List, [], ◌∷◌, ◌++◌, Option, Some, length, IfOk, All};
ghost use Rattle.typed_core.specs.Widths.{register_widths};
ghost use Rattle.typed_core.specs.declared.access.Event.{Event};
ghost use Rattle.attempt_log.specs.inner.Firsts.{access_of, clash_of, earlier_of, in_the_way, noted, noted_all, place_of, row, earliest_below};
ghost use Rattle.attempt_log.specs.Past.{HasPlaces, StandsFor, kinds};
ghost use Rattle.one_rule.specs.declared.cycle.Fired.{Fired};
ghost use Rattle.attempt_log.specs.Verdict.{clash};

use crate::cause::Cause;
use crate::first::{Commit, Firsts};
use crate::traced::Attempt;
use kw_bits::NoMemory;
use std::alloc::Global;
use std::marker::Model;
use typed_core::limits::PORTS;
use typed_core::{Access, Design, Event};

// The kinds of access of a register: reads, and after them writes, each at all ports.
const KINDS: u32 = PORTS + PORTS;

/// What a cycle has committed: for each register and kind of access the first commit that made one.
#[derive(Debug, Drop)]
pub struct Past {
    firsts: Firsts,
    count: u32,
}

// A commit, and the access of its that is in the way of another.
#[derive(Clone, Copy, Debug, PartialEq, Eq)]
pub(crate) struct Clashing {
    pub(crate) commit: Commit,
    pub(crate) earlier: Access,
}

impl Model for Past {
    ghost use Rattle.attempt_log.specs.Past.{Commits};

    ghost Value = { Commits };

    ghost view = { λ p. record { firsts = p.firsts; count = p.count } };
}

impl Past {
    /// Nothing is committed. There is memory for every register of the design.
    pub fn new(alloc: Global, design: &Design) -> Result<Past, NoMemory>
        ensures stands { IfOk result (λ past. StandsFor (register_widths design.now) past []) }
        ensures places { IfOk result (λ past. HasPlaces (length design.now.regs) past) }
        ensures count { IfOk result (λ past. past.count ≡ 0) }
    {
        let places = KINDS as usize * design.regs.len();
        Ok(Past {
            firsts: Firsts::new(alloc, places)?,
            count: 0,
        })
    }

    /// Adds an attempt, where fewer were taken than its design has rules.
    pub fn take(&mut self, attempt: &Attempt)
        requires places { HasPlaces (length attempt.now.design.regs) self.old }
        requires few { self.old.count < length attempt.now.design.rules }
        ensures stands { (fired : List Fired) → StandsFor (register_widths attempt.now.design) self.old fired
            → StandsFor (register_widths attempt.now.design) self.new (fired ++ record { rule = attempt.now.rule; events = attempt.now.run.events } ∷ []) }
        ensures places { length self.new.firsts ≡ length self.old.firsts }
        ensures count { self.new.count ≡ self.old.count + 1 }
    {
        // A design has few rules, so that their count fits.
        let design = attempt.design();
        let _few = &design.rules;
        let commit = Commit {
            position: self.count,
            rule: attempt.rule(),
        };
        note_all(&mut self.firsts, attempt.events().as_slice(), commit);
        self.count += 1;
    }

    /// Takes all away. The memory stays.
    pub fn clear(&mut self)
        ensures stands { (widths : List ℕ) (fired : List Fired) → StandsFor widths self.old fired → StandsFor widths self.new [] }
        ensures places { length self.new.firsts ≡ length self.old.firsts }
        ensures count { self.new.count ≡ 0 }
    {
        self.firsts.clear();
        self.count = 0;
    }

    // The clash of an access with the earliest rule that has one in its way.
    pub(crate) fn clash(&self, access: &Access) -> Option<Cause>
        requires { (registers : ℕ) × HasPlaces registers self.now × (access.now.register < registers) }
        ensures { (widths : List ℕ) (fired : List Fired) → StandsFor widths self.now fired → result ≡ clash access.now fired }
    {
        match self.earliest(access) {
            Some(found) => Some(cause_of(*access, found)),
            None => None,
        }
    }

    // The earliest commit that is in the way of an access.
    fn earliest(&self, access: &Access) -> Option<Clashing>
        requires { (registers : ℕ) × HasPlaces registers self.now × (access.now.register < registers) }
        ensures { result ≡ earliest_below access.now (row self.now.firsts access.now.register) kinds }
    {
        let mut first = None;
        for kind in 0..KINDS {
            match self.in_the_way(access, kind) {
                Some(found) => first = Some(earlier_of(first, found)),
                None => {}
            }
        }
        first
    }

    // What of a kind is in the way of an access.
    fn in_the_way(&self, access: &Access, kind: u32) -> Option<Clashing>
        requires places { (registers : ℕ) × HasPlaces registers self.now × (access.now.register < registers) }
        requires kind { kind < kinds }
        ensures { result ≡ in_the_way access.now (row self.now.firsts access.now.register) kind }
    {
        let earlier = access_of(kind, access.register);
        // Most registers have few kinds of access, so this is looked at first.
        let Some(commit) = self.firsts.get(place_of(&earlier)) else {
            return None;
        };
        if !access.clashes_after(&earlier) {
            return None;
        }
        Some(Clashing { commit, earlier })
    }
}

// The clash of an access with one that was found in its way.
fn cause_of(access: Access, found: Clashing) -> Cause
    ensures { result ≡ clash_of access found }
{
    Cause::Clash {
        access,
        rule: found.commit.rule,
        earlier: found.earlier,
    }
}

// The one with the earlier commit, and of two with the same the first.
fn earlier_of(a: Option<Clashing>, b: Clashing) -> Clashing
    ensures { Some result ≡ earlier_of a (Some b) }
{
    match a {
        None => b,
        Some(one) => {
            if b.commit.position < one.commit.position {
                b
            } else {
                one
            }
        }
    }
}

// The access of a kind of a register.
fn access_of(kind: u32, register: u32) -> Access
    ensures { result ≡ access_of kind register }
{
    if kind < PORTS {
        Access {
            write: false,
            port: kind,
            register,
        }
    } else {
        Access {
            write: true,
            port: kind - PORTS,
            register,
        }
    }
}

// Where the first commit with an access is kept.
fn place_of(access: &Access) -> usize
    ensures { result ≡ place_of access.now }
{
    let port = access.port as usize;
    let kind = if access.write {
        PORTS as usize + port
    } else {
        port
    };
    KINDS as usize * access.register as usize + kind
}

// Notes the accesses of a commit, each at its place.
fn note_all(firsts: &mut Firsts, events: &[Event], commit: Commit)
    requires { All (λ e. place_of e.access < length firsts.old) events.now }
    ensures noted { firsts.new ≡ noted_all commit firsts.old events.now }
    ensures length { length firsts.new ≡ length firsts.old }
{
    for event in events {
        note(firsts, &event.access, commit);
    }
}

// Notes an access at its place, if that holds nothing yet.
fn note(firsts: &mut Firsts, access: &Access, commit: Commit)
    requires { place_of access.now < length firsts.old }
    ensures { firsts.new ≡ noted commit firsts.old access.now }
{
    let place = place_of(access);
    if firsts.get(place).is_none() {
        firsts.put(place, commit);
    }
}
