//! The lab: the trials of a cycle so far, and which of them an access clashes with.

ghost use Rattle.std.specs.Prelude.{◌≡◌, ◌∷◌, ◌++◌, [], ℕ, All, Bool, IfOk, OnOk};
ghost use Rattle.attempt_log.specs.Verdict.{clash, first_clash, named_first, kind_before};
ghost use Rattle.lab_core.specs.inner.Tops.{Covers, IsCovered, IsUnder, Keeps, clash_with, fired_by, fired_in, may_clash};

use crate::trial::{Trial, TrialVerdict};
use attempt_log::Cause;
use kw_bits::{NoMemory, Sequence};
use std::alloc::Global;
use std::marker::Model;
use typed_core::{Access, Event, Events};

// How high the ports are at which rules that fired accessed a register: no read is at a port above `read`, and no write
// at one from `write` on.
#[derive(Clone, Copy)]
pub(crate) struct Top {
    pub(crate) read: u64,
    pub(crate) write: u64,
}

/// The trials so far, in the order of the walk.
#[derive(Drop)]
pub(crate) struct Tried {
    list: Sequence<Trial>,
    // By register; one that has none here may have accesses at all ports.
    tops: Vec<Top>,
}

impl Model for Tried {
    ghost use Rattle.std.specs.Prelude.{List};
    ghost use Rattle.lab_core.specs.declared.trial.Trial.{Trial};
    ghost use Rattle.lab_core.specs.inner.Tops.{Covers, fired_in};

    ghost Value = { List Trial };

    ghost view = { λ t. t.list };

    ghost invariant = { λ t. Covers t.tops.items (fired_in t.list) };
}

impl Tried {
    /// No trial. Of that many registers it knows at once which ones no rule accessed.
    pub(crate) fn new(alloc: Global, registers: usize) -> Result<Tried, NoMemory>
        ensures { IfOk result (λ tried. tried ≡ []) }
    {
        let none = Top { read: 0, write: 0 };
        Ok(Tried {
            list: Sequence::new(alloc),
            tops: vec![in alloc; none; registers]?,
        })
    }

    /// What it takes memory from.
    pub(crate) fn allocator(&self) -> Global {
        *self.tops.allocator()
    }

    /// The clash of an access with the earliest rule that fired and has an access in its way.
    pub(crate) fn clash(&self, access: &Access) -> Option<Cause>
        ensures { result ≡ clash access.now (fired_in self.now) }
    {
        if may_clash(&self.tops, access) {
            clash(access, self.list.as_slice())
        } else {
            None
        }
    }

    /// Adds a trial.
    pub(crate) fn push(&mut self, trial: Trial) -> Result<(), NoMemory>
        ensures { OnOk result (self.new ≡ self.old ++ trial ∷ []) }
    {
        raise_for(&mut self.tops, &trial);
        self.list.push(trial)
    }

    /// The trials as a list.
    pub(crate) fn into_list(self) -> Sequence<Trial>
        ensures { result ≡ self }
    {
        self.list
    }
}

// Whether an access may clash with one of a rule that fired.
fn may_clash(tops: &[Top], access: &Access) -> bool
    ensures { result ≡ may_clash tops.now access.now }
{
    match tops.get(access.register as usize) {
        Some(top) => {
            let port = u64::from(access.port);
            port < top.write || (access.write && port < top.read)
        }
        None => true,
    }
}

// Raises the tops to cover the accesses of a trial whose rule fired.
fn raise_for(tops: &mut Vec<Top>, trial: &Trial)
    ensures covers { Covers tops.new.items (fired_by trial.now.verdict trial.now.rule trial.now.events) }
    ensures kept { Keeps tops.old.items tops.new.items }
{
    match trial.verdict {
        TrialVerdict::Fired => raise_all(tops, trial.events.as_slice()),
        TrialVerdict::Refused(_) => {}
    }
}

// Raises the tops to cover these events.
fn raise_all(tops: &mut Vec<Top>, events: &[Event])
    ensures covers { All (λ e. IsCovered tops.new.items e.access) events.now }
    ensures kept { Keeps tops.old.items tops.new.items }
{
    for event in events {
        raise(tops, &event.access);
    }
}

// Raises the top of a register to cover an access.
fn raise(tops: &mut Vec<Top>, access: &Access)
    ensures covers { IsCovered tops.new.items access.now }
    ensures kept { Keeps tops.old.items tops.new.items }
{
    let register = access.register as usize;
    if register < tops.len() {
        tops[register] = top_with(tops[register], access);
    }
}

// The top that covers an access too.
fn top_with(top: Top, access: &Access) -> Top
    ensures covers { IsUnder result access.now.write access.now.port }
    ensures kept { (write : Bool) (port : ℕ) → IsUnder top write port → IsUnder result write port }
{
    let port = u64::from(access.port);
    if access.write && port >= top.write {
        Top {
            read: top.read,
            write: port + 1,
        }
    } else if !access.write && port > top.read {
        Top {
            read: port,
            write: top.write,
        }
    } else {
        top
    }
}

// The clash of an access with the earliest rule that fired and has an access in its way.
fn clash(access: &Access, tried: &[Trial]) -> Option<Cause>
    ensures { result ≡ clash access.now (fired_in tried.now) }
{
    for trial in tried {
        if let Some(earlier) = clash_with(access, trial) {
            return Some(Cause::Clash {
                access: *access,
                rule: trial.rule,
                earlier,
            });
        }
    }
    None
}

// The first access of a trial's rule that an access clashes with, if the rule fired.
fn clash_with(access: &Access, trial: &Trial) -> Option<Access>
    ensures { result ≡ clash_with access.now trial.now }
{
    match trial.verdict {
        TrialVerdict::Fired => first_clash(access, &trial.events),
        TrialVerdict::Refused(_) => None,
    }
}

// The first of these accesses that the access clashes with, reads before writes and lower ports before higher ones.
fn first_clash(access: &Access, events: &Events) -> Option<Access>
    ensures { result ≡ first_clash access.now events.now }
{
    let mut first = None;
    for number in (0..events.len()).rev() {
        let earlier = events.get(number).access;
        if access.clashes_after(&earlier) {
            first = Some(first_of(earlier, first));
        }
    }
    first
}

// Of an access and another, if there is one, the one that is named first.
fn first_of(access: Access, other: Option<Access>) -> Access
    ensures { result ≡ named_first access other }
{
    match other {
        Some(other) if is_named_before(&other, &access) => other,
        _ => access,
    }
}

fn is_named_before(a: &Access, b: &Access) -> bool
    ensures { result ≡ kind_before a.now.write a.now.port b.now.write b.now.port }
{
    match (a.write, b.write) {
        (false, true) => true,
        (true, false) => false,
        _ => a.port < b.port,
    }
}
