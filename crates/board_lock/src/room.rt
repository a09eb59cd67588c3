//! Room for the entry of the attempt at a job, which a worker takes before it makes the attempt.
ghost use Rattle.std.specs.Prelude.{◌≡◌, ◌-◌, ◌^◌, IfOk, min};
ghost use Rattle.std.specs.Arc.{arc_value};
ghost use Rattle.typed_core.specs.Same.{SameDesign};
ghost use Rattle.typed_core.specs.declared.design.Parts.{Parts};
ghost use Rattle.attempt_log.specs.Setting.{FitsItself};
ghost use Rattle.board_lock.specs.inner.Receipts.{IsCopy};
ghost use Rattle.board_lock.specs.inner.Rooms.{IsRoom, accesses};

use attempt_log::{Attempt, Job};
use kw_bits::{NoMemory, Reserved, Sequence};
use one_rule::Inputs;
use std::alloc::Global;
use typed_core::{Action, Design, Event, Events, Outcome};

/// The inputs of a job, and memory for as many events as its rule's body has reads and writes.
#[derive(Drop)]
pub(crate) struct Room {
    pub(crate) inputs: Inputs,
    pub(crate) events: Reserved<Event>,
}

/// What an entry keeps of an attempt.
#[derive(Drop)]
pub(crate) struct Copied {
    pub(crate) cycle: u32,
    pub(crate) rule: u32,
    pub(crate) inputs: Inputs,
    pub(crate) events: Events,
    pub(crate) outcome: Outcome,
}

impl Room {
    // Room for the attempt at a job.
    pub(crate) fn new(alloc: Global, job: &Job) -> Result<Room, NoMemory>
        requires { FitsItself job.now }
        ensures { IfOk result (IsRoom (arc_value job.now.design) job.now.rule job.now.inputs) }
    {
        let design: &Design = &job.design;
        let count = accesses(&design.rules[job.rule as usize].body);
        Ok(Room {
            inputs: Sequence::from_slice(alloc, job.inputs.as_slice())?,
            events: Reserved::with_capacity(alloc, count)?,
        })
    }

    // What an entry keeps of an attempt that it has room for. It takes no memory.
    pub(crate) fn filled(self, attempt: &Attempt) -> Copied
        requires { (d : Parts) × SameDesign attempt.now.design d × IsRoom d attempt.now.rule attempt.now.inputs self }
        ensures { IsCopy attempt.now result }
    {
        let Room { inputs, mut events } = self;
        let made = attempt.events();
        // A list has fewer items than a length can count.
        let _few = made.iter();
        events.extend_from_slice(made.as_slice());
        Copied {
            cycle: attempt.cycle(),
            rule: attempt.rule(),
            inputs,
            events: events.into_sequence(),
            outcome: *attempt.outcome(),
        }
    }
}

// How many reads and writes an action has, up to the largest number of its type.
fn accesses(action: &Action) -> usize
    ensures { result ≡ min (accesses action.now) (2 ^ 64 - 1) }
{
    match action {
        Action::Unit | Action::Const(_) | Action::Local(_) | Action::Input(_) | Action::Abort => 0,
        Action::Read(_, _) => 1,
        Action::Write(_, _, a) => accesses(a).saturating_add(1),
        Action::One(_, a)
        | Action::Slice(a, _, _)
        | Action::Zext(a, _)
        | Action::Sext(a, _)
        | Action::Table(_, a)
        | Action::Host(_, a) => accesses(a),
        Action::Two(_, a, b) | Action::Let(a, b) | Action::Seq(a, b) => {
            accesses(a).saturating_add(accesses(b))
        }
        Action::If(condition, first, second) => {
            let arms = accesses(first).saturating_add(accesses(second));
            accesses(condition).saturating_add(arms)
        }
    }
}
