//! Lint: what the body of a rule has to do with one of its accesses.

ghost use Rattle.std.specs.Prelude.{◌≡◌, length, map};
ghost use Rattle.koika_check.specs.declared.typed.Operation.TheVariants as operation;
ghost use Rattle.lab_lint.specs.Occurrences.{bodies_before, choice, in_turn, one, own, part_of, rule_part};
ghost use Rattle.lab_lint.specs.inner.Occurrences.{part_of_step};
ghost use Rattle.lab_lint.specs.Refusals.{is_refused_in};
ghost use Rattle.lab_lint.specs.declared.occurrence.Occurrence.TheVariants as occurrence;
ghost use Rattle.lab_lint.specs.inner.Meetings as meetings;
ghost use Rattle.lab_lint.specs.inner.Meetings.{meeting_of};

use koika_check::{BlockStep, Checked, Operation, Typed};
use typed_core::Access;

/// What a part of a body has to do with an access.
#[derive(Clone, Copy, Debug, PartialEq, Eq)]
pub(crate) struct Meeting {
    /// Whether the access occurs in it.
    pub occurs: bool,
    /// Whether an access occurs in it that the access cannot follow.
    pub hinders: bool,
    /// Whether the access occurs in it after one that it cannot follow.
    pub is_refused: bool,
}

impl Meeting {
    const NONE: Meeting = Meeting {
        occurs: false,
        hinders: false,
        is_refused: false,
    };

    // One of two parts.
    fn either(self, other: Meeting) -> Meeting
        ensures { result ≡ meetings.either self other }
    {
        Meeting {
            occurs: self.occurs || other.occurs,
            hinders: self.hinders || other.hinders,
            is_refused: self.is_refused || other.is_refused,
        }
    }

    // A part, and then another.
    fn before(self, later: Meeting) -> Meeting
        ensures { result ≡ meetings.in_order self later }
    {
        Meeting {
            occurs: self.occurs || later.occurs,
            hinders: self.hinders || later.hinders,
            is_refused: self.is_refused || later.is_refused || (self.hinders && later.occurs),
        }
    }
}

/// Whether the access occurs in a rule's body after one that it cannot follow.
pub(crate) fn is_refused(design: &Checked, rule: usize, access: Access) -> bool
    ensures { result ≡ is_refused_in (rule_part design.now rule) access }
{
    match design.rules.as_slice().get(rule) {
        Some(rule) => meet(design, design.functions.len(), access, &rule.body).is_refused,
        None => false,
    }
}

// What an expression has to do with the access, where the first that many functions may be called.
#[cycle(meeting)]
#[tactic(auto, using(crate::proofs::Layers::layers))]
fn meet(design: &Checked, functions: usize, access: Access, of: &Typed) -> Meeting
    ensures { result ≡ meeting_of access (part_of (bodies_before design.now functions) of.now) }
{
    match of {
        Typed::Constant(_) => Meeting::NONE,
        Typed::Local(_) => Meeting::NONE,
        Typed::Input(_) => Meeting::NONE,
        Typed::Apply(operation, operands) => {
            let first = meet_operands(design, functions, access, operands.as_slice());
            first.before(meet_operation(design, functions, access, operation))
        }
        Typed::If { conditions, bodies } => meet_choice(
            design,
            functions,
            access,
            conditions.as_slice(),
            bodies.as_slice(),
        ),
        Typed::Block(steps) => meet_steps(design, functions, access, steps.as_slice()),
    }
}

// Operands from left to right, the last one first.
#[cycle(meeting)]
fn meet_operands(design: &Checked, functions: usize, access: Access, operands: &[Typed]) -> Meeting
    ensures { result ≡ meeting_of access (in_turn (map (part_of (bodies_before design.now functions)) operands.now)) }
{
    let mut all = Meeting::NONE;
    let mut at = operands.len();
    while at > 0 {
        at -= 1;
        all = meet(design, functions, access, &operands[at]).before(all);
    }
    all
}

// The steps of a block, the last one first.
#[cycle(meeting)]
fn meet_steps(design: &Checked, functions: usize, access: Access, steps: &[BlockStep]) -> Meeting
    ensures { result ≡ meeting_of access (in_turn (map (part_of_step (bodies_before design.now functions)) steps.now)) }
{
    let mut all = Meeting::NONE;
    let mut at = steps.len();
    while at > 0 {
        at -= 1;
        all = meet_step(design, functions, access, &steps[at]).before(all);
    }
    all
}

#[cycle(meeting)]
#[tactic(auto, using(crate::proofs::Layers::layers))]
fn meet_step(design: &Checked, functions: usize, access: Access, step: &BlockStep) -> Meeting
    ensures { result ≡ meeting_of access (part_of_step (bodies_before design.now functions) step.now) }
{
    match step {
        BlockStep::Let(value) => meet(design, functions, access, value),
        BlockStep::Do(value) => meet(design, functions, access, value),
        BlockStep::Give(value) => meet(design, functions, access, value),
    }
}

// Conditions, each before its body and before all that is after its `else`.
#[cycle(meeting)]
fn meet_choice(
    design: &Checked,
    functions: usize,
    access: Access,
    conditions: &[Typed],
    bodies: &[Typed],
) -> Meeting
    ensures { result ≡ meeting_of access (choice (map (part_of (bodies_before design.now functions)) conditions.now) (map (part_of (bodies_before design.now functions)) bodies.now)) }
{
    match bodies.split_first() {
        Some((body, later)) => match conditions.split_first() {
            Some((condition, conditions)) => {
                let first = meet(design, functions, access, condition);
                let arm = meet(design, functions, access, body);
                let other = meet_choice(design, functions, access, conditions, later);
                first.before(arm.either(other))
            }
            None => meet(design, functions, access, body),
        },
        None => Meeting::NONE,
    }
}

// An operation besides its operands.
#[cycle(meeting)]
fn meet_operation(
    design: &Checked,
    functions: usize,
    access: Access,
    operation: &Operation,
) -> Meeting
    ensures { result ≡ meeting_of access (own (bodies_before design.now functions) operation.now) }
{
    match operation {
        Operation::Read { port, register } => meet_access(access, false, *port, *register),
        Operation::Write { port, register } => meet_access(access, true, *port, *register),
        Operation::Call(number) => meet_body(design, functions, access, *number as usize),
        _ => Meeting::NONE,
    }
}

// The body of a function, if it is one of the first that many. It may call the functions before it.
#[cycle(meeting)]
fn meet_body(design: &Checked, functions: usize, access: Access, number: usize) -> Meeting
    ensures { result ≡ meeting_of access (own (bodies_before design.now functions) (operation.Call number)) }
{
    match design.functions.as_slice().get(number) {
        Some(function) if number < functions => meet(design, number, access, &function.body),
        _ => Meeting::NONE,
    }
}

// A read or a write.
fn meet_access(access: Access, write: bool, port: u32, register: u32) -> Meeting
    ensures { result ≡ meeting_of access (one (occurrence.Access (record { write = write; port = port; register = register }))) }
{
    let other = Access {
        write,
        port,
        register,
    };
    Meeting {
        occurs: access == other,
        hinders: access.clashes_after(&other),
        is_refused: false,
    }
}
