//! Attempts at the rules of one design, and the verdicts on them.

ghost use Rattle.std.specs.Prelude.{◌≡◌, [], IfOk, IfSome, length};
ghost use Rattle.std.specs.Arc.{arc_value};
ghost use Rattle.typed_core.specs.Valid.{externs_of};
ghost use Rattle.one_rule.specs.Externs.{kept};
ghost use Rattle.attempt_log.specs.Past.{HasPlaces};

use crate::designs::{Listed, Rules, Step, design_of, events_of};
use attempt_log::{Attempt, Cause, Past, Verdict, verdict};
use kw_bits::NoMemory;
use one_rule::{Externs, Inputs, first_values};
use std::alloc::Global;
use std::process::Abort;
use std::sync::Arc;
use std::test::Fail;
use typed_core::{Access, Design, Next, Outcome};

const SECOND_WRITE: Access = Access {
    write: true,
    port: 1,
    register: 0,
};

// Rules that were committed with these events, a rule that is tried with these, and the verdict on it where the
// registers have their first values.
#[derive(Clone, Copy)]
struct Case {
    name: &'static str,
    committed: &'static [(u32, &'static [Listed])],
    rule: u32,
    events: &'static [Listed],
    outcome: Outcome,
    want: Told,
}

// A verdict: a clash with its rule, whether the earlier access is a write, and its port; a stale read with its values.
#[derive(Clone, Copy, PartialEq, Eq)]
enum Told {
    Commit,
    Abort,
    OwnClash,
    Clash(u32, bool, u32),
    Stale(u128, u128),
}

const FIRST: &[u128] = &[1, 7, 3];

const SENDS: &[Step] = &[Step::Put(0, 1, 7)];

const RULES: Rules = &[
    SENDS,
    &[Step::Copy(0, 0, 1, 1)],
    &[Step::Put(0, 0, 2), Step::Abort],
    &[Step::Put(1, 0, 2), Step::Put(1, 0, 3)],
    &[Step::Copy(3, 2, 2, 2), Step::Copy(0, 0, 1, 2)],
    &[Step::Copy(1, 0, 3, 2)],
    &[Step::Put(0, 2, 9)],
    &[Step::Put(0, 2, 5), Step::Copy(0, 0, 1, 2)],
    &[Step::Copy(0, 0, 0, 2), Step::Copy(1, 0, 0, 2)],
];

const SENT: &[Listed] = &[(true, 0, 1, 7)];

const READ_AND_WRITTEN: &[Listed] = &[
    (false, 2, 2, 3),
    (true, 3, 2, 3),
    (false, 1, 2, 3),
    (true, 0, 0, 3),
];

const CASES: [Case; 8] = [
    Case {
        name: "changed",
        committed: &[(0, SENT)],
        rule: 1,
        events: &[(false, 1, 1, 2), (true, 0, 0, 2)],
        outcome: Outcome::Done,
        want: Told::Stale(2, 7),
    },
    Case {
        name: "made again",
        committed: &[(0, SENT)],
        rule: 1,
        events: &[(false, 1, 1, 7), (true, 0, 0, 7)],
        outcome: Outcome::Done,
        want: Told::Commit,
    },
    Case {
        name: "abort",
        committed: &[],
        rule: 2,
        events: &[(true, 0, 0, 2)],
        outcome: Outcome::Abort,
        want: Told::Abort,
    },
    Case {
        name: "own clash",
        committed: &[],
        rule: 3,
        events: &[(true, 1, 0, 2)],
        outcome: Outcome::OwnClash(SECOND_WRITE),
        want: Told::OwnClash,
    },
    Case {
        name: "first clash",
        committed: &[
            (4, READ_AND_WRITTEN),
            (5, &[(false, 3, 2, 3), (true, 1, 0, 3)]),
        ],
        rule: 6,
        events: &[(true, 0, 2, 9)],
        outcome: Outcome::Done,
        want: Told::Clash(4, false, 1),
    },
    Case {
        name: "clash, not stale",
        committed: &[(4, READ_AND_WRITTEN)],
        rule: 5,
        events: &[(false, 3, 2, 4), (true, 1, 0, 4)],
        outcome: Outcome::Done,
        want: Told::Clash(4, true, 3),
    },
    Case {
        name: "own write",
        committed: &[],
        rule: 7,
        events: &[(true, 0, 2, 5), (false, 1, 2, 5), (true, 0, 0, 5)],
        outcome: Outcome::Done,
        want: Told::Commit,
    },
    Case {
        name: "contradiction",
        committed: &[],
        rule: 8,
        events: &[
            (false, 0, 2, 3),
            (true, 0, 0, 3),
            (false, 0, 2, 4),
            (true, 1, 0, 4),
        ],
        outcome: Outcome::Done,
        want: Told::Stale(4, 3),
    },
];

// The attempt of these events, if they are a trace.
fn attempt_of(
    rt: &impl Abort,
    alloc: Global,
    design: &Arc<Design>,
    externs: &Externs,
    rule: u32,
    listed: &[Listed],
    outcome: Outcome,
) -> Result<Option<Attempt>, NoMemory>
    requires externs { kept externs.now ≡ externs_of (arc_value design.now) }
    requires inputs { (arc_value design.now).inputs ≡ [] }
    ensures { IfOk result (λ made. IfSome made (λ a. a.design ≡ arc_value design.now)) }
{
    assert!(rt; (rule as usize) < design.rules.len());
    let events = events_of(rt, alloc, listed)?;
    let inputs = Inputs::new(alloc);
    let shared = Arc::try_clone(design)?;
    Attempt::of_trace(alloc, shared, externs, 1, rule, inputs, events, outcome)
}

// The design of these rules, whose scheduler tries the first.
fn first_tried(rt: &impl Abort, alloc: Global) -> Result<Design, NoMemory>
    ensures inputs { IfOk result (λ design. design.inputs ≡ []) }
    ensures hosts { IfOk result (λ design. design.hosts ≡ []) }
{
    design_of(rt, alloc, FIRST, RULES, &[(0, Next::End, Next::End)])
}

fn commit_all(
    rt: &impl Abort,
    alloc: Global,
    past: &mut Past,
    design: &Arc<Design>,
    externs: &Externs,
    committed: &[(u32, &'static [Listed])],
) -> Result<(), NoMemory>
    requires externs { kept externs.now ≡ externs_of (arc_value design.now) }
    requires inputs { (arc_value design.now).inputs ≡ [] }
    requires places { HasPlaces (length (arc_value design.now).regs) past.old }
    requires count { past.old.count ≡ 0 }
    ensures { IfOk result (λ _. HasPlaces (length (arc_value design.now).regs) past.new) }
{
    for (number, (rule, listed)) in committed.iter().enumerate() {
        let made = attempt_of(rt, alloc, design, externs, *rule, listed, Outcome::Done)?;
        let committed = made.expect(rt, "a trace");
        assert!(rt; number < design.rules.len());
        past.take(&committed);
    }
    Ok(())
}

fn summary(verdict: Verdict) -> Told {
    match verdict {
        Verdict::Commit => Told::Commit,
        Verdict::Skip(Cause::Abort) => Told::Abort,
        Verdict::Skip(Cause::OwnClash(_)) => Told::OwnClash,
        Verdict::Skip(Cause::Clash { rule, earlier, .. }) => {
            Told::Clash(rule, earlier.write, earlier.port)
        }
        Verdict::Stale(read) => Told::Stale(read.held.number(), read.now.number()),
    }
}

fn expect_case(
    rt: &impl Abort,
    alloc: Global,
    design: &Arc<Design>,
    externs: &Externs,
    case: &Case,
) -> Result<(), NoMemory>
    requires externs { kept externs.now ≡ externs_of (arc_value design.now) }
    requires inputs { (arc_value design.now).inputs ≡ [] }
{
    let mut past = Past::new(alloc, design)?;
    commit_all(rt, alloc, &mut past, design, externs, case.committed)?;
    let made = attempt_of(
        rt,
        alloc,
        design,
        externs,
        case.rule,
        case.events,
        case.outcome,
    )?;
    let tried = made.expect(rt, "a trace");
    let regs = first_values(alloc, design)?;
    let got = summary(verdict(&regs, &past, &tried));
    assert!(rt; got == case.want, "{}", case.name);
    Ok(())
}

#[test]
fn verdicts_tell_commits_causes_and_stale_reads(rt: HostRuntime) -> Result<(), Fail> {
    let design = Arc::new(rt.alloc(), first_tried(&rt, rt.alloc())?)?;
    let externs = Externs::new(rt.alloc(), &design, &[])?;
    for case in &CASES {
        expect_case(&rt, rt.alloc(), &design, &externs, case)?;
    }
    Ok(())
}

// Events and outcomes that are no trace of the rule that copies register 1, read at port 1, to register 0: an event is
// missing, one is too many, another port, value, outcome, width and register.
const NO_TRACES: [(&[Listed], Outcome); 7] = [
    (&[(false, 1, 1, 2)], Outcome::Done),
    (
        &[(false, 1, 1, 2), (true, 0, 0, 2), (true, 1, 0, 2)],
        Outcome::Done,
    ),
    (&[(false, 0, 1, 2), (true, 0, 0, 2)], Outcome::Done),
    (&[(false, 1, 1, 2), (true, 0, 0, 3)], Outcome::Done),
    (&[(false, 1, 1, 2), (true, 0, 0, 2)], Outcome::Abort),
    (&[(false, 1, 1, 300), (true, 0, 0, 300)], Outcome::Done),
    (&[(false, 1, 9, 2), (true, 0, 0, 2)], Outcome::Done),
];

#[test]
fn other_events_are_no_trace(rt: HostRuntime) -> Result<(), Fail> {
    let design = Arc::new(rt.alloc(), first_tried(&rt, rt.alloc())?)?;
    let externs = Externs::new(rt.alloc(), &design, &[])?;
    for (listed, outcome) in &NO_TRACES {
        let made = attempt_of(&rt, rt.alloc(), &design, &externs, 1, listed, *outcome)?;
        assert!(rt; made.is_none());
    }
    Ok(())
}
