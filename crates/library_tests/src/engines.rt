//! One design after another, run by whole rules and by the plain engine.

ghost use Rattle.std.specs.Prelude.{◌<◌, length};
ghost use Rattle.one_rule.specs.Rows.{RowsFit};

use crate::designs::{Place, Rules, Step, design_of};
use crate::settings::{Setting, setting_of};
use kw_bits::{NoMemory, Text};
use one_rule::{Row, Rows, first_values, slow_cycle};
use plain_run::{cycle, run, run_from};
use std::alloc::Global;
use std::process::Abort;
use std::test::Fail;
use stim_report::{shape_of, summary};
use typed_core::{Design, Next};

// A design, what its first cycle leaves in the registers, and which rules fire in it.
struct Case {
    first: &'static [u128],
    rules: Rules,
    nodes: &'static [Place],
    left: &'static [u128],
    fired: &'static [bool],
}

const END: Next = Next::End;

const SWAP: Rules = &[&[Step::Copy(0, 0, 0, 1)], &[Step::Copy(0, 1, 0, 0)]];

const TWO: [Place; 2] = [(0, Next::Node(1), Next::Node(1)), (1, END, END)];

const FOUR: [Place; 4] = [
    (0, Next::Node(1), Next::Node(1)),
    (1, Next::Node(2), Next::Node(2)),
    (2, Next::Node(3), Next::Node(3)),
    (3, END, END),
];

const CASES: [Case; 3] = [
    // Rules that swap two registers.
    Case {
        first: &[1, 2],
        rules: SWAP,
        nodes: &TWO,
        left: &[2, 2],
        fired: &[true, false],
    },
    // Each port sees the writes below it.
    Case {
        first: &[1],
        rules: &[
            &[Step::Put(0, 0, 2)],
            &[Step::Next(1, 0, 1, 0)],
            &[Step::Next(2, 0, 2, 0)],
            &[Step::Next(3, 0, 3, 0)],
        ],
        nodes: &FOUR,
        left: &[5],
        fired: &[true, true, true, true],
    },
    // A rule in yes that is refused, and two in no, of which the first fires.
    Case {
        first: &[0],
        rules: &[
            &[Step::Next(0, 0, 0, 0)],
            &[Step::Next(0, 0, 0, 0)],
            &[Step::Next(1, 0, 1, 0)],
            &[Step::Next(2, 0, 2, 0)],
        ],
        nodes: &[
            (0, Next::Node(1), END),
            (1, END, Next::Node(2)),
            (2, END, Next::Node(3)),
            (3, END, END),
        ],
        left: &[2],
        fired: &[true, false, true, false],
    },
];

fn expect_row(rt: &impl Abort, row: &Row, left: &[u128], fired: &[bool]) {
    assert!(rt;
        row.regs
            .iter()
            .map(|value| value.number())
            .eq(left.iter().copied()),
        "{left:?}"
    );
    assert!(rt; row.fired.iter().eq(fired.iter()), "{fired:?}");
}

fn expect_same(rt: &impl Abort, row: &Row, other: &Row) {
    assert_eq!(rt; row.regs.as_slice(), other.regs.as_slice());
    assert_eq!(rt; row.fired.as_slice(), other.fired.as_slice());
}

// The row of the first cycle, by whole rules.
fn whole_row(alloc: Global, setting: &Setting) -> Result<Row, NoMemory> {
    let inputs = setting.stimulus.inputs(1)?;
    let regs = first_values(alloc, &setting.design)?;
    slow_cycle(alloc, &setting.design, &setting.externs, &inputs, &regs)
}

// The same by the plain engine.
fn plain_row(alloc: Global, setting: &Setting) -> Result<Row, NoMemory> {
    let inputs = setting.stimulus.inputs(1)?;
    let regs = first_values(alloc, &setting.design)?;
    cycle(alloc, &setting.design, &setting.externs, &inputs, &regs)
}

// The rows from the second cycle to the fourth, on a row that a run left in the second.
fn later_rows(alloc: Global, setting: &Setting, rows: &Rows) -> Result<Rows, NoMemory>
    requires fit { RowsFit setting.now.design rows.now }
    requires long { 2 < length rows.now }
{
    let Setting {
        design,
        externs,
        stimulus,
    } = setting;
    run_from(alloc, design, externs, stimulus, &rows.get(2).regs, 2, 4)
}

// A run goes on as another went on from its second cycle.
fn expect_same_runs(rt: &impl Abort, alloc: Global, setting: &Setting) -> Result<(), NoMemory> {
    let rows = run(
        alloc,
        &setting.design,
        &setting.externs,
        &setting.stimulus,
        4,
    )?;
    assert!(rt; rows.len() == 5);
    let later = later_rows(alloc, setting, &rows)?;
    assert!(rt; later.len() == 3);
    expect_same(rt, later.get(2), rows.get(4));
    Ok(())
}

// The engines leave the row of the first cycle.
fn expect_first(
    rt: &impl Abort,
    alloc: Global,
    setting: &Setting,
    left: &[u128],
    fired: &[bool],
) -> Result<(), NoMemory> {
    let whole = whole_row(alloc, setting)?;
    expect_row(rt, &whole, left, fired);
    expect_same(rt, &plain_row(alloc, setting)?, &whole);
    expect_same_runs(rt, alloc, setting)
}

fn expect_case(rt: &impl Abort, alloc: Global, case: &Case) -> Result<(), NoMemory> {
    let design = design_of(rt, alloc, case.first, case.rules, case.nodes)?;
    let setting = setting_of(alloc, design)?;
    expect_first(rt, alloc, &setting, case.left, case.fired)
}

#[test]
fn rules_run_whole_in_every_engine(rt: HostRuntime) -> Result<(), Fail> {
    for case in &CASES {
        expect_case(&rt, rt.alloc(), case)?;
    }
    Ok(())
}

// The summary of a run of a design.
fn summary_of(alloc: Global, design: &Design, rows: &Rows) -> Result<Text, NoMemory>
    requires fit { RowsFit design.now rows.now }
    requires some { 0 < length rows.now }
{
    let shape = shape_of(alloc, design)?;
    summary(alloc, &shape, rows)
}

#[test]
fn a_run_is_summed_up(rt: HostRuntime) -> Result<(), Fail> {
    let design = design_of(&rt, rt.alloc(), &[1, 2], SWAP, &TWO)?;
    let setting = setting_of(rt.alloc(), design)?;
    let Setting {
        design,
        externs,
        stimulus,
    } = &setting;
    assert!(rt; design.same(design) && stimulus.same(stimulus));
    let rows = run(rt.alloc(), design, externs, stimulus, 4)?;
    assert_eq!(rt; rows.len(), 5);
    let text = summary_of(rt.alloc(), design, &rows)?;
    assert_eq!(rt;
        text.as_slice(),
        b"cycles 4\nfired  4\nfired  0\n=02\n=02\n".as_slice()
    );
    Ok(())
}
