//! A rule after an empty scheduler log.

use crate::designs::{Step, design_of};
use crate::settings::{Setting, setting_of};
use action_interp::{RuleEnd, RuleRun, run_rule};
use kw_bits::NoMemory;
use one_rule::first_values;
use rule_log::Log;
use std::alloc::Global;
use std::process::Abort;
use std::test::Fail;
use typed_core::Access;

// How the first rule ends.
fn end_of(rt: &impl Abort, alloc: Global, setting: &Setting) -> Result<RuleEnd, NoMemory> {
    let inputs = setting.stimulus.inputs(1)?;
    let regs = first_values(alloc, &setting.design)?;
    let sched = Log::new(alloc, &setting.design)?;
    assert!(rt; !setting.design.rules.is_empty());
    let run = run_rule(
        alloc,
        &setting.design,
        &setting.externs,
        0,
        &inputs,
        &regs,
        &sched,
    )?;
    Ok(match run {
        RuleRun::Fired(_) => RuleEnd::Fired,
        RuleRun::Aborted => RuleEnd::Aborted,
        RuleRun::Blocked(access) => RuleEnd::Blocked(access),
    })
}

const WRITE: Step = Step::Copy(1, 0, 0, 0);

const REFUSED: Access = Access {
    write: true,
    port: 1,
    register: 0,
};

#[test]
fn a_rule_ends_in_one_of_three_ways(rt: HostRuntime) -> Result<(), Fail> {
    let cases: [(&'static [Step], RuleEnd); 3] = [
        (&[WRITE], RuleEnd::Fired),
        (&[Step::Abort], RuleEnd::Aborted),
        (&[WRITE, WRITE], RuleEnd::Blocked(REFUSED)),
    ];
    for (steps, want) in cases {
        let design = design_of(&rt, rt.alloc(), &[0], &[steps], &[])?;
        let setting = setting_of(rt.alloc(), design)?;
        assert_eq!(rt; end_of(&rt, rt.alloc(), &setting)?, want);
    }
    Ok(())
}
