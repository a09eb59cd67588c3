//! Waves: what is written of the edges of the clock.

ghost use Rattle.std.specs.Prelude.{◌≡◌, ◌++◌, ◌+◌, ◌≤◌, ◌^◌, length, IfOk, OnOk};
ghost use Rattle.one_rule.specs.Stimulus.{inputs_of};
ghost use Rattle.stim_report.specs.Shapes.{RowsMatch, widths_of};
ghost use Rattle.wave_text.specs.Parts.{last_of, moments_before_last};
ghost use Rattle.wave_text.specs.Waves as texts;

use crate::changes::push_changes;
use crate::level::{Level, levels};
use crate::lines::{push_line, push_time};
use crate::variable::{Variable, variables};
use kw_bits::{NoMemory, Sequence, Text};
use one_rule::{Row, Stimulus};
use std::alloc::Global;
use stim_report::Shape;

/// The rising edge after this many cycles and the falling edge after it.
pub(crate) fn push_edge(
    text: &mut Text,
    variables: &[Variable],
    cycle: u32,
    before: &[Level],
    now: &[Level],
) -> Result<(), NoMemory>
    requires before { length before.now ≡ length variables.now }
    requires now { length now.now ≡ length variables.now }
    ensures { OnOk result (text.new ≡ text.old ++ texts.edge variables.now cycle before.now now.now) }
{
    let at = 10 * u64::from(cycle);
    push_time(text, at)?;
    push_rise(text, variables, cycle, before, now)?;
    push_time(text, at + 5)?;
    push_line(text, b"0c")?;
    Ok(())
}

// What is written at a rising edge. The values at time 0 are the initial ones.
fn push_rise(
    text: &mut Text,
    variables: &[Variable],
    cycle: u32,
    before: &[Level],
    now: &[Level],
) -> Result<(), NoMemory>
    requires before { length before.now ≡ length variables.now }
    requires now { length now.now ≡ length variables.now }
    ensures { OnOk result (text.new ≡ text.old ++ texts.marked cycle (texts.rise variables.now before.now now.now)) }
{
    if cycle > 0 {
        return push_clocked(text, variables, before, now);
    }
    push_line(text, b"$dumpvars")?;
    push_clocked(text, variables, before, now)?;
    push_line(text, b"$end")?;
    Ok(())
}

// The clock and what differs from before.
fn push_clocked(
    text: &mut Text,
    variables: &[Variable],
    before: &[Level],
    now: &[Level],
) -> Result<(), NoMemory>
    requires before { length before.now ≡ length variables.now }
    requires now { length now.now ≡ length variables.now }
    ensures { OnOk result (text.new ≡ text.old ++ texts.rise variables.now before.now now.now) }
{
    push_line(text, b"1c")?;
    push_changes(text, variables, before, now)?;
    Ok(())
}

/// What is written of a batch, and the values at its last edge.
#[derive(Debug, Drop)]
pub(crate) struct Written {
    pub(crate) text: Text,
    pub(crate) levels: Sequence<Level>,
}

/// All edges of rows but those of the last one. The first row is that of this cycle.
pub(crate) fn edges(
    alloc: Global,
    shape: &Shape,
    before: &[Level],
    stimulus: &Stimulus,
    rows: &[Row],
    cycle: u32,
) -> Result<Written, NoMemory>
    requires before { length before.now ≡ length (texts.variables shape.now) }
    requires inputs { stimulus.now.widths ≡ widths_of shape.now.inputs }
    requires some { 1 ≤ length rows.now }
    requires few { cycle + length rows.now ≤ 2 ^ 32 }
    requires rows { RowsMatch shape.now rows.now }
    ensures text { IfOk result (λ written. written.text ≡ texts.edges (texts.variables shape.now) cycle before.now
        (moments_before_last (inputs_of stimulus.now) cycle rows.now)) }
    ensures levels { IfOk result (λ written. written.levels ≡ last_of before.now
        (moments_before_last (inputs_of stimulus.now) cycle rows.now)) }
    ensures count { IfOk result (λ written. length written.levels ≡ length before.now) }
{
    let variables = variables(alloc, shape)?;
    let mut text = Text::new(alloc);
    let mut last = Sequence::from_slice(alloc, before)?;
    for number in 0..rows.len() - 1 {
        let inputs = stimulus.inputs(cycle + number as u32 + 1)?;
        let row = &rows[number];
        let next = &rows[number + 1];
        let now = levels(
            alloc,
            inputs.as_slice(),
            row.regs.as_slice(),
            next.fired.as_slice(),
        )?;
        let at = cycle + number as u32;
        push_edge(
            &mut text,
            variables.as_slice(),
            at,
            last.as_slice(),
            now.as_slice(),
        )?;
        last = now;
    }
    Ok(Written { text, levels: last })
}
