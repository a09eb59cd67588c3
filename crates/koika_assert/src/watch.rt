//! Reports: the first violated cycle of each marked rule, in the batches of a run.

ghost use Rattle.std.specs.Prelude.{◌≡◌, ◌+◌, ◌<◌, ◌++◌, ◌^◌, ℕ, List, [], IfOk, OnOk, None, Some, false, if◌then◌else◌, length, replicate, slice_index_or};
ghost use Rattle.std.specs.List.{position_from};
ghost use Rattle.koika_assert.specs.inner.Marks.{AddsCycle, AddsFirsts};
ghost use Rattle.koika_assert.specs.Violations.{counted, violated_line, violated_lines, watched, watched_on, watched_text};
ghost use Rattle.one_rule.specs.declared.rows.Row.{Row as RowOf};
ghost use Rattle.stim_report.specs.Batches.{joined};
ghost use Rattle.stim_report.specs.Summary as summaries;

use itoa::Buffer;
use kw_bits::{NoMemory, Sequence, Text};
use one_rule::{Row, Rows};
use std::alloc::Global;
use std::marker::Model;
use stim_report::has_fired;

/// The first cycle in which each marked rule fired, in the rows so far of a run that is made in batches.
#[derive(Debug, Drop)]
pub struct Watch {
    names: Sequence<Text>,
    marks: Sequence<u32>,
    cycles: u64,
    firsts: Vec<Option<u64>>,
}

impl Model for Watch {
    ghost use Rattle.koika_assert.specs.Marks.{KeepsMarks};
    ghost use Rattle.koika_assert.specs.Violations.{Watched};

    ghost Value = { Watched };

    ghost view = { λ w. record { names = w.names; marks = w.marks; cycles = w.cycles; firsts = w.firsts.items } };

    ghost invariant = { λ w. KeepsMarks w.names w.marks w.firsts.items };
}

impl Watch {
    /// No rows yet, and these numbers of marked rules with their names.
    pub fn new(
        alloc: Global,
        names: Sequence<Text>,
        marks: Sequence<u32>,
    ) -> Result<Watch, NoMemory>
        requires { length names ≡ length marks }
        ensures { IfOk result (λ watch. watch ≡ watched names marks []) }
    {
        let firsts = no_firsts(alloc, marks.len())?;
        Ok(Watch {
            names,
            marks,
            cycles: 0,
            firsts,
        })
    }

    /// Adds the rows of a batch, which goes on from the cycle that the rows so far end with. It allocates nothing.
    pub fn add(&mut self, rows: &Rows, from: u32)
        requires some { 0 < length rows.now }
        requires goes_on { from ≡ self.old.cycles }
        ensures fields { self.new ≡ watched_on self.old rows.now }

        // Where what is known is what rows say of marks, it is what they and the batch say.
        ensures joined { (names : List (List ℕ)) (marks : List ℕ) (before : List RowOf)
            → self.old ≡ watched names marks before → self.new ≡ watched names marks (joined before rows.now) }
    {
        let from = u64::from(from);
        let later = &rows.as_slice()[1..];
        add_firsts(&mut self.firsts, self.marks.as_slice(), later, from + 1);
        self.cycles = from + later.len() as u64;
    }

    /// Adds one cycle, in which the rules of these flags fired. It allocates nothing.
    pub fn count(&mut self, fired: &[bool])
        requires { self.old.cycles + 1 < 2 ^ 64 }
        ensures { self.new ≡ counted self.old fired.now }
    {
        self.cycles += 1;
        add_cycle(&mut self.firsts, self.marks.as_slice(), fired, self.cycles);
    }

    /// A line for each mark that was violated, with the first cycle.
    pub fn text(&self) -> Result<Text, NoMemory>
        ensures { IfOk result (λ text. text ≡ watched_text self.now) }
    {
        let mut text = Text::new(*self.firsts.allocator());
        push_violations(&mut text, self.names.as_slice(), self.firsts.as_slice())?;
        Ok(text)
    }
}

// No cycle for each mark.
fn no_firsts(alloc: Global, marks: usize) -> Result<Vec<Option<u64>>, NoMemory>
    ensures { IfOk result (λ firsts. firsts.items ≡ replicate marks None) }
{
    Ok(vec![in alloc; None; marks]?)
}

// Gives the marks that have no cycle yet theirs, by rows of which the first is that of this cycle.
fn add_firsts(firsts: &mut Vec<Option<u64>>, marks: &[u32], rows: &[Row], cycle: u64)
    requires count { length firsts.old.items ≡ length marks.now }
    requires few { cycle + length rows.now < 2 ^ 64 }
    ensures { AddsFirsts marks.now cycle rows.now firsts.old.items firsts.new.items }
{
    for number in 0..firsts.len() {
        if firsts[number].is_none() {
            firsts[number] = first_fired(rows, marks[number], cycle);
        }
    }
}

// Gives the marks that have no cycle yet this one, where their rules fired.
fn add_cycle(firsts: &mut Vec<Option<u64>>, marks: &[u32], fired: &[bool], cycle: u64)
    requires { length firsts.old.items ≡ length marks.now }
    ensures { AddsCycle marks.now cycle fired.now firsts.old.items firsts.new.items }
{
    for number in 0..firsts.len() {
        let has_none = firsts[number].is_none();
        if has_none {
            firsts[number] = cycle_if_fired(fired, marks[number], cycle);
        }
    }
}

// The cycle, where the rule fired.
fn cycle_if_fired(fired: &[bool], rule: u32, cycle: u64) -> Option<u64>
    ensures { result ≡ if slice_index_or fired.now rule false then Some cycle else None }
{
    let rule = rule as usize;
    if rule < fired.len() && fired[rule] {
        Some(cycle)
    } else {
        None
    }
}

// The first cycle that a rule fired in, by rows of which the first is that of this cycle.
fn first_fired(rows: &[Row], rule: u32, cycle: u64) -> Option<u64>
    requires { cycle + length rows.now < 2 ^ 64 }
    ensures { result ≡ position_from (summaries.has_fired rule) cycle rows.now }
{
    for (number, row) in rows.iter().enumerate() {
        if has_fired(row, rule as usize) {
            return Some(cycle + number as u64);
        }
    }
    None
}

fn push_violations(text: &mut Text, names: &[Text], firsts: &[Option<u64>]) -> Result<(), NoMemory>
    requires { length names.now ≡ length firsts.now }
    ensures { OnOk result (text.new ≡ text.old ++ violated_lines names.now firsts.now) }
{
    for (number, name) in names.iter().enumerate() {
        if let Some(cycle) = firsts[number] {
            push_violation(text, name, cycle)?;
        }
    }
    Ok(())
}

fn push_violation(text: &mut Text, name: &Text, cycle: u64) -> Result<(), NoMemory>
    ensures { OnOk result (text.new ≡ text.old ++ violated_line name.now (Some cycle)) }
{
    text.extend_from_slice(b"violated ")?;
    text.extend_from_slice(name.as_slice())?;
    text.extend_from_slice(b" at ")?;
    text.extend_from_slice(Buffer::new().format(cycle).as_bytes())?;
    text.push(b'\n')
}
