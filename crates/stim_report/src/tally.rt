//! Reports: the totals of a summary.

ghost use Rattle.std.specs.Prelude.{◌≡◌, ◌≤◌, ◌<◌, ◌+◌, ◌++◌, ◌^◌, ℕ, List, [], IfOk, OnOk, length, replicate, slice_index, count_by, decimal};
ghost use Rattle.std.specs.List.{AllByRecursion};
ghost use Rattle.kw_bits.specs.Laws.{HasWidth};
ghost use Rattle.one_rule.specs.declared.rows.Row.{Row as RowOf};
ghost use Rattle.stim_report.specs.Batches.{joined};
ghost use Rattle.stim_report.specs.Report.{hex};
ghost use Rattle.stim_report.specs.Shapes.{RowFits, RowsFit, widths_of};
ghost use Rattle.stim_report.specs.Summary as texts;
ghost use Rattle.stim_report.specs.Summary.{fired_line, fired_lines, has_fired, last_values, totals_of, totals_text, value_line, value_lines};
ghost use Rattle.stim_report.specs.Tallies.{AreOf, closed, counted, kept, totals_on};
ghost use Rattle.stim_report.specs.inner.Tallies.{AddsCounts, AddsFired};
ghost use Rattle.stim_report.specs.declared.shape.Shape.{Shape as ShapeOf};
ghost use Rattle.typed_core.specs.Widths.{HaveWidths};

use crate::registers::push_hex;
use crate::shape::{copy_named, copy_names};
use crate::{NameWidth, Shape};
use itoa::Buffer;
use kw_bits::{Bits, NoMemory, Reserved, Sequence, Text};
use one_rule::{Row, Rows};
use std::alloc::Global;
use std::marker::Model;

/// What a summary shows of the rows so far of a run that is made in batches.
#[derive(Debug, Drop)]
pub struct Tally {
    registers: Sequence<NameWidth>,
    rules: Sequence<Text>,
    cycles: u64,
    counts: Vec<u64>,
    last: Reserved<Bits>,
}

impl Model for Tally {
    ghost use Rattle.stim_report.specs.Summary.{Totals};
    ghost use Rattle.stim_report.specs.Tallies.{KeepsTotals};

    ghost Value = { Totals };

    ghost view = { λ t. record { registers = t.registers; rules = t.rules; cycles = t.cycles; counts = t.counts.items; last = t.last.items } };

    ghost invariant = { λ t. KeepsTotals t.registers t.rules t.cycles t.counts.items t.last.items t.last.capacity };
}

impl Tally {
    /// No rows yet, of a system of this shape.
    pub fn new(alloc: Global, shape: &Shape) -> Result<Tally, NoMemory>
        ensures { IfOk result (λ tally. tally ≡ totals_of shape.now []) }
    {
        Ok(Tally {
            registers: copy_named(alloc, shape.registers.as_slice())?,
            rules: copy_names(alloc, shape.rules.as_slice())?,
            cycles: 0,
            counts: no_counts(alloc, shape.rules.len())?,
            last: Reserved::with_capacity(alloc, shape.registers.len())?,
        })
    }

    /// Adds the rows of a batch, which goes on from the cycle that the rows so far end with. It allocates nothing.
    pub fn add(&mut self, rows: &Rows, from: u32)
        requires fit { AllByRecursion (RowFits self.old.registers self.old.rules) rows.now }
        requires some { 0 < length rows.now }
        requires goes_on { from ≡ self.old.cycles }
        ensures fields { self.new ≡ totals_on self.old rows.now }

        // Where the totals are those of rows, they are those of these rows and the batch.
        ensures joined { (shape : ShapeOf) (before : List RowOf) → RowsFit shape before → self.old ≡ totals_of shape before → self.new ≡ totals_of shape (joined before rows.now) }
    {
        add_counts(&mut self.counts, rows.as_slice(), u64::from(from));
        keep_last(&mut self.last, rows.as_slice());
        self.cycles = u64::from(from) + (rows.len() - 1) as u64;
    }

    /// Adds one cycle, in which the rules of these flags fired. Flags beyond the rules count for nothing. The registers
    /// stay those of before until `close`. It allocates nothing.
    pub fn count(&mut self, fired: &[bool])
        requires flags { length self.old.rules ≤ length fired.now }
        requires few { self.old.cycles + 1 < 2 ^ 64 }
        ensures { self.new ≡ counted self.old fired.now }
    {
        add_fired(&mut self.counts, fired);
        self.cycles += 1;
    }

    /// Takes the registers after the cycles that were counted. It allocates nothing.
    pub fn close(&mut self, regs: &[Bits])
        requires { HaveWidths (widths_of self.old.registers) regs.now }
        ensures { self.new ≡ closed self.old regs.now }
    {
        replace(&mut self.last, regs);
    }

    /// The summary of the rows so far.
    pub fn text(&self) -> Result<Text, NoMemory>
        ensures { IfOk result (λ text. text ≡ totals_text self.now) }
    {
        let alloc = *self.counts.allocator();
        let mut text = Text::from_slice(alloc, b"cycles ")?;
        push_number(&mut text, self.cycles)?;
        text.push(b'\n')?;
        push_counts(&mut text, self.rules.as_slice(), self.counts.as_slice())?;
        push_values(
            alloc,
            &mut text,
            self.registers.as_slice(),
            self.last.as_slice(),
        )?;
        Ok(text)
    }
}

/// The summary of a run.
pub fn summary(alloc: Global, shape: &Shape, rows: &Rows) -> Result<Text, NoMemory>
    requires some { 0 < length rows.now }
    requires fit { RowsFit shape.now rows.now }
    ensures { IfOk result (λ text. text ≡ texts.summary shape.now rows.now) }
{
    let mut tally = Tally::new(alloc, shape)?;
    tally.add(rows, 0);
    tally.text()
}

// A count of 0 for each rule.
fn no_counts(alloc: Global, rules: usize) -> Result<Vec<u64>, NoMemory>
    ensures { IfOk result (λ counts. counts.items ≡ replicate rules 0) }
{
    Ok(vec![in alloc; 0; rules]?)
}

// Adds to each rule's count in how many cycles of the rows it fired.
fn add_counts(counts: &mut Vec<u64>, rows: &[Row], cycles: u64)
    requires some { 0 < length rows.now }
    requires no_more { (rule : ℕ) → rule < length counts.old.items → slice_index counts.old.items rule ≤ cycles }
    requires few { cycles + length rows.now < 2 ^ 64 }
    ensures { AddsCounts counts.old.items counts.new.items rows.now }
{
    for rule in 0..counts.len() {
        let more = fired_count(rows, rule);
        counts[rule] += more;
    }
}

// Adds 1 to the count of each rule that fired.
fn add_fired(counts: &mut [u64], fired: &[bool])
    requires flags { length counts.old ≤ length fired.now }
    requires few { (rule : ℕ) → rule < length counts.old → slice_index counts.old rule + 1 < 2 ^ 64 }
    ensures { AddsFired counts.old counts.new fired.now }
{
    for rule in 0..counts.len() {
        counts[rule] += u64::from(fired[rule]);
    }
}

// In how many cycles of the rows a rule fired.
fn fired_count(rows: &[Row], rule: usize) -> u64
    requires { 0 < length rows.now }
    ensures count { result ≡ texts.fired_count rows.now rule }
    ensures most { result ≤ length rows.now }
{
    count(&rows[1..], rule)
}

// In how many rows a rule fired.
fn count(rows: &[Row], rule: usize) -> u64
    ensures count { result ≡ count_by (has_fired rule) rows.now }
    ensures most { result ≤ length rows.now }
{
    let mut count: u64 = 0;
    for row in rows {
        if has_fired(row, rule) {
            count += 1;
        }
    }
    count
}

// Keeps the registers of the last row, where there are none yet or the rows are of a cycle or more.
fn keep_last(last: &mut Reserved<Bits>, rows: &[Row])
    requires some { 0 < length rows.now }
    requires room { length (last_values rows.now) ≤ last.old.capacity }
    ensures items { last.new.items ≡ kept last.old.items rows.now }
    ensures capacity { last.new.capacity ≡ last.old.capacity }
{
    if last.is_empty() || rows.len() > 1 {
        replace(last, rows[rows.len() - 1].regs.as_slice());
    }
}

// Puts values in the place of others.
fn replace(last: &mut Reserved<Bits>, values: &[Bits])
    requires { length values.now ≤ last.old.capacity }
    ensures { last.new ≡ record last.old { items = values.now } }
{
    last.clear();
    last.extend_from_slice(values);
}

/// Whether the rule of this number fired.
pub fn has_fired(row: &Row, rule: usize) -> bool
    ensures { result ≡ has_fired rule row.now }
{
    rule < row.fired.len() && row.fired[rule]
}

fn push_number(text: &mut Text, number: u64) -> Result<(), NoMemory>
    ensures { OnOk result (text.new ≡ text.old ++ decimal number) }
{
    text.extend_from_slice(Buffer::new().format(number).as_bytes())
}

// A line for each rule.
fn push_counts(text: &mut Text, rules: &[Text], counts: &[u64]) -> Result<(), NoMemory>
    requires { length rules.now ≤ length counts.now }
    ensures { OnOk result (text.new ≡ text.old ++ fired_lines rules.now counts.now) }
{
    for (number, rule) in rules.iter().enumerate() {
        push_count(text, rule, counts[number])?;
    }
    Ok(())
}

fn push_count(text: &mut Text, rule: &Text, count: u64) -> Result<(), NoMemory>
    ensures { OnOk result (text.new ≡ text.old ++ fired_line rule.now count) }
{
    text.extend_from_slice(b"fired ")?;
    text.extend_from_slice(rule.as_slice())?;
    text.push(b' ')?;
    push_number(text, count)?;
    text.push(b'\n')
}

// A line for each register that has a value.
fn push_values(
    alloc: Global,
    text: &mut Text,
    registers: &[NameWidth],
    values: &[Bits],
) -> Result<(), NoMemory>
    requires few { length values.now ≤ length registers.now }
    requires are { AreOf registers.now values.now }
    ensures { OnOk result (text.new ≡ text.old ++ value_lines registers.now values.now) }
{
    for (number, value) in values.iter().enumerate() {
        push_value(alloc, text, &registers[number], *value)?;
    }
    Ok(())
}

fn push_value(
    alloc: Global,
    text: &mut Text,
    register: &NameWidth,
    value: Bits,
) -> Result<(), NoMemory>
    requires { HasWidth value register.now.width }
    ensures { OnOk result (text.new ≡ text.old ++ value_line register.now value) }
{
    text.extend_from_slice(register.name.as_slice())?;
    text.push(b'=')?;
    text.extend_from_slice(hex(alloc, value)?.as_slice())?;
    text.push(b'\n')
}

// The hexadecimal digits of a value.
fn hex(alloc: Global, value: Bits) -> Result<Text, NoMemory>
    ensures { IfOk result (λ digits. digits ≡ hex value.width value.number) }
{
    let mut digits = Reserved::with_capacity(alloc, value.width().div_ceil(4) as usize)?;
    push_hex(&mut digits, value);
    Ok(digits.into_sequence())
}
