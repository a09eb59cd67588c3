//! Texts of runs: what is written of each batch of rows, and after the last one.

ghost use Rattle.std.specs.Prelude.{◌≡◌, ◌<◌, ◌^◌, [], IfOk, OnOk, length};
ghost use Rattle.koika_assert.specs.Violations.{watched};
ghost use Rattle.front_end.specs.Marks.{Marks};
ghost use Rattle.koika_top.specs.inner.Telling.{FormGoesOn, FormTakesRows, GoesOnFrom, HasFlags, HasRows, HasValues, IsBefore, IsFormBefore, TakesRows, closed, closed_form, counted, counted_form, ending_of, ending_of_form, part_of_batch, shown_by, shown_by_form, writes_rows};
ghost use Rattle.stim_report.specs.Shapes.{RowsFit};

use crate::shown::Shown;
use koika_assert::Watch;
use kw_bits::{Bits, NoMemory, Text};
use one_rule::Rows;
use std::alloc::Global;
use stim_report::{Shape, Tally, report_part};

/// What is written of rows: a report batch by batch, or a summary after the last batch.
#[derive(Debug, Drop)]
pub(crate) enum Form {
    OfReport,
    OfSummary(Tally),
}

/// What is written of a run that is made in batches, and after the last one which marked rules fired.
#[derive(Debug, Drop)]
pub(crate) struct Teller {
    form: Form,
    watch: Watch,
}

impl Teller {
    /// No rows yet, and none in the watch.
    pub(crate) fn new(
        alloc: Global,
        shape: &Shape,
        shown: Shown,
        watch: Watch,
    ) -> Result<Teller, NoMemory>
        ensures rows { IfOk result (λ teller. (marks : Marks) →
            watch ≡ watched marks.names marks.rules [] → HasRows teller shape.now marks []) }
        ensures shown { IfOk result (λ teller. shown_by teller ≡ shown) }
    {
        let form = match shown {
            Shown::Report => Form::OfReport,
            Shown::Summary => Form::OfSummary(Tally::new(alloc, shape)?),
        };
        Ok(Teller { form, watch })
    }

    /// Whether something is written of a batch before the last one has come.
    pub(crate) fn writes_rows(&self) -> bool
        ensures { result ≡ writes_rows (shown_by self.now) }
    {
        match &self.form {
            Form::OfReport => true,
            Form::OfSummary(_) => false,
        }
    }

    /// Takes the rows of a batch, which goes on from a cycle, and gives the text that tells them now.
    pub(crate) fn take(
        &mut self,
        alloc: Global,
        shape: &Shape,
        rows: &Rows,
        from: u32,
    ) -> Result<Text, NoMemory>
        requires goes_on { GoesOnFrom self.old shape.now from }
        requires some { 0 < length rows.now }
        requires fit { RowsFit shape.now rows.now }
        ensures text { IfOk result (λ text. text ≡ part_of_batch (shown_by self.old) shape.now rows.now from) }
        ensures rows { OnOk result ((marks : Marks) → TakesRows shape.now marks self.old self.new rows.now) }
    {
        self.watch.add(rows, from);
        self.form.take(alloc, shape, rows, from)
    }

    /// Counts a cycle after the one that the rows so far end with, in which the rules of these flags fired. It allocates
    /// nothing.
    pub(crate) fn count(&mut self, fired: &[bool])
        requires flags { HasFlags self.old.form fired.now }
        requires few { IsBefore (2 ^ 32) self.old }
        ensures { self.new ≡ counted self.old fired.now }
    {
        self.watch.count(fired);
        self.form.count(fired);
    }

    /// Takes the registers after the cycles that were counted.
    pub(crate) fn close(&mut self, regs: &[Bits])
        requires { HasValues self.old.form regs.now }
        ensures { self.new ≡ closed self.old regs.now }
    {
        self.form.close(regs);
    }

    /// The text that tells what is left to tell after the last batch.
    pub(crate) fn ending(&self, alloc: Global) -> Result<Text, NoMemory>
        ensures { IfOk result (λ text. text ≡ ending_of self.now) }
    {
        let mut text = self.form.ending(alloc)?;
        text.extend_from_slice(self.watch.text()?.as_slice())?;
        Ok(text)
    }
}

impl Form {
    // Takes the rows of a batch, and gives the text that tells them now.
    fn take(
        &mut self,
        alloc: Global,
        shape: &Shape,
        rows: &Rows,
        from: u32,
    ) -> Result<Text, NoMemory>
        requires goes_on { FormGoesOn self.old shape.now from }
        requires some { 0 < length rows.now }
        requires fit { RowsFit shape.now rows.now }
        ensures text { IfOk result (λ text. text ≡ part_of_batch (shown_by_form self.old) shape.now rows.now from) }
        ensures rows { OnOk result (FormTakesRows shape.now self.old self.new rows.now) }
    {
        match self {
            Form::OfReport => report_part(alloc, shape, rows, from),
            Form::OfSummary(tally) => {
                tally.add(rows, from);
                Ok(Text::new(alloc))
            }
        }
    }

    // Counts a cycle in which the rules of these flags fired.
    fn count(&mut self, fired: &[bool])
        requires flags { HasFlags self.old fired.now }
        requires few { IsFormBefore (2 ^ 32) self.old }
        ensures { self.new ≡ counted_form self.old fired.now }
    {
        match self {
            Form::OfReport => {}
            Form::OfSummary(tally) => tally.count(fired),
        }
    }

    // Takes the registers after the cycles that were counted.
    fn close(&mut self, regs: &[Bits])
        requires { HasValues self.old regs.now }
        ensures { self.new ≡ closed_form self.old regs.now }
    {
        match self {
            Form::OfReport => {}
            Form::OfSummary(tally) => tally.close(regs),
        }
    }

    // The text that tells what is left to tell of the form.
    fn ending(&self, alloc: Global) -> Result<Text, NoMemory>
        ensures { IfOk result (λ text. text ≡ ending_of_form self.now) }
    {
        match self {
            Form::OfReport => Ok(Text::new(alloc)),
            Form::OfSummary(tally) => tally.text(),
        }
    }
}
