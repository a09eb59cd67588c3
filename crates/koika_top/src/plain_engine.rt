//! Engines: the plain engine, which runs rule by rule.

ghost use Rattle.std.specs.Prelude.{◌≡◌, IfOk};
ghost use Rattle.one_rule.specs.Externs.{kept};
ghost use Rattle.one_rule.specs.Run.{run_of};
ghost use Rattle.one_rule.specs.Stimulus.{StimulusFits, inputs_of};
ghost use Rattle.typed_core.specs.Valid.{externs_of};
ghost use Rattle.koika_top.specs.inner.Engines.{HasRun};

use crate::ends::Ends;
use crate::engine::Engine;
use crate::last_row::{first_row, go_on, no_row};
use crate::teller::Teller;
use kw_bits::NoMemory;
use one_rule::{Externs, Row, Rows, Stimulus};
use std::alloc::Global;
use std::mem;
use stim_report::Shape;
use typed_core::Design;

/// A design that runs rule by rule on a stimulus.
#[derive(Drop)]
pub(crate) struct PlainEngine<'r> {
    design: &'r Design,
    externs: &'r Externs,
    stimulus: &'r Stimulus,
    // The row of the cycle up to which it has run.
    last: Row,
    at: u32,
    ghost externs_fit: { kept externs.now ≡ externs_of design.now },
    ghost stimulus_fits: { StimulusFits design.now stimulus.now },
}

impl<'r> PlainEngine<'r> {
    /// Before all cycles.
    pub(crate) fn begin(
        alloc: Global,
        design: &'r Design,
        externs: &'r Externs,
        stimulus: &'r Stimulus,
    ) -> Result<PlainEngine<'r>, NoMemory>
        requires externs { kept externs.now ≡ externs_of design.now }
        requires stimulus { StimulusFits design.now stimulus.now }
        ensures design { IfOk result (λ engine. engine.design.now ≡ design.now) }
        ensures stimulus { IfOk result (λ engine. engine.stimulus.now ≡ stimulus.now) }
        ensures at { IfOk result (λ engine. engine.at ≡ 0) }
        ensures stands { IfOk result (λ engine. HasRun engine.design.now engine.stimulus.now engine.at engine.last) }
    {
        let last = first_row(alloc, design)?;
        Ok(PlainEngine {
            design,
            externs,
            stimulus,
            last,
            at: 0,
        })
    }
}

impl<'r> Engine for PlainEngine<'r> {
    ghost rows_to = { λ e n. run_of e.design.now (inputs_of e.stimulus.now) n };

    ghost at = { λ e. e.at };

    ghost stands = { λ e. HasRun e.design.now e.stimulus.now e.at e.last };

    fn batch(&mut self, alloc: Global, to: u32) -> Result<Rows, NoMemory> {
        let mut rows = plain_run::run_from(
            alloc,
            self.design,
            self.externs,
            self.stimulus,
            &self.last.regs,
            self.at,
            to,
        )?;
        let first = mem::replace(&mut self.last, no_row(alloc));
        let last = go_on(alloc, &mut rows, first)?;
        self.last = last;
        self.at = to;
        Ok(rows)
    }

    fn count(
        &mut self,
        alloc: Global,
        ends: Ends,
        shape: &Shape,
        teller: &mut Teller,
    ) -> Result<(), NoMemory> {
        let rows = self.batch(alloc, ends.to)?;
        let _text = teller.take(alloc, shape, &rows, ends.from)?;
        Ok(())
    }
}
