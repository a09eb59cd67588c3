//! Waves: the dump of a run that is made in batches.

ghost use Rattle.std.specs.Prelude.{◌≡◌, ◌+◌, ◌≤◌, ◌^◌, List, [], IfOk, OnOk, OnErr, length};
ghost use Rattle.one_rule.specs.Run.{InputsByCycle};
ghost use Rattle.one_rule.specs.Stimulus.{inputs_of};
ghost use Rattle.one_rule.specs.declared.rows.Row.{Row as RowOf};
ghost use Rattle.stim_report.specs.Shapes.{RowsMatch, widths_of};
ghost use Rattle.wave_text.specs.Parts as parts;
ghost use Rattle.wave_text.specs.Parts.{GoesOn, TakesRows, progress};
ghost use Rattle.wave_text.specs.Waves as texts;

use crate::edges::{edges, push_edge};
use crate::level::{Level, last_levels, no_levels};
use crate::lines::push_time;
use crate::variable::variables;
use kw_bits::{NoMemory, Sequence, Text};
use one_rule::{Regs, Rows, Stimulus};
use std::alloc::Global;
use std::marker::Model;
use stim_report::Shape;

/// What the dump of a run goes on from: its last cycle so far, the values that were written last, and its registers.
#[derive(Debug, Drop)]
pub struct Waves {
    cycle: u32,
    levels: Sequence<Level>,
    registers: Regs,
}

impl Model for Waves {
    ghost use Rattle.wave_text.specs.Parts.{Progress};

    ghost Value = { Progress };

    ghost view = { λ w. record { cycle = w.cycle; levels = w.levels; registers = w.registers } };
}

impl Waves {
    /// No rows yet, of a system of this shape.
    pub fn new(alloc: Global, shape: &Shape) -> Result<Waves, NoMemory>
        ensures none { IfOk result (λ waves. (inputs : InputsByCycle) → waves ≡ progress shape.now inputs []) }
        ensures fits { IfOk result (λ waves. length waves.levels ≡ length (texts.variables shape.now)) }
    {
        let count = variables(alloc, shape)?.len();
        Ok(Waves {
            cycle: 0,
            levels: no_levels(alloc, count)?,
            registers: Regs::new(alloc),
        })
    }

    /// Takes the rows of a batch, which begins with the row that the rows so far end with, and gives the text that is
    /// written of it. An `Err` leaves it as it was.
    pub fn take(
        &mut self,
        alloc: Global,
        shape: &Shape,
        stimulus: &Stimulus,
        rows: &Rows,
    ) -> Result<Text, NoMemory>
        requires fits { length self.old.levels ≡ length (texts.variables shape.now) }
        requires some { 1 ≤ length rows.now }
        requires few { self.old.cycle + length rows.now ≤ 2 ^ 32 }
        requires rows { RowsMatch shape.now rows.now }
        requires inputs { stimulus.now.widths ≡ widths_of shape.now.inputs }
        ensures takes { IfOk result (λ text. (before : List RowOf)
            → self.old ≡ progress shape.now (inputs_of stimulus.now) before → GoesOn before rows.now
            → TakesRows shape.now (inputs_of stimulus.now) before rows.now self.new text) }
        ensures fits { OnOk result (length self.new.levels ≡ length (texts.variables shape.now)) }
        ensures same { OnErr result (self.new ≡ self.old) }
    {
        let written = edges(
            alloc,
            shape,
            self.levels.as_slice(),
            stimulus,
            rows.as_slice(),
            self.cycle,
        )?;
        let later = rows.len() - 1;
        self.registers = Regs::from_slice(alloc, rows[later].regs.as_slice())?;
        self.levels = written.levels;
        self.cycle += later as u32;
        Ok(written.text)
    }

    /// What is written after the last row.
    pub fn ending(&self, alloc: Global, shape: &Shape) -> Result<Text, NoMemory>
        requires fits { length self.now.levels ≡ length (texts.variables shape.now) }
        requires few { self.now.cycle + 1 ≤ 2 ^ 32 }
        requires registers { length self.now.registers ≡ length shape.now.registers }
        ensures { IfOk result (λ text. text ≡ parts.ending shape.now self.now) }
    {
        let variables = variables(alloc, shape)?;
        let now = last_levels(alloc, shape, self.registers.as_slice())?;
        let mut text = Text::new(alloc);
        push_edge(
            &mut text,
            variables.as_slice(),
            self.cycle,
            self.levels.as_slice(),
            now.as_slice(),
        )?;
        push_time(&mut text, 10 * (u64::from(self.cycle) + 1))?;
        Ok(text)
    }
}
