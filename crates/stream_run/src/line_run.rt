//! Sessions: a run that goes on line by line of its stimulus, and its next cycle.

ghost use Rattle.std.specs.Prelude.{◌≡◌, ◌+◌, ◌<◌, ◌≤◌, [], ◌∷◌, IfOk, OnOk, IsErrOf, Ok, length, ℕ};
ghost use Rattle.std.specs.Arc.{arc_value};
ghost use Rattle.kw_base.specs.Fault.{IfFault};
ghost use Rattle.koika_assert.specs.Violations.{watched_text};
ghost use Rattle.kw_bits.specs.Faults.{Rose};
ghost use Rattle.koika_check.specs.Typing.{IsTypedDesign};
ghost use Rattle.koika_lower.specs.Lowering.{typed_input_widths};
ghost use Rattle.one_rule.specs.Run.{opening};
ghost use Rattle.one_rule.specs.Stimulus.{inputs_of};
ghost use Rattle.one_rule.specs.declared.rows.Row.{Row as RowOf};
ghost use Rattle.stim_report.specs.Report.{line_of};
ghost use Rattle.stim_report.specs.Shapes.{RowsFit};
ghost use Rattle.typed_core.specs.Widths.{HaveWidths, register_widths};
ghost use Rattle.front_end.specs.Sources.{shape_of};
ghost use Rattle.front_end.specs.Streams.{stream};
ghost use Rattle.front_end.specs.Systems.{first_values, system_of};
ghost use Rattle.front_end.specs.Told.{Told};
ghost use Rattle.stream_run.specs.Lines.{inputs_on, lines_in};
ghost use Rattle.stream_run.specs.inner.Reading.{IsOneLine};

use crate::head::LONGEST;
use crate::stop::Stop;
use front_end::{Lowered, Untold, fault_of_source, marked_names, write_text};
use koika_assert::Watch;
use kw_base::Refusal;
use kw_base::fault_number::{RUN_TOO_LONG, SOURCE_TOO_LONG};
use kw_bits::{NoMemory, Sequence, Text};
use kw_io::Sink;
use one_rule::{Externs, Regs, Row, Rows, Stimulus, first_values, opening};
use plain_run::run_from;
use std::alloc::Global;
use stim_report::{Shape, read_stimulus, report, report_part};
use typed_core::Design;

/// How many cycles a session may have.
pub(crate) const MOST_CYCLES: u32 = 16_777_216;

/// A run between two lines of its stimulus.
#[derive(Debug, Drop)]
pub(crate) struct LineRun {
    /// How many cycles it had.
    pub(crate) cycle: u32,
    /// The number of the next line in the source, as far as 32 bits count.
    pub(crate) line: u32,
    pub(crate) regs: Regs,
    pub(crate) watch: Watch,
    ghost cycles: { watch.cycles ≡ cycle },
    ghost few: { cycle ≤ 16777216 },
}

impl LineRun {
    ghost use Rattle.stream_run.specs.inner.Telling.{AnswersLine, Writes, first_place, next_place, next_row};
    ghost use Rattle.stream_run.specs.inner.Telling.{place_of, told_from};

    /// Before the first cycle of a design.
    pub(crate) fn first(alloc: Global, lowered: &Lowered, line: u32) -> Result<LineRun, NoMemory>
        requires { IsTypedDesign lowered.now.checked }
        ensures place { IfOk result (λ line_run. place_of line_run ≡ first_place lowered.now.checked line) }
        ensures fits { IfOk result (λ line_run.
            HaveWidths (register_widths (arc_value lowered.now.design)) line_run.regs) }
    {
        let design: &Design = &lowered.design;
        let names = marked_names(alloc, &lowered.checked)?;
        let marks = Sequence::from_slice(alloc, lowered.checked.asserts())?;
        let watch = Watch::new(alloc, names, marks)?;
        let regs = first_values(alloc, design)?;
        Ok(LineRun {
            cycle: 0,
            line,
            regs,
            watch,
        })
    }

    /// Writes the row of the registers that a run begins with.
    pub(crate) fn write_opening<K: Sink>(
        &self,
        alloc: Global,
        lowered: &Lowered,
        sink: &mut K,
    ) -> Result<(), Untold>
        requires { HaveWidths (register_widths (arc_value lowered.now.design)) self.now.regs }
        ensures { Told (line_of (shape_of lowered.now.checked) 0
            (opening (system_of lowered.now.checked).rules self.now.regs))
            (stream K.written K.faults sink.old sink.new) result }
    {
        let text = self.opening_text(alloc, lowered)?;
        write_text(sink, text.as_slice())
    }

    fn opening_text(&self, alloc: Global, lowered: &Lowered) -> Result<Text, NoMemory>
        requires { HaveWidths (register_widths (arc_value lowered.now.design)) self.now.regs }
        ensures { IfOk result (λ text. text ≡ line_of (shape_of lowered.now.checked) 0
            (opening (system_of lowered.now.checked).rules self.now.regs)) }
    {
        let design: &Design = &lowered.design;
        let regs = Regs::from_slice(alloc, self.regs.as_slice())?;
        let mut rows = Rows::new(alloc);
        rows.push(opening(alloc, design, regs)?)?;
        report(alloc, &lowered.shape, &rows)
    }

    /// Answers the line of the next cycle: writes its row, or stops with the line's fault.
    pub(crate) fn answer<K: Sink>(
        &mut self,
        alloc: Global,
        lowered: &Lowered,
        line: &[u8],
        sink: &mut K,
    ) -> Result<(), Stop>
        requires typed { IsTypedDesign lowered.now.checked }
        requires fits { HaveWidths (register_widths (arc_value lowered.now.design)) self.old.regs }
        requires one { IsOneLine line.now }
        ensures answers { AnswersLine lowered.now.checked (place_of self.old) (place_of self.new) line.now
            (K.written sink.old) (K.written sink.new) result }
        ensures fits { OnOk result (HaveWidths (register_widths (arc_value lowered.now.design)) self.new.regs) }
        ensures cycle { OnOk result (self.new.cycle ≡ self.old.cycle + 1) }
        ensures reads_nothing { IsErrOf result Stop.ReadFault → ⊥ }
        ensures write_fault { IsErrOf result Stop.WriteFault → Rose (K.faults sink.old) (K.faults sink.new) }
        ensures never_falls { K.faults sink.old ≤ K.faults sink.new }
    {
        let stimulus = self.read_line(alloc, lowered, line)?;
        let text = self.take_cycle(alloc, lowered, &stimulus)?;
        write_text(sink, text.as_slice())?;
        Ok(())
    }

    /// Answers what came after the last line feed, if anything did, and writes which marked rules fired.
    pub(crate) fn finish<K: Sink>(
        &mut self,
        alloc: Global,
        lowered: &Lowered,
        line: &[u8],
        sink: &mut K,
    ) -> Result<(), Stop>
        requires typed { IsTypedDesign lowered.now.checked }
        requires fits { HaveWidths (register_widths (arc_value lowered.now.design)) self.old.regs }
        requires one { IsOneLine line.now }
        ensures writes { Writes (told_from lowered.now.checked (place_of self.old) (lines_in line.now))
            (K.written sink.old) (K.written sink.new) result }
        ensures reads_nothing { IsErrOf result Stop.ReadFault → ⊥ }
        ensures write_fault { IsErrOf result Stop.WriteFault → Rose (K.faults sink.old) (K.faults sink.new) }
        ensures never_falls { K.faults sink.old ≤ K.faults sink.new }
    {
        if line.is_empty() {
            self.write_ending(sink)?;
            return Ok(());
        }
        self.answer(alloc, lowered, line, sink)?;
        self.write_ending(sink)?;
        Ok(())
    }

    // Writes which marked rules fired.
    fn write_ending<K: Sink>(&self, sink: &mut K) -> Result<(), Untold>
        ensures { Told (watched_text self.now.watch) (stream K.written K.faults sink.old sink.new) result }
    {
        let text = self.watch.text()?;
        write_text(sink, text.as_slice())
    }

    // The stimulus of one cycle that a line gives, or the line's fault.
    fn read_line(&self, alloc: Global, lowered: &Lowered, line: &[u8]) -> Result<Stimulus, Refusal>
        requires typed { IsTypedDesign lowered.now.checked }
        requires one { IsOneLine line.now }
        ensures inputs { IfOk result (λ stimulus. inputs_on (shape_of lowered.now.checked).inputs
            (self.now.cycle + 1) self.now.line line.now ≡ Ok (inputs_of stimulus 1)) }
        ensures widths { IfOk result (λ stimulus. stimulus.widths ≡ typed_input_widths lowered.now.checked) }
        ensures few { OnOk result (self.now.cycle < 16777216) }
        ensures fault { IfFault result (λ fault. inputs_on (shape_of lowered.now.checked).inputs
            (self.now.cycle + 1) self.now.line line.now ≡ Err fault) }
    {
        if line.len() > LONGEST {
            return Err(Refusal::Fault(fault_of_source(SOURCE_TOO_LONG)));
        }
        if self.cycle >= MOST_CYCLES {
            return Err(Refusal::Fault(fault_of_source(RUN_TOO_LONG)));
        }
        let stimulus = read_stimulus(alloc, line, self.line, &lowered.shape)?;
        Ok(stimulus)
    }

    // Makes the next cycle, with the inputs of the first cycle of a stimulus, and gives the line of its row.
    fn take_cycle(
        &mut self,
        alloc: Global,
        lowered: &Lowered,
        stimulus: &Stimulus,
    ) -> Result<Text, NoMemory>
        requires fits { HaveWidths (register_widths (arc_value lowered.now.design)) self.old.regs }
        requires widths { stimulus.now.widths ≡ typed_input_widths lowered.now.checked }
        requires few { self.old.cycle < 16777216 }
        ensures text { IfOk result (λ text. text ≡ line_of (shape_of lowered.now.checked) (self.old.cycle + 1)
            (next_row lowered.now.checked (place_of self.old) (inputs_of stimulus.now 1))) }
        ensures place { OnOk result (place_of self.new
            ≡ next_place lowered.now.checked (place_of self.old) (inputs_of stimulus.now 1)) }
        ensures fits { OnOk result (HaveWidths (register_widths (arc_value lowered.now.design)) self.new.regs) }
    {
        let rows = self.next_rows(alloc, lowered, stimulus)?;
        let before = self.cycle;
        self.watch.add(&rows, before);
        self.cycle = before + 1;
        self.line = self.line.saturating_add(1);
        self.regs = Regs::from_slice(alloc, rows.get(1).regs.as_slice())?;
        row_line(alloc, &lowered.shape, rows, before)
    }

    // The registers, as the row of a run that begins with them, and the row of the next cycle.
    fn next_rows(
        &self,
        alloc: Global,
        lowered: &Lowered,
        stimulus: &Stimulus,
    ) -> Result<Rows, NoMemory>
        requires fits { HaveWidths (register_widths (arc_value lowered.now.design)) self.now.regs }
        requires widths { stimulus.now.widths ≡ typed_input_widths lowered.now.checked }
        ensures rows { IfOk result (λ rows. rows ≡ opening (system_of lowered.now.checked).rules self.now.regs
            ∷ next_row lowered.now.checked (place_of self.now) (inputs_of stimulus.now 1) ∷ []) }
        ensures fit { IfOk result (λ rows. RowsFit (shape_of lowered.now.checked) rows) }
        ensures registers { IfOk result (λ rows. (first next : RowOf) → rows ≡ first ∷ next ∷ []
            → HaveWidths (register_widths (arc_value lowered.now.design)) next.regs) }
    {
        let design: &Design = &lowered.design;
        let externs: &Externs = &lowered.externs;
        design.recall();
        stimulus.recall();
        run_from(alloc, design, externs, stimulus, &self.regs, 0, 1)
    }
}

// The line of the second of two rows, which comes after that many cycles.
fn row_line(alloc: Global, shape: &Shape, mut rows: Rows, before: u32) -> Result<Text, NoMemory>
    requires { RowsFit shape.now rows }
    ensures { IfOk result (λ text. (first next : RowOf) → rows ≡ first ∷ next ∷ []
        → text ≡ line_of shape.now (before + 1) next) }
{
    let text = report_part(alloc, shape, &rows, before)?;
    if before > 0 {
        return Ok(text);
    }
    rows.truncate(1);
    let first = report(alloc, shape, &rows)?;
    let (_, next) = text.as_slice().split_at(first.len());
    Text::from_slice(alloc, next)
}
