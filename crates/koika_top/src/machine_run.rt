//! Engines: the run of a machine, told from its beginning.

ghost use Rattle.std.specs.Prelude.{◌≡◌, ◌≤◌, ℕ, []};
ghost use Rattle.front_end.specs.Streams.{stream};
ghost use Rattle.front_end.specs.Told.{Told};
ghost use Rattle.one_rule.specs.Stimulus.{inputs_of};
ghost use Rattle.stim_report.specs.Shapes.{RowsFit};
ghost use Rattle.koika_top.specs.Sim.{rows_text};
ghost use Rattle.koika_top.specs.inner.Engines.{rows_of};
ghost use Rattle.koika_top.specs.inner.Telling.{HasRows, all_told, marks_in, shown_by};

use crate::machine_engine::{Begun, MachineEngine};
use crate::shown::Shown;
use crate::tell::tell;
use crate::teller::Teller;
use front_end::Untold;
use koika_assert::Watch;
use kw_bits::Sequence;
use kw_io::Sink;
use one_rule::Stimulus;
use std::alloc::Global;
use stim_report::Shape;

/// The run of a machine for these cycles on a stimulus.
#[derive(Drop)]
pub(crate) struct MachineRun<'s, M> {
    pub(crate) machine: M,
    pub(crate) stimulus: &'s Stimulus,
    pub(crate) cycles: u32,
}

impl<'s, M: Begun + Drop> MachineRun<'s, M> {
    /// Makes the run, and writes what is shown of its rows.
    pub(crate) fn tell_shown<K: Sink>(
        self,
        alloc: Global,
        shape: &Shape,
        shown: Shown,
        sink: &mut K,
    ) -> Result<(), Untold>
        requires few { self.cycles ≤ 16777216 }
        requires first { self.machine ≡ M.beginning self.machine }
        requires widths { self.stimulus.now.widths ≡ M.input_widths self.machine }
        requires fit { (n : ℕ) → RowsFit shape.now
            (rows_of M.after_step M.row_at (inputs_of self.stimulus.now) self.machine n) }
        ensures { Told (rows_text shown shape.now
            (rows_of M.after_step M.row_at (inputs_of self.entry.stimulus.now) self.entry.machine self.entry.cycles))
            (stream K.written K.faults sink.old sink.new) result }
    {
        let none = Watch::new(alloc, Sequence::new(alloc), Sequence::new(alloc))?;
        let teller = Teller::new(alloc, shape, shown, none)?;
        self.tell(alloc, shape, teller, sink)
    }

    /// Makes the run, and writes what a teller that has no rows yet tells of its rows.
    pub(crate) fn tell<K: Sink>(
        self,
        alloc: Global,
        shape: &Shape,
        teller: Teller,
        sink: &mut K,
    ) -> Result<(), Untold>
        requires few { self.cycles ≤ 16777216 }
        requires first { self.machine ≡ M.beginning self.machine }
        requires widths { self.stimulus.now.widths ≡ M.input_widths self.machine }
        requires fit { (n : ℕ) → RowsFit shape.now
            (rows_of M.after_step M.row_at (inputs_of self.stimulus.now) self.machine n) }
        requires none { HasRows teller shape.now (marks_in teller) [] }
        ensures { Told (all_told (shown_by teller) shape.now (marks_in teller)
            (rows_of M.after_step M.row_at (inputs_of self.entry.stimulus.now) self.entry.machine self.entry.cycles))
            (stream K.written K.faults sink.old sink.new) result }
    {
        let cycles = self.cycles;
        let mut engine = MachineEngine::begin(self.machine, self.stimulus);
        tell(alloc, &mut engine, cycles, shape, teller, sink)
    }
}
