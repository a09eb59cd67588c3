//! Engines: the run of a design that `sim` asks for, one method for each engine.

ghost use Rattle.std.specs.Prelude.{◌≡◌, ◌≤◌, ℕ, IfOk, false, length};
ghost use Rattle.std.specs.Arc.{arc_value};
ghost use Rattle.kw_base.specs.Fault.{IfFault};
ghost use Rattle.koika_check.specs.Typing.{IsTypedDesign};
ghost use Rattle.one_rule.specs.Hosts.{host_specs};
ghost use Rattle.one_rule.specs.Stimulus.{inputs_of};
ghost use Rattle.koika_top.specs.Sim.{text_of_run};
ghost use Rattle.front_end.specs.Lengths.{HasNoRun, is_too_long_for};
ghost use Rattle.front_end.specs.Sources.{Spells, longest_source};
ghost use Rattle.front_end.specs.Streams.{stream};
ghost use Rattle.front_end.specs.Systems.{run_of};
ghost use Rattle.front_end.specs.Told.{Told};

use crate::circuit_read::read_again;
use crate::circuits::lines_of;
use crate::engine::Engine;
use crate::engine_kind::EngineKind;
use crate::machine_engine::MachineEngine;
use crate::plain_engine::PlainEngine;
use crate::shown::Shown;
use crate::tell::tell;
use crate::teller::Teller;
use crate::watch::watch_of;
use crate::workers_engine::WorkersEngine;
use attempt_log::Gate;
use circuit_eval::WordSim;
use front_end::{Lowered, Untold, fault_of_source, is_too_long_for, read_source};
use host_fn::HostFn;
use kw_base::{Refusal, fault_number};
use kw_io::Sink;
use one_rule::{Externs, Stimulus};
use std::alloc::Global;
use std::sync::Wait;
use std::thread::Threads;
use typed_core::Design;

/// The run of a design that is asked for: of that many cycles, by this engine, and what is shown of it.
#[derive(Drop)]
pub(crate) struct Run {
    pub(crate) lowered: Lowered,
    pub(crate) cycles: u32,
    pub(crate) shown: Shown,
    pub(crate) engine: EngineKind,
    ghost within: { is_too_long_for cycles lowered.checked ≡ false },
}

impl Run {
    /// The run that a source spells, or the fault with which the source is refused.
    pub(crate) fn read(
        alloc: Global,
        cycles: u32,
        shown: Shown,
        engine: EngineKind,
        hosts: &[HostFn],
        source: &[u8],
    ) -> Result<Run, Refusal>
        requires { length source.now ≤ longest_source }
        ensures run { IfOk result (λ run.
            Spells (host_specs hosts.now) source.now run.lowered.checked (arc_value run.lowered.stimulus)) }
        ensures typed { IfOk result (λ run. IsTypedDesign run.lowered.checked) }
        ensures cycles { IfOk result (λ run. run.cycles ≡ cycles) }
        ensures shown { IfOk result (λ run. run.shown ≡ shown) }
        ensures engine { IfOk result (λ run. run.engine ≡ engine) }
        ensures refused { IfFault result (HasNoRun (host_specs hosts.now) cycles source.now) }
    {
        let spelled = read_source(alloc, hosts, source)?;
        if is_too_long_for(cycles as u64, &spelled.design) {
            return Err(Refusal::Fault(fault_of_source(fault_number::RUN_TOO_LONG)));
        }
        let lowered = Lowered::new(alloc, spelled, hosts)?;
        Ok(Run {
            lowered,
            cycles,
            shown,
            engine,
        })
    }

    /// Makes the run by the plain engine and writes what is shown of it, batch by batch.
    pub(crate) fn write_plain<K: Sink>(&self, alloc: Global, sink: &mut K) -> Result<(), Untold>
        requires { IsTypedDesign self.now.lowered.checked }
        ensures { Told
            (text_of_run self.now.lowered.checked (arc_value self.now.lowered.stimulus) self.now.cycles self.now.shown)
            (stream K.written K.faults sink.old sink.new) result }
    {
        let design: &Design = &self.lowered.design;
        let externs: &Externs = &self.lowered.externs;
        let stimulus: &Stimulus = &self.lowered.stimulus;
        design.recall();
        stimulus.recall();
        let mut engine = PlainEngine::begin(alloc, design, externs, stimulus)?;
        self.write_by(alloc, &mut engine, sink)
    }

    /// By the circuit of the design, which is printed and read again.
    pub(crate) fn write_circuit<K: Sink>(&self, alloc: Global, sink: &mut K) -> Result<(), Untold>
        requires { IsTypedDesign self.now.lowered.checked }
        ensures { Told
            (text_of_run self.now.lowered.checked (arc_value self.now.lowered.stimulus) self.now.cycles self.now.shown)
            (stream K.written K.faults sink.old sink.new) result }
    {
        let stimulus: &Stimulus = &self.lowered.stimulus;
        stimulus.recall();
        let lines = lines_of(alloc, &self.lowered)?;
        let circuit = read_again(alloc, &lines)?;
        let sim = WordSim::begin(alloc, &circuit)?;
        let mut engine = MachineEngine::begin(sim, stimulus);
        self.write_by(alloc, &mut engine, sink)
    }

    /// By that many workers in threads, which a gate may hold.
    pub(crate) fn write_workers<R: Threads + Wait + Sync, K: Sink>(
        &self,
        rt: &R,
        alloc: Global,
        workers: u32,
        gate: &(dyn Gate + Sync),
        sink: &mut K,
    ) -> Result<(), Untold>
        requires typed { IsTypedDesign self.now.lowered.checked }
        requires some { 1 ≤ workers }
        requires most { workers ≤ 64 }
        ensures { Told
            (text_of_run self.now.lowered.checked (arc_value self.now.lowered.stimulus) self.now.cycles self.now.shown)
            (stream K.written K.faults sink.old sink.new) result }
    {
        let lowered = &self.lowered;
        let design: &Design = &lowered.design;
        let stimulus: &Stimulus = &lowered.stimulus;
        design.recall();
        stimulus.recall();
        let mut engine = WorkersEngine::begin(rt, alloc, gate, lowered, workers)?;
        self.write_by(alloc, &mut engine, sink)
    }

    // By any engine that makes the design's run.
    fn write_by<E: Engine, K: Sink>(
        &self,
        alloc: Global,
        engine: &mut E,
        sink: &mut K,
    ) -> Result<(), Untold>
        requires typed { IsTypedDesign self.now.lowered.checked }
        requires stands { E.stands engine.old }
        requires at { E.at engine.old ≡ 0 }
        requires run { (n : ℕ) → E.rows_to engine.old n
            ≡ run_of self.now.lowered.checked (inputs_of (arc_value self.now.lowered.stimulus)) n }
        ensures { Told
            (text_of_run self.now.lowered.checked (arc_value self.now.lowered.stimulus) self.now.cycles self.now.shown)
            (stream K.written K.faults sink.old sink.new) result }
    {
        let lowered = &self.lowered;
        let design: &Design = &lowered.design;
        let stimulus: &Stimulus = &lowered.stimulus;
        design.recall();
        stimulus.recall();
        let watch = watch_of(alloc, &lowered.checked)?;
        let teller = Teller::new(alloc, &lowered.shape, self.shown, watch)?;
        tell(alloc, engine, self.cycles, &lowered.shape, teller, sink)
    }
}
