//! Engines: who makes the run of a design.

ghost use Rattle.front_end.specs.Streams.{stream};
ghost use Rattle.koika_top.specs.inner.Works.{IsReady, IsWritten, engine_of};

use crate::design_run::Run;
use crate::engine_kind::EngineKind;
use crate::journal_run::JournalRun;
use attempt_log::Gate;
use front_end::Untold;
use kw_io::Sink;
use std::alloc::Global;
use std::sync::Wait;
use std::thread::Threads;

/// What is asked of a run: its report or summary, or its journal.
#[derive(Drop)]
pub(crate) enum Work {
    Shown(Run),
    Journal(JournalRun),
}

/// Who makes the run of a design.
pub(crate) trait Crew {
    ghost use Rattle.koika_top.specs.declared.engine_kind.EngineKind.{EngineKind};

    /// The engines that it runs.
    ghost has: { Self → EngineKind → Type 0 };

    /// Makes a run by its engine and writes what is asked of it, batch by batch.
    fn write<K: Sink>(&self, alloc: Global, work: &Work, sink: &mut K) -> Result<(), Untold>
        requires ready { IsReady work.now }
        requires engine { has self.now (engine_of work.now) }
        ensures { IsWritten work.now (stream K.written K.faults sink.old sink.new) result };
}

/// The caller alone, without workers. It is proved to return.
#[derive(Drop)]
pub(crate) struct Alone;

/// The caller, and where the engine is theirs workers in threads, which a gate may hold. The gate's type is a parameter,
/// since no struct can have a field that refers to such an object.
#[derive(Drop)]
pub(crate) struct InThreads<'r, R: Threads + Wait + Sync, G> {
    pub(crate) rt: &'r R,
    pub(crate) gate: G,
}

impl Crew for Alone {
    ghost use Rattle.koika_top.specs.inner.Steps.{IsAlone};

    ghost has = { λ crew engine. IsAlone engine };

    fn write<K: Sink>(&self, alloc: Global, work: &Work, sink: &mut K) -> Result<(), Untold> {
        match work {
            Work::Shown(run) => match run.engine {
                EngineKind::Plain => run.write_plain(alloc, sink),
                EngineKind::Circuit => run.write_circuit(alloc, sink),
                EngineKind::Workers(_) => unreachable!(),
            },
            Work::Journal(_) => unreachable!(),
        }
    }
}

impl<'r, R: Threads + Wait + Sync> Crew for InThreads<'r, R, &'r (dyn Gate + Sync)> {
    ghost use Rattle.std.specs.Thread.{IsSync};
    ghost use Rattle.koika_top.specs.inner.Steps.{HasFewWorkers};

    ghost has = { λ crew engine. IsSync R.row × HasFewWorkers engine };

    fn write<K: Sink>(&self, alloc: Global, work: &Work, sink: &mut K) -> Result<(), Untold> {
        match work {
            Work::Shown(run) => match run.engine {
                EngineKind::Plain => run.write_plain(alloc, sink),
                EngineKind::Circuit => run.write_circuit(alloc, sink),
                EngineKind::Workers(count) => run.write_workers(
                    self.rt, alloc, count, self.gate, sink,
                ),
            },
            Work::Journal(run) => run.write(self.rt, alloc, self.gate, sink),
        }
    }
}
