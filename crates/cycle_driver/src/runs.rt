//! Engines: runs that workers make.

ghost use Rattle.std.specs.Prelude.{◌≡◌, ◌≤◌, ◌+◌, ◌*◌, ◌^◌, true, IfOk, length};
ghost use Rattle.std.specs.Arc.{arc_value};
ghost use Rattle.typed_core.specs.Valid.{externs_of};
ghost use Rattle.typed_core.specs.Widths.{HaveWidths, register_widths};
ghost use Rattle.one_rule.specs.Cycle.{system_of};
ghost use Rattle.one_rule.specs.Externs.{kept};
ghost use Rattle.one_rule.specs.Rows.{RowsFit};
ghost use Rattle.one_rule.specs.Run.{run, run_of};
ghost use Rattle.one_rule.specs.Stimulus.{StimulusFits, inputs_of};
ghost use Rattle.board_core.specs.declared.kept.TheConstants.{MAX_CYCLES};

use crate::finish::finished_rows;
use attempt_log::Gate;
use board_core::{Board, Core};
use kw_bits::NoMemory;
use one_rule::{Externs, Regs, Rows, Stimulus, first_values};
use std::alloc::Global;
use std::sync::{Arc, Wait};
use std::thread::Threads;
use typed_core::Design;

/// How many cycles workers may be ahead, the current one included.
pub const WINDOW: u32 = 4;

/// The rows of the first n cycles, from the first values of the registers, made by workers at a board of this kind.
/// Where such boards expose their core, they are the rows of the run, in whichever order the workers' events came.
pub fn run_threaded<B: Board, R: Threads + Wait + Sync>(
    rt: &R,
    alloc: Global,
    design: Arc<Design>,
    externs: Arc<Externs>,
    stimulus: Arc<Stimulus>,
    n: u32,
    workers: u32,
    gate: &(dyn Gate + Sync),
) -> Result<Rows, NoMemory>
    requires externs { kept (arc_value externs) ≡ externs_of (arc_value design) }
    requires stimulus { StimulusFits (arc_value design) (arc_value stimulus) }
    requires last { n ≤ MAX_CYCLES }
    requires some { 1 ≤ workers }
    requires most { workers ≤ 64 }
    ensures run { B.tells ≡ true →
        IfOk result (λ rows. rows ≡ run_of (arc_value design) (inputs_of (arc_value stimulus)) n) }
    ensures fit { B.tells ≡ true → IfOk result (λ rows. RowsFit (arc_value design) rows) }
{
    let regs = first_values(alloc, &design)?;
    run_batch::<B, R>(
        rt, alloc, design, externs, stimulus, regs, 0, n, workers, gate,
    )
}

/// The rows from one cycle to another, made by workers at a board of this kind: these registers, which the first one
/// left, and the rows of those after it. They are the rows of the core that the board gives back, once it is finished.
/// Where such boards expose their core, they are the rows of the run, in whichever order the workers' events came. The
/// gate is an object, since no thread can be started over a type parameter of a trait's method.
pub fn run_batch<B: Board, R: Threads + Wait + Sync>(
    rt: &R,
    alloc: Global,
    design: Arc<Design>,
    externs: Arc<Externs>,
    stimulus: Arc<Stimulus>,
    regs: Regs,
    from: u32,
    to: u32,
    workers: u32,
    gate: &(dyn Gate + Sync),
) -> Result<Rows, NoMemory>
    requires externs { kept (arc_value externs) ≡ externs_of (arc_value design) }
    requires stimulus { StimulusFits (arc_value design) (arc_value stimulus) }
    requires registers { HaveWidths (register_widths (arc_value design)) regs }
    requires order { from ≤ to }
    requires last { to ≤ MAX_CYCLES }
    requires some { 1 ≤ workers }
    requires most { workers ≤ 64 }
    ensures run { B.tells ≡ true → IfOk result
        (λ rows. rows ≡ run (system_of (arc_value design)) (inputs_of (arc_value stimulus)) regs from to) }
    ensures fit { B.tells ≡ true → IfOk result (λ rows. RowsFit (arc_value design) rows) }
{
    let turns = turns_for(&design, to - from);
    let core = Core::begin(alloc, design, externs, stimulus, regs, from, to, WINDOW)?;
    let mut board = B::begin(alloc, core, workers)?;
    board.work_all(rt, alloc, gate, turns)?;
    finished_rows(alloc, board.close())
}

/// How many turns each worker has for that many cycles.
pub fn turns_for(design: &Design, cycles: u32) -> u64
    requires { cycles ≤ MAX_CYCLES }
    ensures turns { result ≡ 4 * cycles * (length design.now.nodes + 1) + 16 }
    ensures few { result ≤ 2 ^ 56 }
{
    4 * u64::from(cycles) * (design.nodes.len() as u64 + 1) + 16
}
