//! Engines: kinds of boards that workers in threads share.

ghost use Rattle.std.specs.Prelude.{◌≡◌, ◌≤◌, true, IfOk, OnErr};
ghost use Rattle.board_core.specs.Board.{opened};
ghost use Rattle.board_core.specs.Kept.{StandsFor};

use crate::board::Core;
use attempt_log::{Gate, Report};
use kw_bits::NoMemory;
use std::alloc::Global;
use std::sync::Wait;
use std::thread::Threads;

/// A kind of board that workers in threads share. It is made round a core and gives one back.
pub trait Board: Drop {
    ghost use Rattle.std.specs.Prelude.{Bool, List, ℕ};
    ghost use Rattle.std.specs.Thread.{IsSync};
    ghost use Rattle.attempt_log.specs.declared.report.Report.{Report};
    ghost use Rattle.board_core.specs.Board.{Opening};

    /// Whether this kind exposes what its core was begun with.
    ghost tells: { Bool };

    /// The design, the stimulus, the registers, the cycles and the window that its core was begun with.
    ghost opening: { Self → Opening };

    /// What the board before, the board after and the reports are to each other, once each worker has taken at most that
    /// many turns.
    ghost has_worked: { ℕ → Self → Self → List Report → Type 0 };

    /// What the board before and the board after are to each other where no worker has run.
    ghost is_untouched: { Self → Self → Type 0 };

    /// A board round a core that has made no event.
    fn begin(alloc: Global, core: Core, workers: u32) -> Result<Self, NoMemory>
        requires new { StandsFor core (opened core.opening) }
        requires some { 1 ≤ workers }
        requires most { workers ≤ 64 }
        ensures { tells ≡ true → IfOk result (λ board. opening board ≡ core.opening) };

    /// Has each worker take at most that many turns, side by side, and reports of each. Its memory is taken first: after
    /// an `Err` no worker has run. What a kind of board promises of the reports it says by the meanings above. The gate is an object, since no thread can be started over a type parameter of a trait's method.
    fn work_all<R: Threads + Wait + Sync>(
        &mut self,
        rt: &R,
        alloc: Global,
        gate: &(dyn Gate + Sync),
        turns: u64,
    ) -> Result<Vec<Report>, NoMemory>
        requires sync { IsSync R.row }
        ensures opening { tells ≡ true → opening self.new ≡ opening self.old }
        ensures worked { IfOk result (λ reports. has_worked turns self.old self.new reports.items) }
        ensures untouched { OnErr result (is_untouched self.old self.new) };

    /// The core as the workers left it.
    fn close(self) -> Core
        ensures { tells ≡ true → result.opening ≡ opening self };
}
