//! Engines: a board with its tables and host functions.

ghost use Rattle.std.specs.Prelude.{◌≡◌, ◌≤◌, ◌<◌, ◌⊎◌, true, false, IfOk, OnErr};
ghost use Rattle.std.specs.List.{AllByRecursion};
ghost use Rattle.std.specs.Arc.{arc_value};
ghost use Rattle.typed_core.specs.Valid.{externs_of};
ghost use Rattle.typed_core.specs.Widths.{HaveWidths, register_widths};
ghost use Rattle.one_rule.specs.Externs.{kept};
ghost use Rattle.one_rule.specs.Cycle.{system_of};
ghost use Rattle.one_rule.specs.Run.{run};
ghost use Rattle.one_rule.specs.Stimulus.{StimulusFits, inputs_of};
ghost use Rattle.attempt_log.specs.Entries.{goes_on};
ghost use Rattle.attempt_log.specs.Seats.{HandsBack, IfJob};
ghost use Rattle.attempt_log.specs.Setting.{FitsItself, IsFor, attempt_of};
ghost use Rattle.attempt_log.specs.declared.entry.Submitted.TheVariants as submitted;
ghost use Rattle.board_core.specs.Board.{Board, opened, setting_of, settle, step, submit};
ghost use Rattle.board_core.specs.Candidates.{Chooses};
ghost use Rattle.board_core.specs.Kept.{AtPlain, Does, EventFits, Runs, StandsFor, is_still, leaves, left};
ghost use Rattle.board_core.specs.Laws.{TellsFiring};
ghost use Rattle.board_core.specs.Position.{IsPlain};
ghost use Rattle.board_core.specs.declared.event.BoardAnswer.TheVariants as answer;

use crate::counted::CountedBoard;
use crate::event::{BoardAnswer, BoardEvent};
use crate::kept::{MAX_CYCLES, MAX_WINDOW, Span};
use attempt_log::{Attempt, JobAnswer, Settled, Submitted};
use kw_bits::NoMemory;
use one_rule::{Externs, Regs, Row, Rows, Stimulus};
use std::alloc::Global;
use std::marker::Model;
use std::sync::Arc;
use typed_core::Design;

/// A board, to which one event is made at a time. It is at a plain position of its current cycle, whatever came.
#[derive(Drop)]
pub struct Core {
    pub(crate) board: CountedBoard,
    pub(crate) externs: Arc<Externs>,
}

impl Model for Core {
    ghost use Rattle.std.specs.Prelude.{◌≡◌};
    ghost use Rattle.std.specs.Arc.{arc_value};
    ghost use Rattle.std.specs.Coded.{codes};
    ghost use Rattle.typed_core.specs.contracts.action.Action as action;
    ghost use Rattle.typed_core.specs.Valid.{externs_of};
    ghost use Rattle.one_rule.specs.Externs.{kept};
    ghost use Rattle.board_core.specs.Kept.{Kept};

    ghost Value = { Kept };

    ghost coded = { Prim.hlevel (codes, action.the_row.coded) };

    ghost view = { λ c. c.board };

    ghost invariant = { λ c. kept (arc_value c.externs) ≡ externs_of c.board.opening.design };
}

impl Core {
    /// A board before its first cycle, on registers that cycle `from` left. All its memory is taken here.
    pub fn begin(
        alloc: Global,
        design: Arc<Design>,
        externs: Arc<Externs>,
        stimulus: Arc<Stimulus>,
        regs: Regs,
        from: u32,
        to: u32,
        window: u32,
    ) -> Result<Core, NoMemory>
        requires externs { kept (arc_value externs) ≡ externs_of (arc_value design) }
        requires stimulus { StimulusFits (arc_value design) (arc_value stimulus) }
        requires registers { HaveWidths (register_widths (arc_value design)) regs }
        requires order { from ≤ to }
        requires last { to ≤ MAX_CYCLES }
        requires window { 1 ≤ window }
        requires few_ahead { window ≤ MAX_WINDOW }
        ensures opening { IfOk result (λ core. core.opening ≡ record { design = arc_value design; stimulus = arc_value stimulus; regs = regs; from = from; to = to; window = window }) }
        ensures opened { IfOk result (λ core. StandsFor core (opened core.opening)) }
        ensures plain { IfOk result (λ core. AtPlain core) }
    {
        let span = Span { from, to, window };
        let board = CountedBoard::begin(alloc, design, stimulus, regs, span)?;
        board.recall();
        Ok(Core { board, externs })
    }

    /// Takes an attempt for a design that equals the board's by value, made on the stimulus's inputs. One that is
    /// refused is handed back, and then nothing has changed.
    pub fn submit(&mut self, attempt: Attempt) -> Submitted
        requires { IsFor (setting_of self.old.opening) attempt }
        ensures step { Does (λ o board. submit o board attempt) self.old (answer.Submit result) self.new }
        ensures opening { self.new.opening ≡ self.old.opening }
        ensures refused { (result ≡ submitted.Stored) ⊎ (self.new ≡ self.old) }
        ensures handed_back { HandsBack attempt result }
        ensures left { left self.new ≡ left self.old }
        ensures plain { AtPlain self.new }
    {
        self.board.recall();
        let answer = self.board.submit(attempt);
        self.board.recall();
        answer
    }

    /// Settles the rule of the head with the attempt that stands for it, or closes the cycle at the end of its path.
    /// A rule that is committed fires there, and one that is skipped doesn't. What is left to do is less after each
    /// of these, and the same after all other answers.
    pub fn settle(&mut self) -> Settled
        ensures step { Does settle self.old (answer.Settle result) self.new }
        ensures opening { self.new.opening ≡ self.old.opening }
        ensures unchanged { is_still result ≡ true → self.new ≡ self.old }
        ensures less { goes_on result ≡ true → left self.new < left self.old }
        ensures left { goes_on result ≡ false → left self.new ≡ left self.old }
        ensures plain { AtPlain self.new }
        ensures fires { (board : Board) → StandsFor self.old board → IsPlain self.old.opening board → TellsFiring self.old.opening board result }
    {
        self.board.recall();
        let answer = self.board.settle();
        self.board.recall();
        answer
    }

    /// Makes one event.
    pub fn step(&mut self, event: BoardEvent) -> BoardAnswer
        requires { EventFits self.old.opening event }
        ensures step { Does (λ o board. step o board event) self.old result self.new }
        ensures opening { self.new.opening ≡ self.old.opening }
        ensures unchanged { leaves result ≡ true → self.new ≡ self.old }
        ensures plain { AtPlain self.new }
    {
        match event {
            BoardEvent::Submit(attempt) => BoardAnswer::Submit(self.submit(attempt)),
            BoardEvent::Settle => BoardAnswer::Settle(self.settle()),
        }
    }

    /// Makes events in order. Its memory is taken first, so that after an `Err` no event was made.
    pub fn run_events(&mut self, mut events: Vec<BoardEvent>) -> Result<Vec<BoardAnswer>, NoMemory>
        requires { AllByRecursion (EventFits self.old.opening) events.items }
        ensures ok { IfOk result (λ answers. Runs events.items self.old answers.items self.new) }
        ensures opening { self.new.opening ≡ self.old.opening }
        ensures err { OnErr result (self.new ≡ self.old) }
        ensures plain { AtPlain self.new }
    {
        self.board.recall();
        let mut answers = Vec::with_capacity(*events.allocator(), events.len())?;
        // They are taken from the end.
        events.reverse();
        while let Some(event) = events.pop() {
            answers.push_reserved(self.step(event));
        }
        self.board.recall();
        Ok(answers)
    }

    /// The job of candidate number `pick`, counted round; it looks at each node of the candidate's cycle at most once,
    /// and takes memory for a copy of the inputs and the registers alone.
    pub fn job(&self, pick: u64) -> Result<JobAnswer, NoMemory>
        ensures chooses { IfOk result (λ answer. (board : Board) → StandsFor self.now board → Chooses self.now.opening board pick answer) }
        ensures fits { IfOk result (λ told. IfJob told FitsItself) }
        ensures is_for { IfOk result (λ told. IfJob told (λ job. IsFor (setting_of self.now.opening) (attempt_of job))) }
        ensures plain { AtPlain self.now }
    {
        self.board.recall();
        if self.board.is_finished() {
            return Ok(JobAnswer::Finished);
        }
        match self.board.choose(pick) {
            None => Ok(JobAnswer::Idle),
            Some(candidate) => {
                let externs = Arc::try_clone(&self.externs)?;
                Ok(JobAnswer::Job(self.board.job(externs, candidate)?))
            },
        }
    }

    /// What each core is by its type: at a plain position. It does nothing, and is called for its contract.
    pub fn recall(&self)
        ensures { AtPlain self.now }
    {
        self.board.recall();
    }

    /// The rows of the cycles that are closed, after the row of the opening registers. The board is at a plain
    /// position, and they are the first rows of the run.
    pub fn rows(&self) -> &[Row]
        ensures rows { result.now ≡ self.now.rows }
        ensures plain { AtPlain self.now }
    {
        self.board.recall();
        self.board.rows()
    }

    /// The rows, which are those of the whole run where the board is finished.
    pub fn into_rows(self) -> Rows
        ensures rows { result ≡ self.rows }
        ensures whole { let o = self.opening in o.to < self.cycle → result ≡ run (system_of o.design) (inputs_of o.stimulus) o.regs o.from o.to }
        ensures plain { AtPlain self }
    {
        self.board.recall();
        self.board.into_rows()
    }

    /// The registers with what the current cycle has committed.
    pub fn regs(&self) -> &Regs
        ensures { result.now ≡ self.now.place.regs }
    {
        self.board.regs()
    }

    /// The design.
    pub fn design(&self) -> &Design
        ensures { result.now ≡ self.now.opening.design }
    {
        self.board.design()
    }

    /// The stimulus.
    pub fn stimulus(&self) -> &Stimulus
        ensures { result.now ≡ self.now.opening.stimulus }
    {
        self.board.stimulus()
    }

    /// How many cycles were run before it was begun.
    pub fn first(&self) -> u32
        ensures { result ≡ self.now.opening.from }
    {
        self.board.first()
    }

    /// The last cycle.
    pub fn last(&self) -> u32
        ensures { result ≡ self.now.opening.to }
    {
        self.board.last()
    }
}
