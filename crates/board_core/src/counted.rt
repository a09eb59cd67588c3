//! Engines: a board that counts the open nodes of each cycle, as they change.

ghost use Rattle.std.specs.Prelude.{◌≡◌, ◌<◌, ◌≤◌, ◌⊎◌, IfOk, IfSome, true, nat_lt, length};
ghost use Rattle.std.specs.Arc.{arc_value};
ghost use Rattle.typed_core.specs.Valid.{externs_of};
ghost use Rattle.typed_core.specs.Widths.{HaveWidths, register_widths};
ghost use Rattle.one_rule.specs.Externs.{kept};
ghost use Rattle.one_rule.specs.Stimulus.{StimulusFits};
ghost use Rattle.attempt_log.specs.Seats.{HandsBack};
ghost use Rattle.attempt_log.specs.Setting.{FitsItself, IsFor, attempt_of};
ghost use Rattle.attempt_log.specs.declared.entry.Submitted.TheVariants as submitted;
ghost use Rattle.board_core.specs.Board.{Board, opened, setting_of, settle, submit};
ghost use Rattle.board_core.specs.Candidates.{IsJobOf, Picks, candidates};
ghost use Rattle.board_core.specs.Kept.{AtPlain, Does, StandsFor, is_still};
ghost use Rattle.board_core.specs.declared.event.BoardAnswer.TheVariants as answer;
ghost use Rattle.board_core.specs.inner.Counts.{HasWeights, is_closing, is_stored, stale_rule};

use crate::candidate::Candidate;
use crate::kept::{KeptBoard, Span};
use attempt_log::{Attempt, Job, Settled, Submitted};
use kw_bits::NoMemory;
use one_rule::{Externs, Regs, Row, Rows, Stimulus};
use std::alloc::Global;
use std::marker::Model;
use std::sync::Arc;
use typed_core::Design;

// A board with its counts.
#[derive(Drop)]
pub(crate) struct CountedBoard {
    kept: KeptBoard,
    // At how many nodes each rule is.
    weights: Vec<u64>,
    // For each cycle of the window, from the current one on, the number of nodes whose rules are open in it.
    counts: Vec<u64>,
}

impl Model for CountedBoard {
    ghost use Rattle.std.specs.Prelude.{length};
    ghost use Rattle.std.specs.Coded.{codes};
    ghost use Rattle.typed_core.specs.contracts.action.Action as action;
    ghost use Rattle.board_core.specs.Kept.{Kept};
    ghost use Rattle.board_core.specs.inner.Counts.{HasCounts, HasWeights};

    ghost Value = { Kept };

    ghost coded = { Prim.hlevel (codes, action.the_row.coded) };

    ghost view = { λ c. c.kept };

    ghost invariant = { λ c. HasWeights c.kept.opening.design.nodes (length c.kept.opening.design.rules) c.weights.items × HasCounts c.kept c.counts.items };
}

impl CountedBoard {
    // A board before its first cycle, on registers that cycle `from` left.
    pub(crate) fn begin(
        alloc: Global,
        design: Arc<Design>,
        stimulus: Arc<Stimulus>,
        regs: Regs,
        span: Span,
    ) -> Result<CountedBoard, NoMemory>
        requires stimulus { StimulusFits (arc_value design) (arc_value stimulus) }
        requires registers { HaveWidths (register_widths (arc_value design)) regs }
        ensures opening { IfOk result (λ kept. kept.opening ≡ record { design = arc_value design; stimulus = arc_value stimulus; regs = regs; from = span.from; to = span.to; window = span.window }) }
        ensures opened { IfOk result (λ kept. StandsFor kept (opened kept.opening)) }
    {
        let weights = weights_of(alloc, &design)?;
        let counts = Vec::from_elem(alloc, design.nodes.len() as u64, span.window as usize)?;
        let kept = KeptBoard::begin(alloc, design, stimulus, regs, span)?;
        kept.recall();
        Ok(CountedBoard {
            kept,
            weights,
            counts,
        })
    }

    // Takes an attempt, or hands it back and changes nothing.
    pub(crate) fn submit(&mut self, attempt: Attempt) -> Submitted
        requires { IsFor (setting_of self.old.opening) attempt }
        ensures step { Does (λ o board. submit o board attempt) self.old (answer.Submit result) self.new }
        ensures opening { self.new.opening ≡ self.old.opening }
        ensures refused { (result ≡ submitted.Stored) ⊎ (self.new ≡ self.old) }
        ensures handed_back { HandsBack attempt result }
    {
        attempt.recall();
        self.kept.recall();
        let (cycle, rule) = (attempt.cycle(), attempt.rule());
        let now = self.kept.cycle();
        let answer = self.kept.submit(attempt);
        if is_stored(&answer) {
            self.counts[(cycle - now) as usize] -= self.weights[rule as usize];
        }
        answer
    }

    // Settles the rule of the head, or closes the cycle at the end of its path.
    pub(crate) fn settle(&mut self) -> Settled
        ensures step { Does settle self.old (answer.Settle result) self.new }
        ensures opening { self.new.opening ≡ self.old.opening }
        ensures unchanged { is_still result ≡ true → self.new ≡ self.old }
    {
        self.kept.recall();
        let answer = self.kept.settle();
        if is_closing(&answer) {
            let nodes = self.kept.design().nodes.len() as u64;
            self.counts.rotate_left(1);
            let last = self.counts.len() - 1;
            self.counts[last] = nodes;
        } else if let Some(rule) = stale_rule(&answer) {
            self.counts[0] += self.weights[rule as usize];
        }
        answer
    }

    // The core stands for a board at a plain position.
    pub(crate) fn recall(&self)
        ensures { AtPlain self.now }
    {
        self.kept.recall();
    }

    pub(crate) fn rows(&self) -> &[Row]
        ensures { result.now ≡ self.now.rows }
    {
        self.kept.rows()
    }

    pub(crate) fn into_rows(self) -> Rows
        ensures { result ≡ self.rows }
    {
        self.kept.into_rows()
    }

    pub(crate) fn regs(&self) -> &Regs
        ensures { result.now ≡ self.now.place.regs }
    {
        self.kept.regs()
    }

    pub(crate) fn design(&self) -> &Design
        ensures { result.now ≡ self.now.opening.design }
    {
        self.kept.design()
    }

    pub(crate) fn stimulus(&self) -> &Stimulus
        ensures { result.now ≡ self.now.opening.stimulus }
    {
        self.kept.stimulus()
    }

    pub(crate) fn first(&self) -> u32
        ensures { result ≡ self.now.opening.from }
    {
        self.kept.first()
    }

    pub(crate) fn last(&self) -> u32
        ensures { result ≡ self.now.opening.to }
    {
        self.kept.last()
    }

    // The candidate of number `pick`, counted round.
    pub(crate) fn choose(&self, pick: u64) -> Option<Candidate>
        requires { self.now.cycle ≤ self.now.opening.to }
        ensures picks { (board : Board) → StandsFor self.now board → Picks (candidates self.now.opening board) pick result }
        ensures rule { IfSome result (λ c. c.rule < length self.now.opening.design.rules) }
    {
        self.kept.choose(pick, self.counts.as_slice())
    }

    // The job of a candidate.
    pub(crate) fn job(&self, externs: Arc<Externs>, candidate: Candidate) -> Result<Job, NoMemory>
        requires externs { kept (arc_value externs) ≡ externs_of self.now.opening.design }
        requires rule { candidate.rule < length self.now.opening.design.rules }
        ensures job { IfOk result (λ job. (board : Board) → StandsFor self.now board → IsJobOf self.now.opening board candidate job) }
        ensures fits { IfOk result FitsItself }
        ensures is_for { IfOk result (λ job. IsFor (setting_of self.now.opening) (attempt_of job)) }
    {
        self.kept.job(externs, candidate)
    }

    // Whether the last cycle is closed.
    pub(crate) fn is_finished(&self) -> bool
        ensures { result ≡ nat_lt self.now.opening.to self.now.cycle }
    {
        self.kept.is_finished()
    }
}

// At how many nodes each rule is.
fn weights_of(alloc: Global, design: &Design) -> Result<Vec<u64>, NoMemory>
    ensures { IfOk result (λ weights. HasWeights design.now.nodes (length design.now.rules) weights.items) }
{
    let mut weights = Vec::from_elem(alloc, 0, design.rules.len())?;
    for number in 0..design.nodes.len() {
        let node = *design.nodes.get(number);
        weights[node.rule as usize] += 1;
    }
    Ok(weights)
}

fn is_stored(answer: &Submitted) -> bool
    ensures { result ≡ is_stored answer.now }
{
    match answer {
        Submitted::Stored => true,
        Submitted::Late(_) | Submitted::Ahead(_) | Submitted::Twice(_) => false,
    }
}

fn is_closing(answer: &Settled) -> bool
    ensures { result ≡ is_closing answer.now }
{
    match answer {
        Settled::CycleClosed { cycle: _ } => true,
        Settled::Committed { .. } | Settled::Skipped { .. } | Settled::Stale { .. } => false,
        Settled::Waiting { .. } | Settled::Finished => false,
    }
}

// The rule that is open again, since its attempt was stale.
fn stale_rule(answer: &Settled) -> Option<u32>
    ensures { result ≡ stale_rule answer.now }
{
    match answer {
        Settled::Stale {
            cycle: _,
            rule,
            read: _,
        } => Some(*rule),
        Settled::Committed { .. } | Settled::Skipped { .. } | Settled::CycleClosed { .. } => None,
        Settled::Waiting { .. } | Settled::Finished => None,
    }
}
