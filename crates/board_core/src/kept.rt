//! Engines: a board's state, and its step.

ghost use Rattle.std.specs.Prelude.{◌≡◌, ◌+◌, ◌<◌, ◌≤◌, ◌⊎◌, ℕ, List, [], ◌∷◌, ◌++◌, All, IfOk, IfSome, Some, None, true, false, nat_lt, length, replicate, slice_get, is_some};
ghost use Rattle.std.specs.Arc.{arc_value};
ghost use Rattle.typed_core.specs.Widths.{HaveWidths, register_widths};
ghost use Rattle.one_rule.specs.Stimulus.{StimulusFits};
ghost use Rattle.typed_core.specs.declared.design.Next.TheVariants as next;
ghost use Rattle.typed_core.specs.declared.design.Node.{Node};
ghost use Rattle.attempt_log.specs.Attempt.{Attempted};
ghost use Rattle.attempt_log.specs.Seats.{HandsBack};
ghost use Rattle.attempt_log.specs.Setting.{FitsItself, IsFor, attempt_of};
ghost use Rattle.one_rule.specs.Externs.{kept};
ghost use Rattle.typed_core.specs.Valid.{externs_of};
ghost use Rattle.attempt_log.specs.declared.entry.Submitted.TheVariants as submitted;
ghost use Rattle.board_core.specs.Board.{Board, judged, node_at, opened, setting_of, settle, stored, submit};
ghost use Rattle.board_core.specs.Kept.{AtPlain, Does, StandsFor, is_still, slots_from};
ghost use Rattle.board_core.specs.inner.Counts.{HasCounts};
ghost use Rattle.board_core.specs.inner.Kept.{IsBlank, IsNear, comes_ahead, comes_late};
ghost use Rattle.board_core.specs.Candidates.{IsJobOf, Picks, candidates, first, further, pair_at, pairs};
ghost use Rattle.board_core.specs.inner.Search.{FindsIn, HasRule, comes_further};
ghost use Rattle.board_core.specs.declared.candidate.Search.TheVariants as searched;
ghost use Rattle.board_core.specs.declared.candidate.Candidate.{Candidate};
ghost use Rattle.board_core.specs.declared.kept.TheConstants.{MAX_CYCLES, MAX_WINDOW};
ghost use Rattle.typed_core.specs.Continuations.{is_at};
ghost use Rattle.board_core.specs.declared.event.BoardAnswer.TheVariants as answer;

use crate::blank::Blank;
use crate::candidate::{Candidate, Search};
use crate::place::Place;
use crate::waiting::Waiting;
use attempt_log::{Attempt, Job, Settled, Submitted, Verdict};
use kw_bits::{NoMemory, Reserved};
use one_rule::{Externs, Regs, Row, Rows, Stimulus, opening};
use std::alloc::Global;
use std::marker::Model;
use std::sync::Arc;
use typed_core::{Design, Next, Node};

/// A board's last cycle has at most this number.
pub const MAX_CYCLES: u32 = 16_777_216;

/// A board takes attempts for at most this many cycles at a time.
pub const MAX_WINDOW: u32 = 16;

/// The cycles of a board: those after one up to another, and for how many at a time it takes attempts.
#[derive(Drop)]
pub(crate) struct Span {
    pub(crate) from: u32,
    pub(crate) to: u32,
    pub(crate) window: u32,
    ghost order: { from ≤ to },
    ghost last: { to ≤ MAX_CYCLES },
    ghost some_ahead: { 1 ≤ window },
    ghost few_ahead: { window ≤ MAX_WINDOW },
}

// A board without its externs: the rows of the cycles that are closed, the place in the current one, and the attempts
// that stand.
#[derive(Drop)]
pub(crate) struct KeptBoard {
    design: Arc<Design>,
    stimulus: Arc<Stimulus>,
    first: u32,
    last: u32,
    window: u32,
    cycle: u32,
    place: Place,
    rows: Reserved<Row>,
    // Room for the rows that are to come.
    blanks: Vec<Blank>,
    // The slots of each cycle of the window, from the current one on.
    slots: Vec<Waiting>,
}

impl Model for KeptBoard {
    ghost use Rattle.std.specs.Arc.{arc_value};
    ghost use Rattle.std.specs.Coded.{codes};
    ghost use Rattle.typed_core.specs.contracts.action.Action as action;
    ghost use Rattle.board_core.specs.Kept.{Kept};
    ghost use Rattle.board_core.specs.inner.Kept.{IsSound, kept_by};

    ghost Value = { Kept };

    ghost coded = { Prim.hlevel (codes, action.the_row.coded) };

    ghost view = { λ c. kept_by (arc_value c.design) (arc_value c.stimulus) c.first c.last c.window c.cycle c.place c.rows.items c.slots.items };

    ghost invariant = { λ c. IsSound (kept_by (arc_value c.design) (arc_value c.stimulus) c.first c.last c.window c.cycle c.place c.rows.items c.slots.items) c.blanks.items c.rows.capacity };
}

impl KeptBoard {
    // A board before its first cycle, on registers that cycle `from` left.
    pub(crate) fn begin(
        alloc: Global,
        design: Arc<Design>,
        stimulus: Arc<Stimulus>,
        regs: Regs,
        span: Span,
    ) -> Result<KeptBoard, NoMemory>
        requires stimulus { StimulusFits (arc_value design) (arc_value stimulus) }
        requires registers { HaveWidths (register_widths (arc_value design)) regs }
        ensures opening { IfOk result (λ kept. kept.opening ≡ record { design = arc_value design; stimulus = arc_value stimulus; regs = regs; from = span.from; to = span.to; window = span.window }) }
        ensures opened { IfOk result (λ kept. StandsFor kept (opened kept.opening)) }
    {
        stimulus.recall();
        let Span { from, to, window } = span;
        let cycles = (to - from) as usize;
        let mut rows = Reserved::with_capacity(alloc, cycles + 1)?;
        let copy = Regs::from_slice(alloc, regs.as_slice())?;
        rows.push(opening(alloc, &design, copy)?);
        Ok(KeptBoard {
            place: Place::new(alloc, &design, regs)?,
            rows,
            blanks: room(alloc, &design, cycles)?,
            slots: empty_slots(alloc, design.rules.len(), window as usize)?,
            design,
            stimulus,
            first: from,
            last: to,
            window,
            cycle: from + 1,
        })
    }

    // Takes an attempt, or hands it back and changes nothing.
    pub(crate) fn submit(&mut self, attempt: Attempt) -> Submitted
        requires { IsFor (setting_of self.old.opening) attempt }
        ensures step { Does (λ o board. submit o board attempt) self.old (answer.Submit result) self.new }
        ensures opening { self.new.opening ≡ self.old.opening }
        ensures refused { (result ≡ submitted.Stored) ⊎ (self.new ≡ self.old) }
        ensures handed_back { HandsBack attempt result }
    {
        attempt.recall();
        if self.is_late(&attempt) {
            return Submitted::Late(attempt);
        }
        if self.is_ahead(&attempt) {
            return Submitted::Ahead(attempt);
        }
        if self.stands(&attempt) {
            return Submitted::Twice(attempt);
        }
        self.store(attempt);
        Submitted::Stored
    }

    // Settles the rule of the head, or closes the cycle at the end of its path.
    pub(crate) fn settle(&mut self) -> Settled
        ensures step { Does settle self.old (answer.Settle result) self.new }
        ensures opening { self.new.opening ≡ self.old.opening }
        ensures unchanged { is_still result ≡ true → self.new ≡ self.old }
    {
        if self.last < self.cycle {
            return Settled::Finished;
        }
        match self.place.at {
            Next::Node(number) => {
                let node = *self.design.nodes.get(number as usize);
                self.settle_rule(node)
            }
            Next::End => self.close(),
        }
    }

    // The core stands for a board at a plain position.
    pub(crate) fn recall(&self)
        ensures { AtPlain self.now }
    {
        let _ = &self.design;
    }

    pub(crate) fn rows(&self) -> &[Row]
        ensures { result.now ≡ self.now.rows }
    {
        self.rows.as_slice()
    }

    pub(crate) fn into_rows(self) -> Rows
        ensures { result ≡ self.rows }
    {
        self.rows.into_sequence()
    }

    pub(crate) fn regs(&self) -> &Regs
        ensures { result.now ≡ self.now.place.regs }
    {
        &self.place.regs
    }

    pub(crate) fn design(&self) -> &Design
        ensures { result.now ≡ self.now.opening.design }
    {
        &self.design
    }

    pub(crate) fn stimulus(&self) -> &Stimulus
        ensures { result.now ≡ self.now.opening.stimulus }
    {
        &self.stimulus
    }

    pub(crate) fn first(&self) -> u32
        ensures { result ≡ self.now.opening.from }
    {
        self.first
    }

    pub(crate) fn last(&self) -> u32
        ensures { result ≡ self.now.opening.to }
    {
        self.last
    }

    pub(crate) fn cycle(&self) -> u32
        ensures { result ≡ self.now.cycle }
    {
        self.cycle
    }

    // Whether the attempt's cycle is closed, or its rule settled in it.
    fn is_late(&self, attempt: &Attempt) -> bool
        requires { attempt.now.rule < length self.now.opening.design.rules }
        ensures { result ≡ comes_late self.now attempt.now }
    {
        let (cycle, rule) = (attempt.cycle(), attempt.rule());
        cycle < self.cycle || cycle == self.cycle && self.place.settled[rule as usize]
    }

    // Whether the attempt's cycle is past the window, or past the last one.
    fn is_ahead(&self, attempt: &Attempt) -> bool
        ensures { result ≡ comes_ahead self.now attempt.now }
    {
        let cycle = attempt.cycle();
        self.cycle + self.window <= cycle || self.last < cycle
    }

    // Whether an attempt stands for the same cycle and rule.
    fn stands(&self, attempt: &Attempt) -> bool
        requires rule { attempt.now.rule < length self.now.opening.design.rules }
        requires near { IsNear self.now attempt.now }
        ensures { result ≡ is_some (slots_from self.now.cycle self.now.slots attempt.now.cycle attempt.now.rule) }
    {
        let ahead = (attempt.cycle() - self.cycle) as usize;
        self.slots[ahead].stands(attempt.rule() as usize)
    }

    // The candidate of number `pick`, counted round, where the counts of the window's cycles are these.
    pub(crate) fn choose(&self, pick: u64, counts: &[u64]) -> Option<Candidate>
        requires within { self.now.cycle ≤ self.now.opening.to }
        requires counts { HasCounts self.now counts.now }
        ensures picks { (board : Board) → StandsFor self.now board → Picks (candidates self.now.opening board) pick result }
        ensures rule { IfSome result (λ c. c.rule < length self.now.opening.design.rules) }
    {
        self.recall();
        let count = self.count(counts);
        if count == 0 {
            return None;
        }
        match self.search(pick % count, counts) {
            Search::Found(candidate) => Some(candidate),
            Search::Left(_) => None,
        }
    }

    // The job of a candidate.
    pub(crate) fn job(&self, externs: Arc<Externs>, candidate: Candidate) -> Result<Job, NoMemory>
        requires externs { kept (arc_value externs) ≡ externs_of self.now.opening.design }
        requires rule { candidate.rule < length self.now.opening.design.rules }
        ensures job { IfOk result (λ job. (board : Board) → StandsFor self.now board → IsJobOf self.now.opening board candidate job) }
        ensures fits { IfOk result FitsItself }
        ensures is_for { IfOk result (λ job. IsFor (setting_of self.now.opening) (attempt_of job)) }
    {
        let alloc = *self.place.fired.allocator();
        Ok(Job {
            design: Arc::try_clone(&self.design)?,
            externs,
            cycle: candidate.cycle,
            rule: candidate.rule,
            inputs: self.stimulus.inputs(candidate.cycle)?,
            regs: Regs::from_slice(alloc, self.place.regs.as_slice())?,
        })
    }

    // Whether the last cycle is closed.
    pub(crate) fn is_finished(&self) -> bool
        ensures { result ≡ nat_lt self.now.opening.to self.now.cycle }
    {
        self.last < self.cycle
    }

    // How many candidates there are.
    fn count(&self, counts: &[u64]) -> u64
        requires within { self.now.cycle ≤ self.now.opening.to }
        requires counts { HasCounts self.now counts.now }
        ensures { (board : Board) → StandsFor self.now board → result ≡ length (candidates self.now.opening board) }
    {
        self.recall();
        let mut count = self.count_head();
        let cycles = self.window.min(self.last + 1 - self.cycle);
        for ahead in 0..cycles {
            count += self.count_further(self.cycle + ahead, counts);
        }
        count
    }

    // Searches for the candidate of a number.
    fn search(&self, number: u64, counts: &[u64]) -> Search
        requires within { self.now.cycle ≤ self.now.opening.to }
        requires counts { HasCounts self.now counts.now }
        ensures finds { FindsIn self.now (candidates self.now.opening) number result }
        ensures rule { HasRule self.now.opening.design.rules result }
    {
        let mut search = self.search_head(number);
        let cycles = self.window.min(self.last + 1 - self.cycle);
        for ahead in 0..cycles {
            search = self.pass_cycle(search, self.cycle + ahead, counts);
        }
        search
    }

    // Looks whether the head is a candidate.
    fn search_head(&self, number: u64) -> Search
        ensures finds { FindsIn self.now (first self.now.opening) number result }
        ensures rule { HasRule self.now.opening.design.rules result }
    {
        match self.place.at {
            Next::End => Search::Left(number),
            Next::Node(node) => {
                let pair = self.pair(self.cycle, node as usize);
                Search::Left(number).past(pair, !self.stands_at(self.cycle, pair.rule))
            }
        }
    }

    // Goes past the further candidates of a cycle: by their number, where the candidate isn't among them.
    fn pass_cycle(&self, search: Search, cycle: u32, counts: &[u64]) -> Search
        requires counts { HasCounts self.now counts.now }
        requires from { self.now.cycle ≤ cycle }
        requires within { cycle < self.now.cycle + self.now.opening.window }
        requires rule { HasRule self.now.opening.design.rules search }
        ensures finds { (all : Board → List Candidate) (number : ℕ) → FindsIn self.now all number search → FindsIn self.now (λ board. all board ++ further self.now.opening board cycle) number result }
        ensures rule { HasRule self.now.opening.design.rules result }
    {
        match search {
            Search::Found(found) => Search::Found(found),
            Search::Left(left) => {
                let count = self.count_further(cycle, counts);
                if count <= left {
                    Search::Left(left - count)
                } else {
                    self.search_cycle(left, cycle)
                }
            }
        }
    }

    // The number of further candidates of a cycle.
    fn count_further(&self, cycle: u32, counts: &[u64]) -> u64
        requires counts { HasCounts self.now counts.now }
        requires from { self.now.cycle ≤ cycle }
        requires within { cycle < self.now.cycle + self.now.opening.window }
        ensures { (board : Board) → StandsFor self.now board → result ≡ length (further self.now.opening board cycle) }
    {
        self.recall();
        let count = counts[(cycle - self.cycle) as usize];
        if self.cycle < cycle {
            count
        } else {
            count - self.count_head()
        }
    }

    // 1 where the head is a candidate, else 0.
    fn count_head(&self) -> u64
        ensures { (board : Board) → StandsFor self.now board → result ≡ length (first self.now.opening board) }
    {
        match self.search_head(0) {
            Search::Found(_) => 1,
            Search::Left(_) => 0,
        }
    }

    // Searches the further candidates of a cycle, node by node, for the one that comes after `left` others.
    fn search_cycle(&self, left: u64, cycle: u32) -> Search
        requires from { self.now.cycle ≤ cycle }
        requires within { cycle < self.now.cycle + self.now.opening.window }
        ensures finds { (all : Board → List Candidate) (number : ℕ) → FindsIn self.now all number (searched.Left left) → FindsIn self.now (λ board. all board ++ further self.now.opening board cycle) number result }
        ensures rule { HasRule self.now.opening.design.rules result }
    {
        let slots = &self.slots[(cycle - self.cycle) as usize];
        let mut left = left;
        for number in 0..self.design.nodes.len() {
            let pair = self.pair(cycle, number);
            let stands = slots.stands(pair.rule as usize);
            if self.is_further(pair, stands) {
                if left == 0 {
                    return Search::Found(pair);
                }
                left -= 1;
            }
        }
        Search::Left(left)
    }

    // The pair of a cycle and a node.
    fn pair(&self, cycle: u32, number: usize) -> Candidate
        requires { number < length self.now.opening.design.nodes }
        ensures pair { slice_get (pairs self.now.opening.design.nodes cycle) number ≡ Some result }
        ensures head { pair_at cycle (next.Node number) (slice_get self.now.opening.design.nodes number) ≡ result ∷ [] }
        ensures cycle { result.cycle ≡ cycle }
        ensures rule { result.rule < length self.now.opening.design.rules }
    {
        let node = *self.design.nodes.get(number);
        Candidate {
            cycle,
            node: number as u32,
            rule: node.rule,
        }
    }

    // Whether the pair isn't the head, and its rule is open in its cycle, where an attempt `stands` for it or not.
    fn is_further(&self, pair: Candidate, stands: bool) -> bool
        requires from { self.now.cycle ≤ pair.cycle }
        requires within { pair.cycle < self.now.cycle + self.now.opening.window }
        requires stands { stands ≡ is_some (slots_from self.now.cycle self.now.slots pair.cycle pair.rule) }
        requires rule { pair.rule < length self.now.opening.design.rules }
        ensures { result ≡ comes_further self.now pair }
    {
        let is_current = pair.cycle == self.cycle;
        !(is_current && self.place.at.is_at(pair.node as usize))
            && !(is_current && self.place.settled[pair.rule as usize])
            && !stands
    }

    // Whether an attempt stands for the cycle and the rule.
    fn stands_at(&self, cycle: u32, rule: u32) -> bool
        requires from { self.now.cycle ≤ cycle }
        requires within { cycle < self.now.cycle + self.now.opening.window }
        requires rule { rule < length self.now.opening.design.rules }
        ensures { result ≡ is_some (slots_from self.now.cycle self.now.slots cycle rule) }
    {
        self.slots[(cycle - self.cycle) as usize].stands(rule as usize)
    }

    // Puts an attempt in its slot.
    fn store(&mut self, attempt: Attempt)
        requires fits { IsFor (setting_of self.old.opening) attempt }
        requires near { IsNear self.old attempt }
        ensures stored { (board : Board) → StandsFor self.old board → StandsFor self.new (stored self.old.opening board attempt) }
        ensures opening { self.new.opening ≡ self.old.opening }
    {
        attempt.recall();
        let ahead = (attempt.cycle() - self.cycle) as usize;
        let rule = attempt.rule() as usize;
        self.slots[ahead].put(rule, attempt);
    }

    // Settles the rule of the node that is the head.
    fn settle_rule(&mut self, node: Node) -> Settled
        requires within { self.old.cycle ≤ self.old.opening.to }
        requires head { node_at self.old.opening.design.nodes self.old.place.at ≡ Some node }
        ensures step { Does settle self.old (answer.Settle result) self.new }
        ensures opening { self.new.opening ≡ self.old.opening }
        ensures unchanged { is_still result ≡ true → self.new ≡ self.old }
    {
        let (cycle, rule) = (self.cycle, node.rule);
        match self.slots[0].take(rule as usize) {
            None => Settled::Waiting { cycle, rule },
            Some(attempt) => told(cycle, rule, self.place.judge(&node, &attempt)),
        }
    }

    // Closes the cycle, whose path is at its end.
    fn close(&mut self) -> Settled
        requires within { self.old.cycle ≤ self.old.opening.to }
        requires end { self.old.place.at ≡ next.End }
        ensures step { Does settle self.old (answer.Settle result) self.new }
        ensures opening { self.new.opening ≡ self.old.opening }
        ensures closed { is_still result ≡ false }
    {
        let cycle = self.cycle;
        match self.blanks.pop() {
            Some(blank) => self
                .rows
                .push(blank.filled(&self.place.regs, &self.place.fired)),
            None => unreachable!(),
        }
        self.place.begin_next(&self.design);
        self.slots[0].clear();
        self.slots.rotate_left(1);
        self.cycle += 1;
        Settled::CycleClosed { cycle }
    }
}

// Room for that many rows of the design.
fn room(alloc: Global, design: &Design, count: usize) -> Result<Vec<Blank>, NoMemory>
    ensures blank { IfOk result (λ blanks. All (IsBlank design.now) blanks.items) }
    ensures count { IfOk result (λ blanks. length blanks.items ≡ count) }
{
    let mut blanks = Vec::with_capacity(alloc, count)?;
    for _ in 0..count {
        blanks.push_reserved(Blank::new(alloc, design)?);
    }
    Ok(blanks)
}

// Empty slots for that many cycles.
fn empty_slots(alloc: Global, rules: usize, cycles: usize) -> Result<Vec<Waiting>, NoMemory>
    ensures { IfOk result (λ slots. slots.items ≡ replicate cycles (replicate rules None)) }
{
    let mut slots = Vec::with_capacity(alloc, cycles)?;
    for _ in 0..cycles {
        slots.push_reserved(Waiting::new(alloc, rules)?);
    }
    Ok(slots)
}

// The answer to the attempt at the head's rule.
fn told(cycle: u32, rule: u32, verdict: Verdict) -> Settled
    ensures answer { (board : Board) (node : Node) (a : Attempted) → board.cycle ≡ cycle → node.rule ≡ rule → answer.Settle result ≡ (judged board node a verdict).answer }
    ensures moves { is_still result ≡ false }
{
    match verdict {
        Verdict::Commit => Settled::Committed { cycle, rule },
        Verdict::Skip(cause) => Settled::Skipped { cycle, rule, cause },
        Verdict::Stale(read) => Settled::Stale { cycle, rule, read },
    }
}
