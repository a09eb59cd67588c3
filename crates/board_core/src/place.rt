//! Engines: where a board is in the walk of its current cycle.

ghost use Rattle.std.specs.Prelude.{◌≡◌, ℕ, List, [], ◌∷◌, ◌++◌, slice_index_or, IfOk, false, true};
ghost use Rattle.typed_core.specs.Widths.{HaveWidths, register_widths};
ghost use Rattle.typed_core.specs.declared.design.Parts.{Parts};
ghost use Rattle.one_rule.specs.Cycle.{begin, join};
ghost use Rattle.one_rule.specs.Walk.{Walk, start};
ghost use Rattle.typed_core.specs.Continuations.{root};
ghost use Rattle.one_rule.specs.declared.cycle.State.{State};
ghost use Rattle.attempt_log.specs.Verdict.{verdict};
ghost use Rattle.board_core.specs.Board.{Board, judged};
ghost use Rattle.board_core.specs.Kept.{IsAt};
ghost use Rattle.board_core.specs.inner.Kept.{IsShaped};

use attempt_log::{Attempt, Past, Verdict, verdict};
use kw_bits::NoMemory;
use one_rule::Regs;
use std::alloc::Global;
use typed_core::{Design, Next, Node, apply};

// Where the walk of a cycle is: the head, the registers, the rules that fired so far with what clashes with them, and
// the rules that are settled.
#[derive(Drop)]
pub(crate) struct Place {
    pub(crate) at: Next,
    pub(crate) regs: Regs,
    pub(crate) fired: Vec<bool>,
    pub(crate) settled: Vec<bool>,
    pub(crate) past: Past,
}

impl Place {
    // The beginning of a cycle on these registers.
    pub(crate) fn new(alloc: Global, design: &Design, regs: Regs) -> Result<Place, NoMemory>
        requires { HaveWidths (register_widths design.now) regs }
        ensures at { IfOk result (λ place. IsAt design.now place (start design.now.nodes (begin regs)) []) }
        ensures shape { IfOk result (λ place. IsShaped design.now place) }
    {
        let rules = design.rules.len();
        Ok(Place {
            at: design.root(),
            regs,
            fired: Vec::from_elem(alloc, false, rules)?,
            settled: Vec::from_elem(alloc, false, rules)?,
            past: Past::new(alloc, design)?,
        })
    }

    // Judges the attempt at the rule of the node that the walk is at, and goes on, unless the attempt is stale.
    pub(crate) fn judge(&mut self, node: &Node, attempt: &Attempt) -> Verdict
        requires shape { IsShaped attempt.now.design self.old }
        requires rule { attempt.now.rule ≡ node.now.rule }
        requires new { slice_index_or self.old.settled.items node.now.rule true ≡ false }
        ensures shape { IsShaped attempt.now.design self.new }
        ensures verdict { (walk : Walk State) (done : List ℕ) → IsAt attempt.now.design self.old walk done
            → result ≡ verdict walk.state.regs walk.state.past attempt.now.run }
        ensures at { (board : Board) → IsAt attempt.now.design self.old board.walk board.settled
            → let next = (judged board node.now attempt.now result).board in IsAt attempt.now.design self.new next.walk next.settled }
    {
        let verdict = verdict(&self.regs, &self.past, attempt);
        match verdict {
            Verdict::Commit => self.commit(node, attempt),
            Verdict::Skip(_) => self.skip(node),
            Verdict::Stale(_) => {}
        }
        verdict
    }

    // The rule of the node fires with the attempt's events.
    fn commit(&mut self, node: &Node, attempt: &Attempt)
        requires shape { IsShaped attempt.now.design self.old }
        requires rule { attempt.now.rule ≡ node.now.rule }
        requires new { slice_index_or self.old.settled.items node.now.rule true ≡ false }
        ensures shape { IsShaped attempt.now.design self.new }
        ensures at { (walk : Walk State) (done : List ℕ) → IsAt attempt.now.design self.old walk done
            → IsAt attempt.now.design self.new (record { state = join walk.state node.now.rule attempt.now.run.events; at = node.now.yes }) (done ++ node.now.rule ∷ []) }
    {
        let rule = node.rule as usize;
        apply(&mut self.regs, attempt.events());
        self.past.take(attempt);
        self.fired[rule] = true;
        self.settled[rule] = true;
        self.at = node.yes;
    }

    // The rule of the node doesn't fire.
    fn skip(&mut self, node: &Node)
        requires { slice_index_or self.old.settled.items node.now.rule true ≡ false }
        ensures shape { (design : Parts) → IsShaped design self.old → IsShaped design self.new }
        ensures at { (design : Parts) (walk : Walk State) (done : List ℕ) → IsAt design self.old walk done
            → IsAt design self.new (record { state = walk.state; at = node.now.no }) (done ++ node.now.rule ∷ []) }
    {
        self.settled[node.rule as usize] = true;
        self.at = node.no;
    }

    // The next cycle begins on the registers.
    pub(crate) fn begin_next(&mut self, design: &Design)
        requires { IsShaped design.now self.old }
        ensures shape { IsShaped design.now self.new }
        ensures at { (walk : Walk State) (done : List ℕ) → IsAt design.now self.old walk done
            → IsAt design.now self.new (start design.now.nodes (begin walk.state.regs)) [] }
    {
        self.at = design.root();
        self.fired.fill(false);
        self.settled.fill(false);
        self.past.clear();
    }
}
