//! Rules on two literals over the gates behind them: which other two have the same and, and need fewer gates.

ghost use Rattle.std.specs.Prelude.{◌≡◌, ℕ, ◌%◌, Bool, true, false, not as opposite_of, ◌&&◌, IfSome};
ghost use Rattle.aig_blast.specs.Graphs.{Below, choice};
ghost use Rattle.aig_blast.specs.inner.Rules.{AreValues, IsAndOf, IsChoiceOf, IsKnown};

use crate::gate::{Lit, not};
use crate::graph::Graph;

/// A literal, and the literals whose and its variable is.
#[derive(Clone, Copy)]
pub(crate) struct Known {
    pub(crate) lit: Lit,
    pub(crate) left: Lit,
    pub(crate) right: Lit,
}

// Whether one of two literals is the negation of one of two others, so that the four are never all true.
fn opposed(p: Lit, q: Lit, r: Lit, t: Lit) -> bool
    ensures { result ≡ true → (v : ℕ → Bool) → AreValues v → ((v p && v q) && (v r && v t)) ≡ false }
{
    p == not(r) || p == not(t) || q == not(r) || q == not(t)
}

// Where one of the last two literals is one of the first two, the other: what is to be added to the and of the first two.
fn rest_of(p: Lit, q: Lit, r: Lit, t: Lit) -> Option<Lit>
    ensures lit { IfSome result (λ s. (count : ℕ) → Below count r → Below count t → Below count s) }
    ensures value { IfSome result (λ s. (v : ℕ → Bool) → ((v p && v q) && (v r && v t)) ≡ ((v p && v q) && v s)) }
{
    if p == r || q == r {
        Some(t)
    } else if p == t || q == t {
        Some(r)
    } else {
        None
    }
}

// The negation of the literal that two gates share, where their other literals are opposite: it is true where neither gate is.
fn shared_by_opposites(p: Lit, q: Lit, r: Lit, t: Lit) -> Option<Lit>
    ensures lit { IfSome result (λ s. (count : ℕ) → Below count p → Below count q → Below count s) }
    ensures value { IfSome result (λ s. (v : ℕ → Bool) → AreValues v → (opposite_of (v p && v q) && opposite_of (v r && v t)) ≡ v s) }
{
    if (p == r && q == not(t)) || (p == t && q == not(r)) {
        Some(not(p))
    } else if (q == r && p == not(t)) || (q == t && p == not(r)) {
        Some(not(q))
    } else {
        None
    }
}

/// Two literals with the and of two others, by the gate behind the first.
pub(crate) fn simpler_pair(a: Known, b: Known) -> Option<(Lit, Lit)>
    ensures { IfSome result (λ r. (count : ℕ) (v : ℕ → Bool) → AreValues v → IsKnown count v a → IsKnown count v b → IsAndOf count v a.lit b.lit r.0 r.1) }
{
    if a.lit % 2 == 0 {
        of_gate(a, b)
    } else {
        of_opposite_gate(a, b)
    }
}

// The same where the first is a gate.
fn of_gate(a: Known, b: Known) -> Option<(Lit, Lit)>
    requires { a.lit % 2 ≡ 0 }
    ensures { IfSome result (λ r. (count : ℕ) (v : ℕ → Bool) → AreValues v → IsKnown count v a → IsKnown count v b → IsAndOf count v a.lit b.lit r.0 r.1) }
{
    if opposed(a.left, a.right, b.lit, b.lit) {
        return Some((Graph::FALSE, Graph::FALSE));
    }
    if b.lit == a.left || b.lit == a.right {
        return Some((a.lit, a.lit));
    }
    let opposed = opposed(a.left, a.right, b.left, b.right);
    if b.lit % 2 == 0 {
        return if opposed {
            Some((Graph::FALSE, Graph::FALSE))
        } else {
            None
        };
    }
    if opposed {
        return Some((a.lit, a.lit));
    }
    let rest = rest_of(a.left, a.right, b.left, b.right)?;
    Some((a.lit, not(rest)))
}

// The same where the first is the negation of a gate.
fn of_opposite_gate(a: Known, b: Known) -> Option<(Lit, Lit)>
    requires { a.lit % 2 ≡ 1 }
    ensures { IfSome result (λ r. (count : ℕ) (v : ℕ → Bool) → AreValues v → IsKnown count v a → IsKnown count v b → IsAndOf count v a.lit b.lit r.0 r.1) }
{
    if opposed(a.left, a.right, b.lit, b.lit) {
        return Some((b.lit, b.lit));
    }
    if let Some(rest) = rest_of(b.lit, b.lit, a.left, a.right) {
        return Some((b.lit, not(rest)));
    }
    if b.lit % 2 == 0 {
        return None;
    }
    let shared = shared_by_opposites(a.left, a.right, b.left, b.right)?;
    Some((shared, shared))
}

/// A choice: of the first literal where the condition is true, else of the second.
#[derive(Clone, Copy)]
pub(crate) struct Choice {
    pub(crate) condition: Lit,
    pub(crate) first: Lit,
    pub(crate) second: Lit,
}

/// The choice that a literal is by the two gates behind its own, if these have opposite literals.
pub(crate) fn choice_by(whole: Known, a: Known, b: Known) -> Option<Choice>
    ensures { IfSome result (λ m. (count : ℕ) (v : ℕ → Bool) → AreValues v → IsKnown count v whole → IsKnown count v a → IsKnown count v b → a.lit ≡ whole.left → b.lit ≡ whole.right → IsChoiceOf count v whole.lit m) }
{
    if a.lit % 2 == 0 || b.lit % 2 == 0 {
        return None;
    }
    let arms = arms_of(a, b)?;
    if whole.lit % 2 == 1 {
        return Some(arms);
    }
    Some(Choice {
        condition: arms.condition,
        first: not(arms.first),
        second: not(arms.second),
    })
}

// The choice that is true where one of two gates is, if these have opposite literals.
fn arms_of(a: Known, b: Known) -> Option<Choice>
    ensures lits { IfSome result (λ m. (count : ℕ) (v : ℕ → Bool) → IsKnown count v a → IsKnown count v b → Below count m.condition × Below count m.first × Below count m.second) }
    ensures value { IfSome result (λ m. (v : ℕ → Bool) → AreValues v → (opposite_of (v a.left && v a.right) && opposite_of (v b.left && v b.right)) ≡ opposite_of (choice (v m.condition) (v m.first) (v m.second))) }
{
    if a.left == not(b.left) {
        Some(Choice {
            condition: a.left,
            first: a.right,
            second: b.right,
        })
    } else if a.left == not(b.right) {
        Some(Choice {
            condition: a.left,
            first: a.right,
            second: b.left,
        })
    } else if a.right == not(b.left) {
        Some(Choice {
            condition: a.right,
            first: a.left,
            second: b.right,
        })
    } else if a.right == not(b.right) {
        Some(Choice {
            condition: a.right,
            first: a.left,
            second: b.left,
        })
    } else {
        None
    }
}

// The choice written with this literal as the second, if it has the literal.
fn turned_to(m: Choice, last: Lit) -> Option<Choice>
    ensures last { IfSome result (λ r. r.second ≡ last) }
    ensures same { IfSome result (λ r. (count : ℕ) (v : ℕ → Bool) (lit : ℕ) → AreValues v → IsChoiceOf count v lit m → IsChoiceOf count v lit r) }
{
    if m.second == last {
        Some(m)
    } else if m.first == last {
        Some(turned(m))
    } else {
        None
    }
}

// The choice by the opposite condition.
fn turned(m: Choice) -> Choice
    ensures first { result.first ≡ m.second }
    ensures second { result.second ≡ m.first }
    ensures same { (count : ℕ) (v : ℕ → Bool) (lit : ℕ) → AreValues v → IsChoiceOf count v lit m → IsChoiceOf count v lit result }
{
    Choice {
        condition: not(m.condition),
        first: m.second,
        second: m.first,
    }
}

/// Two literals that are choices, written as choices of one second literal, if they share a literal.
pub(crate) fn with_one_second(
    a: Lit,
    first: Choice,
    b: Lit,
    second: Choice,
) -> Option<(Choice, Choice)>
    ensures one { IfSome result (λ r. r.0.second ≡ r.1.second) }
    ensures first { IfSome result (λ r. (count : ℕ) (v : ℕ → Bool) → AreValues v → IsChoiceOf count v a first → IsChoiceOf count v b second → IsChoiceOf count v a r.0) }
    ensures second { IfSome result (λ r. (count : ℕ) (v : ℕ → Bool) → AreValues v → IsChoiceOf count v a first → IsChoiceOf count v b second → IsChoiceOf count v b r.1) }
{
    if let Some(m) = turned_to(first, b) {
        return Some((
            m,
            Choice {
                condition: Graph::FALSE,
                first: m.first,
                second: b,
            },
        ));
    }
    if let Some(m) = turned_to(second, a) {
        return Some((
            Choice {
                condition: Graph::FALSE,
                first: m.first,
                second: a,
            },
            m,
        ));
    }
    if let Some(m) = turned_to(second, first.second) {
        return Some((first, m));
    }
    let m = turned_to(second, first.first)?;
    Some((turned(first), m))
}
