//! Literals, and the and-gate.

ghost use Rattle.std.specs.Prelude.{◌≡◌, ◌/◌};
ghost use Rattle.aig_blast.specs.Graphs.{negation};

use kw_bits::Same;

/// A literal: 2v is variable v, 2v + 1 its negation. Variable 0 is false.
pub type Lit = u64;

/// An and-gate: it is true where both literals are.
#[derive(Clone, Copy, Debug, PartialEq, Eq, Hash)]
pub struct Gate {
    pub left: Lit,
    pub right: Lit,
}

impl Same for Gate {
    ghost use Rattle.std.proofs.Common.{rules};

    ghost same = { λ x y. Prim.search rules };
}

/// The literal of the other value.
#[tactic(auto, unfolding(crate::specs::Graphs::negation))]
pub(crate) fn not(lit: Lit) -> Lit
    ensures negation { result ≡ negation lit }
    ensures variable { result / 2 ≡ lit / 2 }
{
    if lit % 2 == 1 { lit - 1 } else { lit + 1 }
}
