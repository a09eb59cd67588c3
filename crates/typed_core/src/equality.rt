//! Core: equality of designs by value.

ghost use Rattle.std.specs.Prelude.{◌↔◌, IsTrue};
ghost use Rattle.typed_core.specs.Same.{SameRules};

use crate::design::{InputDecl, Node, RegDecl, Rule};
use kw_bits::{Same, Sequence};

/// Whether the rules are the same, one by one.
pub(crate) fn are_same_rules(rules: &Sequence<Rule>, others: &Sequence<Rule>) -> bool
    ensures { IsTrue result ↔ SameRules rules.now others.now }
{
    rules == others
}

impl Same for RegDecl {
    ghost use Rattle.std.proofs.Common.{rules};

    ghost same = { λ x y. Prim.search rules };
}

impl Same for InputDecl {
    ghost use Rattle.std.proofs.Common.{rules};

    ghost same = { λ x y. Prim.search rules };
}

impl Same for Node {
    ghost use Rattle.std.proofs.Common.{rules};

    ghost same = { λ x y. Prim.search rules };
}
