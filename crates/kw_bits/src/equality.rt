//! Values: equality that contracts can rely on.

ghost use Rattle.std.specs.Prelude.{◌≡◌, ◌↔◌, true};

use crate::bit_vector::Bits;
use crate::host::{HostKind, HostSpec};
use crate::table::TableSpec;

/// A type whose `==` answers whether two values are one and the same to contracts.
pub trait Same: PartialEq {
    ghost same: { (x y : Self) → (Self.eq x y ≡ true) ↔ (x ≡ y) };
}

impl Same for u8 {
    ghost use Rattle.std.proofs.Common.{rules};

    ghost same = { λ x y. Prim.search rules };
}

impl Same for Bits {
    ghost use Rattle.std.proofs.Common.{rules};

    ghost same = { λ x y. Prim.search rules };
}

impl Same for u32 {
    ghost use Rattle.std.proofs.Common.{rules};

    ghost same = { λ x y. Prim.search rules };
}

impl Same for HostKind {
    ghost use Rattle.std.proofs.Common.{rules};

    ghost same = { λ x y. Prim.search rules };
}

impl Same for HostSpec {
    ghost use Rattle.std.proofs.Common.{rules};

    ghost same = { λ x y. Prim.search rules };
}

impl Same for TableSpec {
    ghost use Rattle.std.proofs.Common.{rules};
    ghost use Rattle.std.specs.Cmp.Lexicographic.{pointwise_decides};

    ghost same = { λ x y. Prim.search (rules, pointwise_decides) };
}
