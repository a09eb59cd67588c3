//! Certificates: an invariant, and a refutation of its obligation.

ghost use Rattle.std.specs.Prelude.{◌≡◌, ◌<◌, None, Some, All, IsTrue, OnOk, length, sum};
ghost use Rattle.kw_base.specs.Fault.{IfFault};
ghost use Rattle.clause_check.specs.Refutations.{fault_of};
ghost use Rattle.aig_blast.specs.Aigs.{latch_widths};
ghost use Rattle.aig_blast.specs.AigRun.{first_words};
ghost use Rattle.invariant_check.specs.Kept.{IsKeptInEveryRun, is_true_of};
ghost use Rattle.invariant_check.specs.Obligations.{obligation_of};

use crate::obligations::obligation;
use aig_blast::Aig;
use clause_check::{Formula, check_refutation};
use kw_base::Refusal;
use std::alloc::Global;

/// Checks that a text, whose first line has this number in its source, refutes the obligation of an invariant that is
/// true of the first values, and of claimed outputs. Then the invariant is true in each row of every run, and no claimed
/// output is 1. Its first fault is 93 or 94 in a line, or 95 past the last one.
pub fn certify(
    alloc: Global,
    aig: &Aig,
    invariant: &Formula,
    claimed: &[u32],
    refutation: &[u8],
    first_line: u32,
) -> Result<(), Refusal>
    requires bits { invariant.now.variables ≡ sum (latch_widths aig.now.latches) }
    requires outputs { All (λ output. output < length aig.now.outputs) claimed.now }
    requires first { IsTrue (is_true_of invariant.now.clauses (first_words aig.now.latches)) }
    ensures taken { OnOk result (fault_of (obligation_of aig.now invariant.now.clauses claimed.now) first_line
        refutation.now ≡ None) }
    ensures kept { OnOk result (IsKeptInEveryRun aig.now invariant.now.clauses claimed.now) }
    ensures fault { IfFault result (λ fault. fault_of (obligation_of aig.now invariant.now.clauses claimed.now)
        first_line refutation.now ≡ Some fault) }
{
    let formula = obligation(alloc, aig, invariant, claimed)?;
    check_refutation(alloc, &formula, refutation, first_line)
}
