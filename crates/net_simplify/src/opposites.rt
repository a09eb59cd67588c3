//! Circuits: operators on opposite values, and comparisons that say what others don't.

ghost use Rattle.std.specs.Prelude.{◌≤◌, IfSome, IsTrue};
ghost use Rattle.net_simplify.specs.inner.Forms.{IsOfOpposites, IsOpposite, Turns};

use kw_bits::Bits;
use net_graph::{NetOp, NetTwo};

/// The operator that has the turned value of another, if that is a comparison.
pub(crate) fn opposite_of(op: &NetOp) -> Option<NetOp>
    ensures { IfSome result (Turns op.now) }
{
    match *op {
        NetOp::Two(operator, a, b) => match opposite(operator) {
            Some(other) => Some(NetOp::Two(other, a, b)),
            None => None,
        },
        _ => None,
    }
}

/// Whether an operator has the turned value of another, for all values: both are comparisons of the same nodes.
pub(crate) fn is_opposite(op: &NetOp, other: &NetOp) -> bool
    ensures { IsTrue result → Turns op.now other.now }
{
    match opposite_of(op) {
        Some(turned) => turned == *other,
        None => false,
    }
}

// The comparison that says what another doesn't.
fn opposite(operator: NetTwo) -> Option<NetTwo>
    ensures { IfSome result (IsOpposite operator) }
{
    match operator {
        NetTwo::EqBits => Some(NetTwo::Neq),
        NetTwo::Neq => Some(NetTwo::EqBits),
        NetTwo::Ult => Some(NetTwo::Ugte),
        NetTwo::Ulte => Some(NetTwo::Ugt),
        NetTwo::Ugt => Some(NetTwo::Ulte),
        NetTwo::Ugte => Some(NetTwo::Ult),
        NetTwo::Slt => Some(NetTwo::Sgte),
        NetTwo::Slte => Some(NetTwo::Sgt),
        NetTwo::Sgt => Some(NetTwo::Slte),
        NetTwo::Sgte => Some(NetTwo::Slt),
        _ => None,
    }
}

/// The value of an operator on a node of this width and one whose bits are the turned ones.
pub(crate) fn of_opposites(operator: NetTwo, width: u32) -> Option<Bits>
    requires some { 1 ≤ width }
    requires most { width ≤ 128 }
    ensures { IfSome result (IsOfOpposites operator width) }
{
    match operator {
        NetTwo::And => Some(Bits::zero(width)),
        NetTwo::Or => Some(Bits::zero(width).not()),
        NetTwo::Xor => Some(Bits::zero(width).not()),
        _ => None,
    }
}
