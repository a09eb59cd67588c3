//! Circuits: operators over other nodes.

// Operators on other nodes.
ghost use Rattle.std.specs.Prelude.{◌≡◌, ◌<◌, length, All};
ghost use Rattle.circuit_eval.specs.Tidy.{operands};
ghost use Rattle.net_simplify.specs.inner.Passes.{nth, renamed};

use net_graph::{NetId, NetOp};

/// An operator on the places of its operands.
pub(crate) fn renamed(op: &NetOp, places: &[NetId]) -> NetOp
    requires { All (λ a. a < length places.now) (operands op.now) }
    ensures { result ≡ renamed (nth places.now) op.now }
{
    match *op {
        NetOp::Const(_) | NetOp::Input(_, _) | NetOp::State(_, _) => *op,
        NetOp::One(operator, a) => NetOp::One(operator, places[a as usize]),
        NetOp::Two(operator, a, b) => {
            NetOp::Two(operator, places[a as usize], places[b as usize])
        }
        NetOp::Slice(a, upper, lower) => NetOp::Slice(places[a as usize], upper, lower),
        NetOp::Uext(a, added) => NetOp::Uext(places[a as usize], added),
        NetOp::Sext(a, added) => NetOp::Sext(places[a as usize], added),
        NetOp::Ite(condition, a, b) => NetOp::Ite(
            places[condition as usize],
            places[a as usize],
            places[b as usize],
        ),
    }
}
