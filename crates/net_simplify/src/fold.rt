//! Circuits: operators on constants alone, computed.

// The values of operators on constants alone.
ghost use Rattle.std.specs.Prelude.{IfNone, IfSome};
ghost use Rattle.net_graph.specs.Nets.{IsNet, Stands, widths_of};
ghost use Rattle.circuit_eval.specs.Tidy.{IsOpen};
ghost use Rattle.net_simplify.specs.inner.Forms.{Equals};
ghost use Rattle.net_simplify.specs.declared.form.Form.TheVariants.{Constant};

use crate::nodes::constant_at;
use kw_bits::Bits;
use net_graph::{Net, NetOp, value_of};

/// The value of an operator, if its operands are constants alone.
pub(crate) fn folded(net: &Net, op: &NetOp) -> Option<Bits>
    requires stands { Stands (widths_of net.now) op.now }
    requires net { IsNet net.now }
    ensures some { IfSome result (λ value. Equals net.now op.now (Constant value)) }
    ensures none { IfNone result (IsOpen net.now op.now) }
{
    match *op {
        NetOp::Const(_) | NetOp::Input(_, _) | NetOp::State(_, _) => None,
        NetOp::One(operator, a) => {
            let x = constant_at(net, a)?;
            Some(value_of(&NetOp::One(operator, 0), &[], &[], &[x]))
        }
        NetOp::Slice(a, upper, lower) => {
            let x = constant_at(net, a)?;
            Some(value_of(&NetOp::Slice(0, upper, lower), &[], &[], &[x]))
        }
        NetOp::Uext(a, added) => {
            let x = constant_at(net, a)?;
            Some(value_of(&NetOp::Uext(0, added), &[], &[], &[x]))
        }
        NetOp::Sext(a, added) => {
            let x = constant_at(net, a)?;
            Some(value_of(&NetOp::Sext(0, added), &[], &[], &[x]))
        }
        NetOp::Two(operator, a, b) => {
            let x = constant_at(net, a)?;
            let y = constant_at(net, b)?;
            Some(value_of(&NetOp::Two(operator, 0, 1), &[], &[], &[x, y]))
        }
        NetOp::Ite(condition, a, b) => {
            let c = constant_at(net, condition)?;
            let x = constant_at(net, a)?;
            let y = constant_at(net, b)?;
            Some(value_of(&NetOp::Ite(0, 1, 2), &[], &[], &[c, x, y]))
        }
    }
}
