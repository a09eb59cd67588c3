//! Circuits: two operators that leave nothing but one operand of both.

// The node that an operator on two other operators is.
ghost use Rattle.std.specs.Prelude.{◌<◌, length, IfSome};
ghost use Rattle.net_graph.specs.Nets.{IsNet, Stands, widths_of};
ghost use Rattle.net_graph.specs.declared.node.NetOp.TheVariants.{Two};
ghost use Rattle.net_graph.specs.declared.node.NetTwo.TheVariants.{And, Or};
ghost use Rattle.net_simplify.specs.inner.Forms.{Alike, IsCommon, IsForm};
ghost use Rattle.net_simplify.specs.declared.form.Form.TheVariants.{Node};

use crate::nodes::{and_of, are_opposite, op_at, or_of};
use net_graph::{Net, NetId, NetTwo};

/// The node that an `or` of two `and`s is, or an `and` of two `or`s: an operand of both, where the other two are
/// opposite.
pub(crate) fn factor_of(net: &Net, operator: NetTwo, a: NetId, b: NetId) -> Option<NetId>
    requires stands { Stands (widths_of net.now) (Two operator a b) }
    requires net { IsNet net.now }
    ensures { IfSome result (λ id. IsForm net.now (Two operator a b) (Node id)) }
{
    match operator {
        NetTwo::Or => or_factor(net, a, b),
        NetTwo::And => and_factor(net, a, b),
        _ => None,
    }
}

fn or_factor(net: &Net, a: NetId, b: NetId) -> Option<NetId>
    requires first { a < length net.now }
    requires second { b < length net.now }
    requires net { IsNet net.now }
    ensures { IfSome result (λ id. IsForm net.now (Two Or a b) (Node id)) }
{
    let one = and_of(&op_at(net, a))?;
    let other = and_of(&op_at(net, b))?;
    common_of(net, one.first, one.second, other.first, other.second)
}

fn and_factor(net: &Net, a: NetId, b: NetId) -> Option<NetId>
    requires first { a < length net.now }
    requires second { b < length net.now }
    requires net { IsNet net.now }
    ensures { IfSome result (λ id. IsForm net.now (Two And a b) (Node id)) }
{
    let one = or_of(&op_at(net, a))?;
    let other = or_of(&op_at(net, b))?;
    common_of(net, one.first, one.second, other.first, other.second)
}

// The node that two pairs have in common, where their other nodes are opposite.
fn common_of(net: &Net, p: NetId, q: NetId, r: NetId, t: NetId) -> Option<NetId>
    requires one { Alike net.now p q }
    requires other { Alike net.now r t }
    requires net { IsNet net.now }
    ensures { IfSome result (IsCommon net.now p q r t) }
{
    if p == r && are_opposite(net, q, t) {
        return Some(p);
    }
    if p == t && are_opposite(net, q, r) {
        return Some(p);
    }
    if q == r && are_opposite(net, p, t) {
        return Some(q);
    }
    if q == t && are_opposite(net, p, r) {
        return Some(q);
    }
    None
}
