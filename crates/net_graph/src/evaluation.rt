//! Circuits: the values of a net's nodes for given inputs and states.

ghost use Rattle.std.specs.Prelude.{◌≡◌, length};
ghost use Rattle.net_graph.specs.Nets.{Stands};
ghost use Rattle.net_graph.specs.Laws.{Feeds};
ghost use Rattle.net_graph.specs.Values.{op_value, Reads, values_of, widths};

use crate::net::Net;
use crate::node::NetOp;
use crate::operators::{ite, one, sext, two, uext};
use kw_bits::Bits;

/// Writes the values of a net's nodes, in order, each once.
pub fn evaluate(net: &Net, inputs: &[Bits], states: &[Bits], values: &mut [Bits])
    requires room { length values.old ≡ length net.now }
    requires feeds { Feeds (record { inputs = inputs.now; states = states.now }) net.now }
    ensures { values.new ≡ values_of (record { inputs = inputs.now; states = states.now }) net.now }
{
    for (id, op) in net.ops().iter().enumerate() {
        let value = value_of(op, inputs, states, &values[..id]);
        values[id] = value;
    }
}

/// The value of an operator over nodes of these values.
// A call and the copy of its result would take a third of what a node costs.
#[inline(always)]
pub fn value_of(op: &NetOp, inputs: &[Bits], states: &[Bits], before: &[Bits]) -> Bits
    requires stands { Stands (widths before.now) op.now }
    requires reads { Reads (widths inputs.now) (widths states.now) op.now }
    ensures { result ≡ op_value (record { inputs = inputs.now; states = states.now }) before.now op.now }
{
    match *op {
        NetOp::Const(value) => value,
        NetOp::Input(number, _) => inputs[number as usize],
        NetOp::State(number, _) => states[number as usize],
        NetOp::One(operator, a) => one(operator, before[a as usize]),
        NetOp::Two(operator, a, b) => two(operator, &before[a as usize], &before[b as usize]),
        NetOp::Slice(a, upper, lower) => before[a as usize].slice(upper, lower),
        NetOp::Uext(a, added) => uext(before[a as usize], added),
        NetOp::Sext(a, added) => sext(before[a as usize], added),
        NetOp::Ite(condition, a, b) => ite(
            before[condition as usize],
            before[a as usize],
            before[b as usize],
        ),
    }
}
