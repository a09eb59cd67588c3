//! Circuits: a net of simplest forms, and where each node of the first net is in it.

// The net of the simplest forms of a net's nodes.
ghost use Rattle.std.specs.Prelude.{IfOk, length};
ghost use Rattle.net_graph.specs.Nets.{IsNet, Stands, widths_of};
ghost use Rattle.net_simplify.specs.inner.Forms.{IsLean};
ghost use Rattle.net_simplify.specs.inner.Passes.{Gains, Reduces};

use crate::form::{Form, simplest};
use crate::renaming::renamed;
use kw_bits::NoMemory;
use net_graph::{Net, NetId, NetOp};
use std::alloc::Global;

/// A net, and which of its nodes stands for each node of another.
#[derive(Drop)]
pub(crate) struct Placed {
    pub(crate) net: Net,
    pub(crate) places: Vec<NetId>,
}

/// The simplest forms of a net's nodes.
pub(crate) fn reduced(alloc: Global, ops: &[NetOp]) -> Result<Placed, NoMemory>
    requires { IsNet ops.now }
    ensures { IfOk result (λ placed. Reduces ops.now (length ops.now) placed.net placed.places.items) }
{
    let mut net = Net::new(alloc);
    let mut places = Vec::with_capacity(alloc, ops.len())?;
    for op in ops {
        let place = add_simplest(&mut net, renamed(op, &places))?;
        places.push(place)?;
    }
    Ok(Placed { net, places })
}

// The node of an operator's simplest form.
fn add_simplest(net: &mut Net, op: NetOp) -> Result<NetId, NoMemory>
    requires stands { Stands (widths_of net.old) op }
    requires lean { IsLean net.old }
    ensures { IfOk result (Gains net.old op net.new) }
{
    match simplest(net, op) {
        Form::Node(id) => Ok(id),
        Form::Constant(value) => {
            let id = net.add(NetOp::Const(value))?;
            Ok(id)
        }
        Form::Operator(simpler) => {
            let id = net.add(simpler)?;
            Ok(id)
        }
    }
}
