//! Circuits: the nodes in use, laid out in a net of their own.

// The net of those nodes alone that serve.
ghost use Rattle.std.specs.Prelude.{◌≡◌, ℕ, length, IfOk, Some, slice_get, true};
ghost use Rattle.net_graph.specs.Nets.{IsNet};
ghost use Rattle.net_graph.specs.declared.node.NetOp.{NetOp};
ghost use Rattle.net_simplify.specs.inner.Passes.{is_marked, LaysOut, MarksOperands};

use crate::reduced::Placed;
use crate::renaming::renamed;
use kw_bits::NoMemory;
use net_graph::{Net, NetOp};
use std::alloc::Global;

/// The nodes of a net that serve, in order.
pub(crate) fn laid_out(alloc: Global, ops: &[NetOp], serves: &[bool]) -> Result<Placed, NoMemory>
    requires net { IsNet ops.now }
    requires count { length serves.now ≡ length ops.now }
    requires closed { (id : ℕ) (op : NetOp) → slice_get ops.now id ≡ Some op
        → is_marked serves.now id ≡ true → MarksOperands serves.now op }
    ensures { IfOk result (λ placed. LaysOut ops.now serves.now (length ops.now) placed.net placed.places.items) }
{
    let mut net = Net::new(alloc);
    let mut places = Vec::with_capacity(alloc, ops.len())?;
    for (id, op) in ops.iter().enumerate() {
        // Nobody asks for the place of a node that doesn't serve.
        let place = if serves[id] {
            net.add(renamed(op, &places))?
        } else {
            0
        };
        places.push(place)?;
    }
    Ok(Placed { net, places })
}
