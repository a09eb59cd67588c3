//! Verilog: the wires of a circuit's nodes.

ghost use Rattle.std.specs.Prelude.{◌≡◌, IfOk, OnOk, OnErr};
ghost use Rattle.net_graph.specs.Nets.{widths_of};
ghost use Rattle.verilog_text.specs.inner.Making as making;

use crate::module::{Operand, Wire};
use crate::nodes::{Piece, piece_of};
use kw_bits::{NoMemory, Sequence};
use net_graph::{Net, NetId};
use std::alloc::Global;

/// The wires of the nodes so far, and the operand that each node is.
#[derive(Drop)]
pub(crate) struct Draft {
    pub(crate) wires: Sequence<Wire>,
    pub(crate) operands: Sequence<Operand>,
}

/// The wires and operands of all nodes.
#[tactic(auto, unfolding(crate::specs::inner::Making::draft_of))]
pub(crate) fn draft_of(alloc: Global, net: &Net) -> Result<Draft, NoMemory>
    ensures { IfOk result (λ draft. draft ≡ making.draft_of net.now) }
{
    let mut draft = Draft {
        wires: Sequence::new(alloc),
        operands: Sequence::new(alloc),
    };
    for (id, op) in net.ops().iter().enumerate() {
        let width = net.width(id as NetId);
        let piece = piece_of(net, draft.operands.as_slice(), op);
        add_piece(&mut draft, width, piece)?;
    }
    Ok(draft)
}

// Adds a node of this width.
fn add_piece(draft: &mut Draft, width: u32, piece: Piece) -> Result<(), NoMemory>
    ensures { OnOk result (draft.new ≡ making.with_piece draft.old width piece) }
{
    match piece {
        Piece::Same(operand) => draft.operands.push(operand),
        Piece::Made(form) => {
            let number = draft.wires.len() as u64;
            draft.wires.push(Wire { width, form })?;
            draft.operands.push(Operand::Wire(number))
        }
    }
}
