//! Circuits: nets, to which an operator is added once.

ghost use Rattle.std.specs.Prelude.{◌≡◌, ◌<◌, ◌≤◌, ◌↔◌, length, [], IfOk, IsTrue, OnErr};
ghost use Rattle.net_graph.specs.Nets.{Adds, IsNet, Stands, width_at, widths_of};

use crate::node::{NetId, NetOp};
use crate::widths::{stands, width_of};
use indexmap::IndexSet;
use kw_bits::NoMemory;
use std::alloc::Global;
use std::marker::Model;

/// A net of shared nodes, seen by contracts as the list of their operators.
#[derive(Drop)]
pub struct Net {
    ops: IndexSet<NetOp>,
    widths: Vec<u32>,
}

impl Model for Net {
    ghost use Rattle.std.specs.Prelude.{◌≡◌, List};
    ghost use Rattle.net_graph.specs.declared.node.NetOp.{NetOp};
    ghost use Rattle.net_graph.specs.Nets.{IsNet, widths_of};

    ghost Value = { List NetOp };

    ghost view = { λ n. n.ops.keys };

    ghost invariant = { λ n. IsNet n.ops.keys × (n.widths.items ≡ widths_of n.ops.keys) };
}

impl Net {
    /// No nodes, which allocates nothing.
    pub fn new(alloc: Global) -> Net
        ensures { result ≡ [] }
    {
        Net {
            ops: IndexSet::new(alloc),
            widths: Vec::new(alloc),
        }
    }

    /// The node of an operator, which goes last unless it is there already. An `Err` leaves the net as it was.
    pub fn add(&mut self, op: NetOp) -> Result<NetId, NoMemory>
        requires { Stands (widths_of self.old) op }
        ensures net { IsNet self.new }
        ensures adds { IfOk result (λ id. Adds self.old op id self.new) }
        ensures err { OnErr result (self.new ≡ self.old) }
    {
        self.widths.push(width_of(&op, &self.widths))?;
        match self.ops.insert_full(op) {
            Ok((id, true)) => Ok(id as NetId),
            Ok((id, false)) => {
                self.widths.pop();
                Ok(id as NetId)
            }
            Err(_) => {
                self.widths.pop();
                Err(NoMemory)
            }
        }
    }

    /// Whether an operator may be added: its operands exist, and widths and bounds are right.
    pub fn can_add(&self, op: &NetOp) -> bool
        ensures { IsTrue result ↔ Stands (widths_of self.now) op.now }
    {
        stands(op, &self.widths)
    }

    /// How many nodes there are.
    pub fn len(&self) -> usize
        ensures len { result ≡ length self.now }
        ensures net { IsNet self.now }
    {
        self.ops.len()
    }

    /// Whether there is no node.
    pub fn is_empty(&self) -> bool
        ensures { IsTrue result ↔ (self.now ≡ []) }
    {
        self.ops.is_empty()
    }

    /// The width of a node.
    pub fn width(&self, id: NetId) -> u32
        requires { id < length self.now }
        ensures width { result ≡ width_at (widths_of self.now) id }
        ensures some { 1 ≤ result }
        ensures most { result ≤ 128 }
    {
        self.widths[id as usize]
    }

    /// The operators of the nodes in order.
    pub fn ops(&self) -> &[NetOp]
        ensures ops { result.now ≡ self.now }
        ensures net { IsNet self.now }
    {
        self.ops.as_slice()
    }
}
