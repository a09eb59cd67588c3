//! Circuits: one scheduler node as wires.

// One node of the scheduler as wires.
ghost use Rattle.std.specs.Prelude.{◌≡◌, ◌<◌, List, IfOk, length};
ghost use Rattle.kw_bits.specs.BitVector.{BitVector};
ghost use Rattle.net_graph.specs.Values.{Sources};
ghost use Rattle.typed_core.specs.Valid.{externs_of};
ghost use Rattle.typed_core.specs.Widths.{input_widths, register_widths};
ghost use Rattle.one_rule.specs.Externs.{kept};
ghost use Rattle.one_rule.specs.PortRun.{PortState, port_fire};
ghost use Rattle.net_action.specs.Gates.{Grows};
ghost use Rattle.net_action.specs.Wires.{AreLogWires, ArePortWires, AreValues, HasWire, PortsStandFor, is_up};
ghost use Rattle.net_sched.specs.inner.Cycles.{IsVisit};

use crate::log::joined_log;
use kw_bits::NoMemory;
use net_action::{LogWires, PortWires, both, both_not, rule_net};
use net_graph::{Net, NetId};
use one_rule::Externs;
use std::alloc::Global;
use typed_core::Design;

/// A design, with its tables and host functions.
#[derive(Drop)]
pub(crate) struct Context<'a> {
    pub(crate) design: &'a Design,
    pub(crate) externs: &'a Externs,
}

/// A node that is visited where a wire is 1.
#[derive(Drop)]
pub(crate) struct NodeWires {
    /// Whether it is visited and its rule fires.
    pub(crate) fires: NetId,
    /// Whether it is visited and its rule doesn't fire.
    pub(crate) fails: NetId,
    /// The scheduler log after it.
    pub(crate) log: LogWires,
}

/// Tries a rule after the scheduler log where the wire is 1.
pub(crate) fn visit(
    alloc: Global,
    context: &Context,
    net: &mut Net,
    ports: &PortWires,
    rule: u32,
    is_visited: NetId,
) -> Result<NodeWires, NoMemory>
    requires externs { kept context.now.externs.now ≡ externs_of context.now.design.now }
    requires rule { rule < length context.now.design.now.rules }
    requires ports { ArePortWires net.old (register_widths context.now.design.now) ports.now }
    requires is_visited { HasWire net.old is_visited 1 }
    ensures grows { Grows (input_widths context.now.design.now) net.old net.new }
    ensures fires { IfOk result (λ visit. HasWire net.new visit.fires 1) }
    ensures fails { IfOk result (λ visit. HasWire net.new visit.fails 1) }
    ensures log { IfOk result (λ visit. AreLogWires net.new (register_widths context.now.design.now) visit.log) }
    ensures visit { IfOk result (λ visit. (s : Sources) (values regs : List BitVector) (state : PortState) → AreValues s net.new values → PortsStandFor (register_widths context.now.design.now) values ports.now state.log regs
        → IsVisit (register_widths context.now.design.now) values visit (is_up values is_visited) state (port_fire context.now.design.now s.inputs regs rule state)) }
{
    let tried = rule_net(alloc, net, context.design, context.externs, rule, ports)?;
    let fires = both(net, is_visited, tried.fires)?;
    let fails = both_not(net, is_visited, tried.fires)?;
    let log = joined_log(alloc, net, context.design, &ports.log, &tried.log, fires)?;
    Ok(NodeWires { fires, fails, log })
}
