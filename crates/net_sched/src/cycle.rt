//! Circuits: the walk of a cycle as wires.

// The walk of a cycle as wires. Nodes are passed in order of their numbers, as the walk visits them, so one scheduler
// log serves them all: what a rule does joins it where the walk visits the rule's node and the rule fires.
ghost use Rattle.std.specs.Prelude.{◌≡◌, ◌+◌, ◌*◌, ◌<◌, ◌≤◌, ℕ, List, IfOk, length, replicate, slice_set};
ghost use Rattle.kw_bits.specs.BitVector.{BitVector};
ghost use Rattle.net_graph.specs.Values.{Sources};
ghost use Rattle.typed_core.specs.Valid.{IsNode, IsPort, externs_of};
ghost use Rattle.typed_core.specs.Widths.{input_widths, register_widths};
ghost use Rattle.typed_core.specs.declared.limits.TheConstants.{MAX_REGISTERS, PORTS};
ghost use Rattle.one_rule.specs.Externs.{kept};
ghost use Rattle.one_rule.specs.PortRun.{PortState, port_fire};
ghost use Rattle.one_rule.specs.Walk as walk;
ghost use Rattle.one_rule.specs.Walk.{Walk, walk_from};
ghost use Rattle.net_action.specs.Gates.{Grows};
ghost use Rattle.net_action.specs.Wires.{AreValues, wire_at};
ghost use Rattle.net_sched.specs.inner.Cycles.{AreCycleWires, AreStates, CycleStandsFor, nothing, nth};

use crate::flags::{filled, lead, mark, nth};
use crate::visit::{Context, visit};
use kw_bits::{Bits, NoMemory, Sequence};
use net_action::{LogWires, PortWires, constant};
use net_graph::{Net, NetId};
use one_rule::Externs;
use std::alloc::Global;
use typed_core::limits::PORTS;
use typed_core::{Design, Node};

/// A cycle that has come past some nodes.
#[derive(Drop)]
pub(crate) struct CycleWires {
    pub(crate) ports: PortWires,
    /// Whether the walk reaches each node, as far as the nodes that were passed lead there.
    pub(crate) visited: Sequence<NetId>,
    /// Whether each rule fired.
    pub(crate) fired: Sequence<NetId>,
}

/// The wires of a whole cycle that begins on these states.
pub(crate) fn cycle_wires(
    alloc: Global,
    net: &mut Net,
    design: &Design,
    externs: &Externs,
    start: Sequence<NetId>,
) -> Result<CycleWires, NoMemory>
    requires externs { kept externs.now ≡ externs_of design.now }
    requires start { AreStates net.old (register_widths design.now) start }
    ensures grows { Grows (input_widths design.now) net.old net.new }
    ensures wires { IfOk result (AreCycleWires net.new (register_widths design.now) (length design.now.nodes) (length design.now.rules)) }
    ensures walk { IfOk result (λ cycle. (s : Sources) (values : List BitVector) → AreValues s net.new values
        → CycleStandsFor (register_widths design.now) (length design.now.nodes) (length design.now.rules) values s.states cycle (length design.now.nodes) (walk_from (port_fire design.now s.inputs s.states) design.now.nodes nothing)) }
{
    let mut cycle = beginning(alloc, net, design, start)?;
    let context = Context { design, externs };
    for (number, node) in design.nodes.as_slice().iter().enumerate() {
        pass(alloc, &context, net, &mut cycle, number, node)?;
    }
    Ok(cycle)
}

// A cycle that is at the root, with nothing in its log.
fn beginning(
    alloc: Global,
    net: &mut Net,
    design: &Design,
    start: Sequence<NetId>,
) -> Result<CycleWires, NoMemory>
    requires { AreStates net.old (register_widths design.now) start }
    ensures grows { (inputs : List ℕ) → Grows inputs net.old net.new }
    ensures wires { IfOk result (AreCycleWires net.new (register_widths design.now) (length design.now.nodes) (length design.now.rules)) }
    ensures walk { IfOk result (λ cycle. (s : Sources) (values : List BitVector) → AreValues s net.new values
        → CycleStandsFor (register_widths design.now) (length design.now.nodes) (length design.now.rules) values s.states cycle 0 (walk.start design.now.nodes nothing)) }
{
    let down = constant(net, Bits::zero(1))?;
    let up = constant(net, one())?;
    let visited = at_first(alloc, design.nodes.len(), up, down)?;
    let log = no_access(alloc, &start, down)?;
    let fired = filled(alloc, down, design.rules.len())?;
    Ok(CycleWires {
        ports: PortWires { start, log },
        visited,
        fired,
    })
}

// A log of no access, of registers that begin on these wires.
fn no_access(alloc: Global, start: &Sequence<NetId>, down: NetId) -> Result<LogWires, NoMemory>
    requires { length start.now ≤ MAX_REGISTERS }
    ensures was_read { IfOk result (λ log. log.was_read ≡ replicate (PORTS * length start.now) down) }
    ensures was_written { IfOk result (λ log. log.was_written ≡ replicate (PORTS * length start.now) down) }
    ensures count { IfOk result (λ log. length log.values ≡ PORTS * length start.now) }
    ensures values { IfOk result (λ log. (port register : ℕ) → IsPort port → register < length start.now → wire_at log.values port register ≡ nth start.now register) }
{
    let places = PORTS as usize * start.len();
    let was_read = filled(alloc, down, places)?;
    let was_written = filled(alloc, down, places)?;
    let values = of_each_port(alloc, start)?;
    Ok(LogWires {
        was_read,
        was_written,
        values,
    })
}

// The bit that is 1.
fn one() -> Bits
    ensures { result ≡ record { width = 1; number = 1 } }
{
    Bits::new(1, 1).unwrap()
}

// That many wires, the first of them up.
fn at_first(
    alloc: Global,
    count: usize,
    up: NetId,
    down: NetId,
) -> Result<Sequence<NetId>, NoMemory>
    ensures { IfOk result (λ wires. wires ≡ slice_set (replicate count down) 0 up) }
{
    let mut wires = filled(alloc, down, count)?;
    if count > 0 {
        wires.set(0, up);
    }
    Ok(wires)
}

// Each wire as often as there are ports.
fn of_each_port(alloc: Global, wires: &Sequence<NetId>) -> Result<Sequence<NetId>, NoMemory>
    requires { length wires.now ≤ MAX_REGISTERS }
    ensures count { IfOk result (λ places. length places ≡ PORTS * length wires.now) }
    ensures each { IfOk result (λ places. (port register : ℕ) → IsPort port → register < length wires.now → wire_at places port register ≡ nth wires.now register) }
{
    let mut places = Sequence::new(alloc);
    for place in 0..PORTS as usize * wires.len() {
        places.push(nth(wires, place / PORTS as usize))?;
    }
    Ok(places)
}

// Passes a node: where the walk is there, its rule is tried.
fn pass(
    alloc: Global,
    context: &Context,
    net: &mut Net,
    cycle: &mut CycleWires,
    number: usize,
    node: &Node,
) -> Result<(), NoMemory>
    requires externs { kept context.now.externs.now ≡ externs_of context.now.design.now }
    requires number { number < length context.now.design.now.nodes }
    requires node { IsNode (length context.now.design.now.rules) (length context.now.design.now.nodes) number node.now }
    requires wires { AreCycleWires net.old (register_widths context.now.design.now) (length context.now.design.now.nodes) (length context.now.design.now.rules) cycle.old }
    ensures grows { Grows (input_widths context.now.design.now) net.old net.new }
    ensures wires { IfOk result (λ done. AreCycleWires net.new (register_widths context.now.design.now) (length context.now.design.now.nodes) (length context.now.design.now.rules) cycle.new) }
    ensures walk { IfOk result (λ done. (s : Sources) (values regs : List BitVector) (now : Walk PortState) → AreValues s net.new values
        → CycleStandsFor (register_widths context.now.design.now) (length context.now.design.now.nodes) (length context.now.design.now.rules) values regs cycle.old number now
        → CycleStandsFor (register_widths context.now.design.now) (length context.now.design.now.nodes) (length context.now.design.now.rules) values regs cycle.new (number + 1) (walk.pass (port_fire context.now.design.now s.inputs regs) number node.now now)) }
{
    let is_visited = nth(&cycle.visited, number);
    let tried = visit(alloc, context, net, &cycle.ports, node.rule, is_visited)?;
    lead(net, &mut cycle.visited, node.yes, tried.fires)?;
    lead(net, &mut cycle.visited, node.no, tried.fails)?;
    mark(net, &mut cycle.fired, node.rule as usize, tried.fires)?;
    cycle.ports.log = tried.log;
    Ok(())
}
