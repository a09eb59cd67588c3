//! Circuits: registers as wires, at the start and at the end of a cycle.

// The wires of registers: their values at the start of a cycle, and those at its end.
ghost use Rattle.std.specs.Prelude.{◌≡◌, ◌+◌, ◌*◌, ◌<◌, ◌^◌, ℕ, List, [], All, IfOk, length, map, slice_index_or, if◌then◌else◌};
ghost use Rattle.kw_bits.specs.BitVector.{BitVector};
ghost use Rattle.net_graph.specs.Values.{AllRead, Sources, value_at};
ghost use Rattle.typed_core.specs.Alone.{seen};
ghost use Rattle.typed_core.specs.Evaluation.{unit};
ghost use Rattle.typed_core.specs.Valid.{IsPort, IsRegister};
ghost use Rattle.typed_core.specs.Widths.{register_widths};
ghost use Rattle.typed_core.specs.declared.access.Event.{Event};
ghost use Rattle.typed_core.specs.declared.design.RegDecl.{RegDecl};
ghost use Rattle.typed_core.specs.declared.limits.TheConstants.{PORTS};
ghost use Rattle.net_action.specs.Gates.{Grows, HasValue};
ghost use Rattle.net_action.specs.Wires.{AreLogWires, ArePortWires, AreValues, HasWire, LogStandsFor, PortsStandFor, is_up};
ghost use Rattle.net_sched.specs.inner.Cycles.{AreStates, nth};

use crate::flags::nth;
use crate::log::is_down;
use kw_bits::{NoMemory, Sequence};
use net_action::{LogWires, PortWires, choice};
use net_graph::{Net, NetId, NetOp};
use std::alloc::Global;
use typed_core::limits::PORTS;
use typed_core::{Design, RegDecl};

/// The wire of each register's state.
pub(crate) fn state_wires(
    alloc: Global,
    net: &mut Net,
    decls: &[RegDecl],
) -> Result<Sequence<NetId>, NoMemory>
    requires net { net.old ≡ [] }
    requires count { length decls.now < 2 ^ 32 }
    requires widths { All IsRegister decls.now }
    ensures reads { IfOk result (λ wires. (inputs : List ℕ) → AllRead inputs (map (λ (decl : RegDecl). decl.width) decls.now) net.new) }
    ensures wires { IfOk result (AreStates net.new (map (λ (decl : RegDecl). decl.width) decls.now)) }
{
    let mut wires = Sequence::new(alloc);
    for (register, decl) in decls.iter().enumerate() {
        let wire = net.add(NetOp::State(register as u32, decl.width))?;
        wires.push(wire)?;
    }
    Ok(wires)
}

/// The value of each register after the cycle.
pub(crate) fn next_values(
    alloc: Global,
    net: &mut Net,
    design: &Design,
    ports: &PortWires,
) -> Result<Sequence<NetId>, NoMemory>
    requires ports { ArePortWires net.old (register_widths design.now) ports.now }
    ensures grows { (inputs : List ℕ) → Grows inputs net.old net.new }
    ensures count { IfOk result (λ wires. length wires ≡ length (register_widths design.now)) }
    ensures wires { IfOk result (λ wires. (register : ℕ) → register < length (register_widths design.now) → HasWire net.new (nth wires register) (nth (register_widths design.now) register)) }
    ensures values { IfOk result (λ wires. (s : Sources) (values : List BitVector) (events : List Event) (regs : List BitVector) → AreValues s net.new values → PortsStandFor (register_widths design.now) values ports.now events regs
        → (register : ℕ) → register < length (register_widths design.now) → value_at values (nth wires register) ≡ seen PORTS register events (slice_index_or regs register unit)) }
{
    let mut wires = Sequence::new(alloc);
    for register in 0..design.regs.len() {
        let start = nth(&ports.start, register);
        let wire = last_value(net, design, &ports.log, register as u32, start)?;
        wires.push(wire)?;
    }
    Ok(wires)
}

// The value that a register has after the cycle: that of its last write, else the one that it has now.
fn last_value(
    net: &mut Net,
    design: &Design,
    log: &LogWires,
    register: u32,
    start: NetId,
) -> Result<NetId, NoMemory>
    requires register { register < length (register_widths design.now) }
    requires start { HasWire net.old start (nth (register_widths design.now) register) }
    requires log { AreLogWires net.old (register_widths design.now) log.now }
    ensures grows { (inputs : List ℕ) → Grows inputs net.old net.new }
    ensures wire { IfOk result (λ id. HasWire net.new id (nth (register_widths design.now) register)) }
    ensures value { IfOk result (λ id. (s : Sources) (values : List BitVector) (events : List Event) → AreValues s net.new values → LogStandsFor (register_widths design.now) values log.now events
        → value_at values id ≡ seen PORTS register events (value_at values start)) }
{
    let mut value = start;
    for port in 0..PORTS {
        let is_written = nth(&log.was_written, place(port, register));
        let written = nth(&log.values, place(port, register));
        value = written_over(net, is_written, written, value)?;
    }
    Ok(value)
}

// Where the wire of a port of a register stands.
fn place(port: u32, register: u32) -> usize
    requires { IsPort port }
    ensures { result ≡ PORTS * register + port }
{
    PORTS as usize * register as usize + port as usize
}

// The first value where the wire is 1, else the second.
fn written_over(
    net: &mut Net,
    is_written: NetId,
    first: NetId,
    second: NetId,
) -> Result<NetId, NoMemory>
    requires is_written { HasWire net.old is_written 1 }
    requires one_width { (width : ℕ) × HasWire net.old first width × HasWire net.old second width }
    ensures grows { (inputs : List ℕ) → Grows inputs net.old net.new }
    ensures wire { IfOk result (λ id. (width : ℕ) → HasWire net.old second width → HasWire net.new id width) }
    ensures value { IfOk result (HasValue net.new (λ values. if is_up values is_written then value_at values first else value_at values second)) }
{
    if is_down(net, is_written) {
        return Ok(second);
    }
    let value = choice(net, is_written, first, second)?;
    Ok(value)
}
