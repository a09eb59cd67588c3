//! Circuits: reads and writes at ports as wires.

// Reads and writes at ports as wires. What isn't refused is noted where the rule still runs.
ghost use Rattle.std.specs.Prelude.{◌≡◌, ◌+◌, ◌*◌, ◌||◌, ◌<◌, ◌≤◌, ◌↔◌, ℕ, List, false, true, IfOk, Some, length, slice_get, slice_index_or, None, if◌then◌else◌};
ghost use Rattle.kw_bits.specs.BitVector.{BitVector};
ghost use Rattle.net_graph.specs.Values.{Sources, value_at};
ghost use Rattle.typed_core.specs.Alone.{is_refused, seen};
ghost use Rattle.typed_core.specs.Evaluation.{unit};
ghost use Rattle.typed_core.specs.Valid.{IsPort};
ghost use Rattle.typed_core.specs.Widths.{register_widths};
ghost use Rattle.typed_core.specs.declared.access.Access.{Access};
ghost use Rattle.typed_core.specs.declared.access.Event.{Event};
ghost use Rattle.typed_core.specs.declared.limits.TheConstants.{PORTS};
ghost use Rattle.one_rule.specs.PortRun.{read_behind, write_behind};
ghost use Rattle.net_action.specs.Gates.{Grows, HasValue, IsUp};
ghost use Rattle.net_action.specs.inner.Parts.{IsRunning, Means, Puts};
ghost use Rattle.net_action.specs.Wires.{AreLogWires, ArePortWires, AreValues, HasWire, LogStandsFor, PortsStandFor, is_up, wire_at};

use crate::gates::{both_not, choice, constant, either};
use crate::wires::{LogWires, PortWires, RuleNet};
use kw_bits::{Bits, NoMemory, Sequence};
use net_graph::{Net, NetId};
use typed_core::Design;
use typed_core::limits::PORTS;

/// A port of a register.
#[derive(Clone, Copy)]
pub(crate) struct RegisterPort {
    pub(crate) port: u32,
    pub(crate) register: u32,
}

/// A wire with what a read of a register at a port evaluates to. The rule runs on where it isn't refused.
pub(crate) fn read(
    design: &Design,
    ports: &PortWires,
    net: &mut Net,
    run: &mut RuleNet,
    port: u32,
    register: u32,
) -> Result<NetId, NoMemory>
    requires port { IsPort port }
    requires register { register < length (register_widths design.now) }
    requires ports { ArePortWires net.old (register_widths design.now) ports.now }
    requires run { IsRunning net.old (register_widths design.now) run.old }
    ensures grows { (inputs : List ℕ) → Grows inputs net.old net.new }
    ensures running { IfOk result (λ wire. IsRunning net.new (register_widths design.now) run.new) }
    ensures wire { IfOk result (λ wire. (width : ℕ) → slice_get (register_widths design.now) register ≡ Some width → HasWire net.new wire width) }
    ensures means { IfOk result (λ wire. (s : Sources) (values : List BitVector) (events : List Event) (regs : List BitVector) → AreValues s net.new values → PortsStandFor (register_widths design.now) values ports.now events regs
        → Means (register_widths design.now) values run.old run.new (Some wire) (read_behind events regs port register)) }
{
    let refused = refuses(design, net, &ports.log, false, port, register)?;
    let fires = both_not(net, run.fires, refused)?;
    let value = seen(design, net, ports, run, port, register)?;
    mark(net, &mut run.log.was_read, port, register, fires)?;
    run.fires = fires;
    Ok(value)
}

/// Writes a register at a port. The rule runs on where it isn't refused.
pub(crate) fn write(
    design: &Design,
    ports: &PortWires,
    net: &mut Net,
    run: &mut RuleNet,
    target: RegisterPort,
    value: NetId,
) -> Result<(), NoMemory>
    requires port { IsPort target.port }
    requires ports { ArePortWires net.old (register_widths design.now) ports.now }
    requires run { IsRunning net.old (register_widths design.now) run.old }
    requires value { (width : ℕ) × (slice_get (register_widths design.now) target.register ≡ Some width) × HasWire net.old value width }
    ensures grows { (inputs : List ℕ) → Grows inputs net.old net.new }
    ensures running { IfOk result (λ done. IsRunning net.new (register_widths design.now) run.new) }
    ensures means { IfOk result (λ done. (s : Sources) (values : List BitVector) (events : List Event) (regs : List BitVector) → AreValues s net.new values → PortsStandFor (register_widths design.now) values ports.now events regs
        → Means (register_widths design.now) values run.old run.new None (write_behind events target.port target.register (value_at values value))) }
{
    let RegisterPort { port, register } = target;
    let refused = refuses_write(design, net, ports, run, port, register)?;
    let fires = both_not(net, run.fires, refused)?;
    keep(net, &mut run.log.values, port, register, fires, value)?;
    mark(net, &mut run.log.was_written, port, register, fires)?;
    run.fires = fires;
    Ok(())
}

// Where the wire of a port of a register stands.
fn place(port: u32, register: u32) -> usize
    requires { IsPort port }
    ensures { result ≡ PORTS * register + port }
{
    PORTS as usize * register as usize + port as usize
}

// The wire of a port of a register.
fn wire_at(wires: &Sequence<NetId>, port: u32, register: u32) -> NetId
    requires port { IsPort port }
    requires within { PORTS * register + port < length wires.now }
    ensures { result ≡ wire_at wires.now port register }
{
    *wires.get(place(port, register))
}

// The wire with a register's value at the start of the cycle.
fn start_of(ports: &PortWires, register: u32) -> NetId
    requires { register < length ports.now.start }
    ensures { result ≡ slice_index_or ports.now.start register 0 }
{
    *ports.start.get(register as usize)
}

// A wire that is 1 where the wire of some port from this one on is.
fn any_from(
    net: &mut Net,
    wires: &Sequence<NetId>,
    port: u32,
    register: u32,
) -> Result<NetId, NoMemory>
    requires port { port ≤ PORTS }
    requires within { PORTS * register + PORTS ≤ length wires.now }
    requires wires { (at : ℕ) → IsPort at → HasWire net.old (wire_at wires.now at register) 1 }
    ensures grows { (inputs : List ℕ) → Grows inputs net.old net.new }
    ensures wire { IfOk result (λ id. HasWire net.new id 1) }
    ensures down { IfOk result (λ id. (s : Sources) (values : List BitVector) → AreValues s net.new values
        → (is_up values id ≡ false) ↔ ((at : ℕ) → port ≤ at → IsPort at → is_up values (wire_at wires.now at register) ≡ false)) }
{
    let mut any = constant(net, Bits::zero(1))?;
    for at in port..PORTS {
        any = either(net, any, wire_at(wires, at, register))?;
    }
    Ok(any)
}

// A wire that is 1 where one of the log's accesses refuses this one.
fn refuses(
    design: &Design,
    net: &mut Net,
    log: &LogWires,
    write: bool,
    port: u32,
    register: u32,
) -> Result<NetId, NoMemory>
    requires port { IsPort port }
    requires register { register < length (register_widths design.now) }
    requires log { AreLogWires net.old (register_widths design.now) log.now }
    ensures grows { (inputs : List ℕ) → Grows inputs net.old net.new }
    ensures wire { IfOk result (λ id. HasWire net.new id 1) }
    ensures up { IfOk result (λ id. (s : Sources) (values : List BitVector) (events : List Event) → AreValues s net.new values → LogStandsFor (register_widths design.now) values log.now events
        → is_up values id ≡ is_refused events (record { write = write; port = port; register = register })) }
{
    let is_written = any_from(net, &log.was_written, port, register)?;
    if !write {
        return Ok(is_written);
    }
    let is_read = any_from(net, &log.was_read, port + 1, register)?;
    let refused = either(net, is_written, is_read)?;
    Ok(refused)
}

// A wire that is 1 where the scheduler log or the rule log refuses a write.
fn refuses_write(
    design: &Design,
    net: &mut Net,
    ports: &PortWires,
    run: &RuleNet,
    port: u32,
    register: u32,
) -> Result<NetId, NoMemory>
    requires port { IsPort port }
    requires register { register < length (register_widths design.now) }
    requires ports { AreLogWires net.old (register_widths design.now) ports.now.log }
    requires run { AreLogWires net.old (register_widths design.now) run.now.log }
    ensures grows { (inputs : List ℕ) → Grows inputs net.old net.new }
    ensures wire { IfOk result (λ id. HasWire net.new id 1) }
    ensures up { IfOk result (λ id. (s : Sources) (values : List BitVector) (events own : List Event) → AreValues s net.new values
        → LogStandsFor (register_widths design.now) values ports.now.log events → LogStandsFor (register_widths design.now) values run.now.log own
        → let access : Access = record { write = true; port = port; register = register } in
        is_up values id ≡ (is_refused events access || is_refused own access)) }
{
    let by_scheduler = refuses(design, net, &ports.log, true, port, register)?;
    let by_rule = refuses(design, net, &run.log, true, port, register)?;
    let refused = either(net, by_scheduler, by_rule)?;
    Ok(refused)
}

// A wire with what a read sees after the scheduler log and the rule log.
fn seen(
    design: &Design,
    net: &mut Net,
    ports: &PortWires,
    run: &RuleNet,
    port: u32,
    register: u32,
) -> Result<NetId, NoMemory>
    requires port { IsPort port }
    requires register { register < length (register_widths design.now) }
    requires ports { ArePortWires net.old (register_widths design.now) ports.now }
    requires run { AreLogWires net.old (register_widths design.now) run.now.log }
    ensures grows { (inputs : List ℕ) → Grows inputs net.old net.new }
    ensures wire { IfOk result (λ id. (width : ℕ) → slice_get (register_widths design.now) register ≡ Some width → HasWire net.new id width) }
    ensures value { IfOk result (λ id. (s : Sources) (values : List BitVector) (events own : List Event) (regs : List BitVector) → AreValues s net.new values
        → PortsStandFor (register_widths design.now) values ports.now events regs → LogStandsFor (register_widths design.now) values run.now.log own
        → value_at values id ≡ seen port register own (seen port register events (slice_index_or regs register unit))) }
{
    let start = start_of(ports, register);
    let before = value_below(design, net, &ports.log, port, register, start)?;
    let value = value_below(design, net, &run.log, port, register, before)?;
    Ok(value)
}

// A wire with the value of the log's last write at a port below this one, or else the start value.
fn value_below(
    design: &Design,
    net: &mut Net,
    log: &LogWires,
    port: u32,
    register: u32,
    start: NetId,
) -> Result<NetId, NoMemory>
    requires port { port ≤ PORTS }
    requires register { register < length (register_widths design.now) }
    requires start { (width : ℕ) → slice_get (register_widths design.now) register ≡ Some width → HasWire net.old start width }
    requires log { AreLogWires net.old (register_widths design.now) log.now }
    ensures grows { (inputs : List ℕ) → Grows inputs net.old net.new }
    ensures wire { IfOk result (λ id. (width : ℕ) → slice_get (register_widths design.now) register ≡ Some width → HasWire net.new id width) }
    ensures value { IfOk result (λ id. (s : Sources) (values : List BitVector) (events : List Event) → AreValues s net.new values → LogStandsFor (register_widths design.now) values log.now events
        → value_at values id ≡ seen port register events (value_at values start)) }
{
    let mut value = start;
    for at in 0..port {
        let is_written = wire_at(&log.was_written, at, register);
        value = choice(net, is_written, wire_at(&log.values, at, register), value)?;
    }
    Ok(value)
}

// Sets the flag of a port of a register where the rule runs.
fn mark(
    net: &mut Net,
    flags: &mut Sequence<NetId>,
    port: u32,
    register: u32,
    runs: NetId,
) -> Result<(), NoMemory>
    requires port { IsPort port }
    requires within { PORTS * register + port < length flags.old }
    requires flag { HasWire net.old (wire_at flags.old port register) 1 }
    requires runs { HasWire net.old runs 1 }
    ensures grows { (inputs : List ℕ) → Grows inputs net.old net.new }
    ensures marks { IfOk result (λ done. (flag : ℕ) × Puts flags.old port register flags.new flag × HasWire net.new flag 1
        × IsUp net.new (λ values. is_up values (wire_at flags.old port register) || is_up values runs) flag) }
{
    let flag = either(net, wire_at(flags, port, register), runs)?;
    flags.set(place(port, register), flag);
    Ok(())
}

// Keeps the value of a port of a register where the rule runs.
fn keep(
    net: &mut Net,
    values: &mut Sequence<NetId>,
    port: u32,
    register: u32,
    runs: NetId,
    value: NetId,
) -> Result<(), NoMemory>
    requires port { IsPort port }
    requires within { PORTS * register + port < length values.old }
    requires runs { HasWire net.old runs 1 }
    requires value { (width : ℕ) × HasWire net.old value width × HasWire net.old (wire_at values.old port register) width }
    ensures grows { (inputs : List ℕ) → Grows inputs net.old net.new }
    ensures keeps { IfOk result (λ done. (kept : ℕ) × Puts values.old port register values.new kept × ((width : ℕ) → HasWire net.old value width → HasWire net.new kept width)
        × HasValue net.new (λ v. if is_up v runs then value_at v value else value_at v (wire_at values.old port register)) kept) }
{
    let kept = choice(net, runs, value, wire_at(values, port, register))?;
    values.set(place(port, register), kept);
    Ok(())
}
