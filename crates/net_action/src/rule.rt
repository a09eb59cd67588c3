//! Circuits: a whole rule as wires.

ghost use Rattle.std.specs.Prelude.{◌≡◌, ◌<◌, ℕ, List, true, [], IfOk, length, replicate, slice_get};
ghost use Rattle.kw_bits.specs.BitVector.{BitVector};
ghost use Rattle.net_graph.specs.Values.{Sources};
ghost use Rattle.typed_core.specs.Valid.{externs_of};
ghost use Rattle.typed_core.specs.Widths.{input_widths, register_widths};
ghost use Rattle.typed_core.specs.declared.access.Event.{Event};
ghost use Rattle.one_rule.specs.Cycle.{environment};
ghost use Rattle.one_rule.specs.Externs.{kept};
ghost use Rattle.one_rule.specs.PortRun.{port_run_if};
ghost use Rattle.net_action.specs.Gates.{Grows, IsUp};
ghost use Rattle.net_action.specs.inner.Parts.{IsRunning};
ghost use Rattle.net_action.specs.Wires.{AreLogWires, ArePortWires, AreValues, HasWire, LogStandsFor, PortsStandFor, RuleStandsFor};

use crate::gates::constant;
use crate::part::{Context, part};
use crate::wires::{LogWires, PortWires, RuleNet};
use kw_bits::{Bits, NoMemory, Sequence};
use net_graph::{Net, NetId};
use one_rule::Externs;
use std::alloc::Global;
use typed_core::{Design, Scope};

/// The wires of a rule that runs after these ports.
pub fn rule_net(
    alloc: Global,
    net: &mut Net,
    design: &Design,
    externs: &Externs,
    rule: u32,
    ports: &PortWires,
) -> Result<RuleNet, NoMemory>
    requires externs { kept externs.now ≡ externs_of design.now }
    requires rule { rule < length design.now.rules }
    requires ports { ArePortWires net.old (register_widths design.now) ports.now }
    ensures grows { Grows (input_widths design.now) net.old net.new }
    ensures fires { IfOk result (λ wires. HasWire net.new wires.fires 1) }
    ensures log { IfOk result (λ wires. AreLogWires net.new (register_widths design.now) wires.log) }
    ensures run { IfOk result (λ wires. (s : Sources) (values : List BitVector) (events : List Event) (regs : List BitVector) → AreValues s net.new values → PortsStandFor (register_widths design.now) values ports.now events regs
        → RuleStandsFor (register_widths design.now) values wires (port_run_if (environment design.now s.inputs) events regs (slice_get design.now.rules rule))) }
{
    let mut run = beginning(alloc, net, design, ports)?;
    let locals = Scope::empty();
    let context = Context {
        design,
        externs,
        ports,
        locals: &locals,
    };
    let body = &design.rules.get(rule as usize).body;
    let _unit = part(&context, net, &mut run, body)?;
    Ok(run)
}

// A rule that runs and has made no access.
fn beginning(
    alloc: Global,
    net: &mut Net,
    design: &Design,
    ports: &PortWires,
) -> Result<RuleNet, NoMemory>
    requires { ArePortWires net.old (register_widths design.now) ports.now }
    ensures grows { (inputs : List ℕ) → Grows inputs net.old net.new }
    ensures running { IfOk result (IsRunning net.new (register_widths design.now)) }
    ensures fires { IfOk result (λ run. IsUp net.new (λ values. true) run.fires) }
    ensures none { IfOk result (λ run. (s : Sources) (values : List BitVector) → AreValues s net.new values → LogStandsFor (register_widths design.now) values run.log []) }
{
    let down = constant(net, Bits::zero(1))?;
    let up = constant(net, one())?;
    let places = ports.log.values.len();
    Ok(RuleNet {
        fires: up,
        log: LogWires {
            was_read: filled(alloc, down, places)?,
            was_written: filled(alloc, down, places)?,
            values: Sequence::from_slice(alloc, ports.log.values.as_slice())?,
        },
    })
}

// The bit that is 1.
fn one() -> Bits
    ensures { result ≡ record { width = 1; number = 1 } }
{
    Bits::new(1, 1).unwrap()
}

// A list of that many wires, all the same.
fn filled(alloc: Global, wire: NetId, count: usize) -> Result<Sequence<NetId>, NoMemory>
    ensures { IfOk result (λ wires. wires ≡ replicate count wire) }
{
    let mut wires = Sequence::new(alloc);
    for _ in 0..count {
        wires.push(wire)?;
    }
    Ok(wires)
}
