//! Circuits: the scheduler log as wires.

// What a rule's log leaves in the scheduler log. Where the rule makes no access at a port, nothing is added.
ghost use Rattle.std.specs.Prelude.{◌≡◌, ◌*◌, ◌<◌, ◌&&◌, ◌||◌, ℕ, List, false, IfOk, IsTrue, length, if◌then◌else◌};
ghost use Rattle.kw_bits.specs.BitVector.{BitVector};
ghost use Rattle.net_graph.specs.Values.{Sources, value_at};
ghost use Rattle.typed_core.specs.Widths.{register_widths};
ghost use Rattle.typed_core.specs.declared.limits.TheConstants.{PORTS};
ghost use Rattle.net_action.specs.Gates.{Grows, HasValue, IsUp};
ghost use Rattle.net_action.specs.Wires.{AreLogWires, AreValues, HasWire, is_up};
ghost use Rattle.net_sched.specs.inner.Cycles.{AreFlags, Joins, JoinsFlags, nth};

use crate::flags::nth;
use kw_bits::{NoMemory, Sequence};
use net_action::{LogWires, both, choice, either};
use net_graph::{Net, NetId, NetOp};
use std::alloc::Global;
use typed_core::Design;
use typed_core::limits::PORTS;

/// The scheduler log with a rule's accesses where it fires.
pub(crate) fn joined_log(
    alloc: Global,
    net: &mut Net,
    design: &Design,
    sched: &LogWires,
    rule: &LogWires,
    fires: NetId,
) -> Result<LogWires, NoMemory>
    requires sched { AreLogWires net.old (register_widths design.now) sched.now }
    requires rule { AreLogWires net.old (register_widths design.now) rule.now }
    requires fires { HasWire net.old fires 1 }
    ensures grows { (inputs : List ℕ) → Grows inputs net.old net.new }
    ensures wires { IfOk result (AreLogWires net.new (register_widths design.now)) }
    ensures joins { IfOk result (λ log. (s : Sources) (values : List BitVector) → AreValues s net.new values → Joins (register_widths design.now) values sched.now rule.now (is_up values fires) log) }
{
    let places = PORTS as usize * design.regs.len();
    let was_read = joined_flags(alloc, net, places, &sched.was_read, &rule.was_read, fires)?;
    let was_written = joined_flags(
        alloc,
        net,
        places,
        &sched.was_written,
        &rule.was_written,
        fires,
    )?;
    let values = joined_values(alloc, net, places, sched, rule, fires)?;
    Ok(LogWires {
        was_read,
        was_written,
        values,
    })
}

// The flags of a log, and those of another where it counts.
fn joined_flags(
    alloc: Global,
    net: &mut Net,
    places: usize,
    sched: &Sequence<NetId>,
    rule: &Sequence<NetId>,
    fires: NetId,
) -> Result<Sequence<NetId>, NoMemory>
    requires sched { AreFlags net.old places sched.now }
    requires rule { AreFlags net.old places rule.now }
    requires fires { HasWire net.old fires 1 }
    ensures grows { (inputs : List ℕ) → Grows inputs net.old net.new }
    ensures flags { IfOk result (AreFlags net.new places) }
    ensures up { IfOk result (λ both. (s : Sources) (values : List BitVector) → AreValues s net.new values → JoinsFlags values sched.now rule.now (is_up values fires) places both) }
{
    let mut flags = Sequence::new(alloc);
    for place in 0..places {
        let flag = joined_flag(net, nth(sched, place), nth(rule, place), fires)?;
        flags.push(flag)?;
    }
    Ok(flags)
}

// A flag, and another where it counts.
fn joined_flag(net: &mut Net, sched: NetId, rule: NetId, fires: NetId) -> Result<NetId, NoMemory>
    requires sched { HasWire net.old sched 1 }
    requires rule { HasWire net.old rule 1 }
    requires fires { HasWire net.old fires 1 }
    ensures grows { (inputs : List ℕ) → Grows inputs net.old net.new }
    ensures wire { IfOk result (λ id. HasWire net.new id 1) }
    ensures up { IfOk result (IsUp net.new (λ values. is_up values sched || (is_up values fires && is_up values rule))) }
{
    if is_down(net, rule) {
        return Ok(sched);
    }
    let noted = both(net, fires, rule)?;
    let flag = either(net, sched, noted)?;
    Ok(flag)
}

// The values of a log, and those of another's writes where it counts.
fn joined_values(
    alloc: Global,
    net: &mut Net,
    places: usize,
    sched: &LogWires,
    rule: &LogWires,
    fires: NetId,
) -> Result<Sequence<NetId>, NoMemory>
    requires sched { length sched.now.values ≡ places }
    requires rule { length rule.now.values ≡ places }
    requires flags { AreFlags net.old places rule.now.was_written }
    requires widths { (place : ℕ) → place < places → (width : ℕ) × HasWire net.old (nth rule.now.values place) width × HasWire net.old (nth sched.now.values place) width }
    requires fires { HasWire net.old fires 1 }
    ensures grows { (inputs : List ℕ) → Grows inputs net.old net.new }
    ensures count { IfOk result (λ wires. length wires ≡ places) }
    ensures wires { IfOk result (λ wires. (place width : ℕ) → place < places → HasWire net.old (nth sched.now.values place) width → HasWire net.new (nth wires place) width) }
    ensures value { IfOk result (λ wires. (s : Sources) (values : List BitVector) → AreValues s net.new values → (place : ℕ) → place < places
        → value_at values (nth wires place) ≡ (if is_up values fires && is_up values (nth rule.now.was_written place) then value_at values (nth rule.now.values place) else value_at values (nth sched.now.values place))) }
{
    let mut values = Sequence::new(alloc);
    for place in 0..places {
        let is_written = nth(&rule.was_written, place);
        let (first, second) = (nth(&rule.values, place), nth(&sched.values, place));
        let value = joined_value(net, fires, is_written, first, second)?;
        values.push(value)?;
    }
    Ok(values)
}

// The first value where both wires are 1, else the second.
fn joined_value(
    net: &mut Net,
    fires: NetId,
    is_written: NetId,
    first: NetId,
    second: NetId,
) -> Result<NetId, NoMemory>
    requires fires { HasWire net.old fires 1 }
    requires is_written { HasWire net.old is_written 1 }
    requires one_width { (width : ℕ) × HasWire net.old first width × HasWire net.old second width }
    ensures grows { (inputs : List ℕ) → Grows inputs net.old net.new }
    ensures wire { IfOk result (λ id. (width : ℕ) → HasWire net.old second width → HasWire net.new id width) }
    ensures value { IfOk result (HasValue net.new (λ values. if is_up values fires && is_up values is_written then value_at values first else value_at values second)) }
{
    if is_down(net, is_written) {
        return Ok(second);
    }
    let noted = both(net, fires, is_written)?;
    let value = choice(net, noted, first, second)?;
    Ok(value)
}

/// Whether a wire is the constant 0, so that nothing has to be made of it.
pub(crate) fn is_down(net: &Net, wire: NetId) -> bool
    requires { HasWire net.now wire 1 }
    ensures { IsTrue result → IsUp net.now (λ values. false) wire }
{
    let op = net.ops()[wire as usize];
    match op {
        NetOp::Const(value) => value.number() == 0,
        _ => false,
    }
}
