//! Engines: which own write each read of an attempt saw.

ghost use Rattle.std.specs.Prelude.{◌≡◌, ◌+◌, ◌*◌, ◌<◌, ◌≤◌, ◌^◌, ℕ, Some, false, IfOk, if◌then◌else◌, length, slice_get, slice_index_or};
ghost use Rattle.kw_bits.specs.BitVector.{BitVector};
ghost use Rattle.typed_core.specs.Alone.{is_write_below};
ghost use Rattle.typed_core.specs.Evaluation.{unit};
ghost use Rattle.typed_core.specs.Fits.{EventsFit};
ghost use Rattle.typed_core.specs.Valid.{IsPort};
ghost use Rattle.typed_core.specs.Widths.{register_widths};
ghost use Rattle.typed_core.specs.declared.access.Event.{Event};
ghost use Rattle.attempt_log.specs.Sources.{AreSources, IsSource, value_from};
ghost use Rattle.attempt_log.specs.declared.sources.TheConstants.{PLACES};

use kw_bits::{Bits, NoMemory};
use one_rule::Regs;
use std::alloc::Global;
use typed_core::limits::PORTS;
use typed_core::{Access, Design, Event, Events};

// Each register has a place for each port.
pub(crate) const PLACES: usize = PORTS as usize;

// An attempt of at most so many events is looked back over: a table of each register's places would cost more.
const FEW_EVENTS: usize = 16;

// Where the reads among these events get their values, in time linear in the events and the design's registers.
pub(crate) fn sources_of(
    alloc: Global,
    design: &Design,
    events: &Events,
) -> Result<Vec<usize>, NoMemory>
    requires { EventsFit (register_widths design.now) events.now }
    ensures { IfOk result (λ sources. AreSources events.now sources.items) }
{
    if events.len() <= FEW_EVENTS {
        looked_back(alloc, events.as_slice())
    } else {
        in_table(alloc, design, events)
    }
}

// The sources of these events, each looked for in those before it. The list takes no memory where they are all 0.
fn looked_back(alloc: Global, events: &[Event]) -> Result<Vec<usize>, NoMemory>
    ensures { IfOk result (λ sources. AreSources events.now sources.items) }
{
    if !has_source(events) {
        return Ok(Vec::new(alloc));
    }
    let mut sources = Vec::with_capacity(alloc, events.len())?;
    for (number, event) in events.iter().enumerate() {
        sources.push_reserved(source_before(events, number, &event.access));
    }
    Ok(sources)
}

// Whether one of these events gets its value from another.
fn has_source(events: &[Event]) -> bool
    ensures { result ≡ false → (number : ℕ) (e : Event) → slice_get events.now number ≡ Some e → IsSource events.now number e.access.port e.access.register 0 }
{
    for (number, event) in events.iter().enumerate() {
        let source = source_before(events, number, &event.access);
        if source != 0 {
            return true;
        }
    }
    false
}

// The source of the event of a number, in a list that may leave out what is 0 at its end.
pub(crate) fn source_at(sources: &[usize], number: usize) -> usize
    ensures { result ≡ slice_index_or sources.now number 0 }
{
    match sources.get(number) {
        Some(source) => *source,
        None => 0,
    }
}

// The source of a read after so many events, at the register and the port of an access.
fn source_before(events: &[Event], after: usize, access: &Access) -> usize
    requires { after ≤ length events.now }
    ensures { IsSource events.now after access.now.port access.now.register result }
{
    let mut source = 0;
    for number in 0..after {
        source = source_with(access, &events[number], number, source);
    }
    source
}

// The source after one event more, which has this number.
fn source_with(access: &Access, event: &Event, number: usize, source: usize) -> usize
    requires { number < 2 ^ 63 }
    ensures { result ≡ (if is_write_below access.now.port access.now.register event.now.access then number + 1 else source) }
{
    let before = &event.access;
    if before.write && before.register == access.register && before.port < access.port {
        number + 1
    } else {
        source
    }
}

// The sources of these events, by a table of what a read of each register gets at each port.
fn in_table(alloc: Global, design: &Design, events: &Events) -> Result<Vec<usize>, NoMemory>
    requires { EventsFit (register_widths design.now) events.now }
    ensures { IfOk result (λ sources. AreSources events.now sources.items) }
{
    let mut latest = Vec::from_elem(alloc, 0, PLACES * design.regs.len())?;
    let list = events.as_slice();
    let mut sources = Vec::with_capacity(alloc, list.len())?;
    for (number, event) in list.iter().enumerate() {
        sources.push_reserved(latest[place_of(&event.access)]);
        note(&mut latest, &event.access, number + 1);
    }
    Ok(sources)
}

// The place of a register at a port.
fn place_of(access: &Access) -> usize
    requires { IsPort access.now.port }
    ensures { result ≡ PLACES * access.now.register + access.now.port }
{
    PLACES * access.register as usize + access.port as usize
}

// A write is what later reads of its register get at the ports above it.
fn note(latest: &mut Vec<usize>, access: &Access, source: usize)
    requires port { IsPort access.now.port }
    requires register { PLACES * access.now.register + PLACES ≤ length latest.old.items }
    ensures length { length latest.new.items ≡ length latest.old.items }
    ensures each { (port register : ℕ) → IsPort port → let place = PLACES * register + port in
        slice_index_or latest.new.items place 0 ≡ (if is_write_below port register access.now then source else slice_index_or latest.old.items place 0) }
{
    if !access.write {
        return;
    }
    for port in access.port as usize + 1..PLACES {
        latest[PLACES * access.register as usize + port] = source;
    }
}

// What a read of the event's register gets from a source.
pub(crate) fn value_at(regs: &Regs, events: &[Event], event: &Event, source: usize) -> Bits
    requires register { event.now.access.register < length regs.now }
    requires source { source ≤ length events.now }
    ensures { result ≡ value_from events.now (slice_index_or regs.now event.now.access.register unit) source }
{
    if source == 0 {
        *regs.get(event.access.register as usize)
    } else {
        events[source - 1].value
    }
}
