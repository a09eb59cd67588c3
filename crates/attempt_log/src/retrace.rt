//! Engines: the check that events are a rule's trace.

ghost use Rattle.std.specs.Prelude.{◌≡◌, ◌<◌, ◌↔◌, IfOk, IsTrue, length, slice_get};
ghost use Rattle.typed_core.specs.Fits.{EventsFit};
ghost use Rattle.typed_core.specs.Valid.{externs_of};
ghost use Rattle.typed_core.specs.Widths.{HaveWidths, input_widths, register_widths};
ghost use Rattle.typed_core.specs.declared.access.Event.{Event};
ghost use Rattle.one_rule.specs.Cycle.{environment};
ghost use Rattle.one_rule.specs.Externs.{kept};
ghost use Rattle.attempt_log.specs.Trace.{IsTrace, ReadFits, ReadsFit, is_read, listed, retrace, trace_ports};

use kw_bits::{Bits, NoMemory};
use one_rule::{Environment, Externs, Inputs, Interrupt, Ports, evaluate, note_write, outcome_of};
use std::alloc::Global;
use typed_core::{Access, Alone, Design, Event, Events, Scope};

/// Whether these are the events and the outcome that the rule gives where the events answer its reads.
pub(crate) fn is_trace(
    alloc: Global,
    design: &Design,
    externs: &Externs,
    rule: u32,
    inputs: &Inputs,
    run: &Alone,
) -> Result<bool, NoMemory>
    requires externs { kept externs.now ≡ externs_of design.now }
    requires rule { rule < length design.now.rules }
    requires inputs { HaveWidths (input_widths design.now) inputs.now }
    ensures trace { IfOk result (λ is. IsTrue is ↔ IsTrace design.now rule inputs.now run.now) }
    ensures fits { IfOk result (λ is. IsTrue is → EventsFit (register_widths design.now) run.now.events) }
{
    if !do_reads_fit(design, &run.events) {
        return Ok(false);
    }
    let given = retrace(alloc, design, externs, rule, inputs, &run.events)?;
    Ok(are_same(&given.events, &run.events) && given.outcome == run.outcome)
}

// Whether each value that was read has its register's width.
fn do_reads_fit(design: &Design, events: &Events) -> bool
    ensures { IsTrue result ↔ ReadsFit (register_widths design.now) events.now }
{
    events
        .as_slice()
        .iter()
        .all(|event| does_read_fit(design, event))
}

fn does_read_fit(design: &Design, event: &Event) -> bool
    ensures { IsTrue result ↔ ReadFits (register_widths design.now) event.now }
{
    let Access {
        write,
        register,
        ..
    } = event.access;
    if write {
        return true;
    }
    match design.regs.as_slice().get(register as usize) {
        Some(decl) => event.value.width() == decl.width,
        None => false,
    }
}

fn are_same(events: &Events, others: &Events) -> bool
    ensures { IsTrue result ↔ (events.now ≡ others.now) }
{
    events == others
}

// What the rule gives where these events answer its reads.
fn retrace(
    alloc: Global,
    design: &Design,
    externs: &Externs,
    rule: u32,
    inputs: &Inputs,
    trace: &Events,
) -> Result<Alone, NoMemory>
    requires externs { kept externs.now ≡ externs_of design.now }
    requires rule { rule < length design.now.rules }
    requires inputs { HaveWidths (input_widths design.now) inputs.now }
    requires reads { ReadsFit (register_widths design.now) trace.now }
    ensures fits { IfOk result (λ run. EventsFit (register_widths design.now) run.events) }
    ensures run { IfOk result (λ run. run ≡ retrace (environment design.now inputs.now) (register_widths design.now) trace.now (slice_get design.now.rules rule)) }
{
    let env = Environment {
        design,
        externs,
        inputs,
    };
    let mut ports = TracePorts {
        design,
        trace,
        events: Events::new(alloc),
    };
    let body = &design.rules.get(rule as usize).body;
    let end = evaluate(&env, &mut ports, body, &Scope::empty());
    let outcome = outcome_of(end)?;
    Ok(Alone {
        events: ports.events,
        outcome,
    })
}

// The ports of a rule whose reads a list of events answers: the list, and the rule's own events so far.
#[derive(Drop)]
struct TracePorts<'a> {
    design: &'a Design,
    trace: &'a Events,
    events: Events,
}

impl Ports for TracePorts<'_> {
    ghost stands_for = { λ ports events. ports.events ≡ events };

    ghost reading = { λ ports. trace_ports (register_widths ports.design.now) ports.trace.now };

    ghost widths = { λ ports. register_widths ports.design.now };

    // A read evaluates to what is listed for it.
    fn read(&mut self, port: u32, register: u32) -> Result<Bits, Interrupt> {
        let value = listed(self.design, port, register, self.trace, self.events.len());
        let access = Access {
            write: false,
            port,
            register,
        };
        self.events.push(Event { access, value })?;
        Ok(value)
    }

    // A write that the rule's own events refuse isn't noted.
    fn write(&mut self, port: u32, register: u32, value: Bits) -> Result<(), Interrupt> {
        note_write(&mut self.events, port, register, value)
    }
}

// What a read evaluates to whose event has this place in the list.
fn listed(design: &Design, port: u32, register: u32, trace: &Events, place: usize) -> Bits
    requires { register < length design.now.regs }
    ensures { result ≡ listed (register_widths design.now) port register (slice_get trace.now place) }
{
    match trace.as_slice().get(place) {
        Some(event) if is_read(port, register, event) => event.value,
        _ => Bits::zero(design.regs.get(register as usize).width),
    }
}

fn is_read(port: u32, register: u32, event: &Event) -> bool
    ensures { result ≡ is_read port register event.now }
{
    let access = &event.access;
    !access.write && access.port == port && access.register == register
}
