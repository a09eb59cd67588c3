//! Engines: a rule that runs alone.

ghost use Rattle.std.specs.Prelude.{◌≡◌, ◌<◌, [], ◌∷◌, IfOk, List, length, map};
ghost use Rattle.kw_bits.specs.BitVector.{BitVector};
ghost use Rattle.typed_core.specs.Alone.{alone_ports, is_refused, is_write_below, outcome_of, seen, write};
ghost use Rattle.typed_core.specs.Evaluation.{Progress, unit};
ghost use Rattle.typed_core.specs.Fits.{EventsFit};
ghost use Rattle.typed_core.specs.Valid.{externs_of};
ghost use Rattle.typed_core.specs.Widths.{HaveWidths, input_widths, register_widths};
ghost use Rattle.typed_core.specs.declared.access.Event.{Event};
ghost use Rattle.typed_core.specs.declared.outcome.Stopped.{Stopped};
ghost use Rattle.one_rule.specs.Answers.{Answers, value_of};
ghost use Rattle.one_rule.specs.Externs.{kept};
ghost use Rattle.one_rule.specs.Cycle.{system_of};

use crate::evaluation::{Environment, Interrupt, Ports, evaluate};
use crate::externs::Externs;
use crate::rows::{Inputs, Regs};
use kw_bits::{Bits, NoMemory};
use std::alloc::Global;
use typed_core::{Access, Alone, Design, Event, Events, Outcome, Scope, Stopped};

/// The events and the outcome of a rule that runs alone on these registers.
pub fn alone(
    alloc: Global,
    design: &Design,
    externs: &Externs,
    rule: u32,
    inputs: &Inputs,
    regs: &Regs,
) -> Result<Alone, NoMemory>
    requires externs { kept externs.now ≡ externs_of design.now }
    requires rule { rule < length design.now.rules }
    requires inputs { HaveWidths (input_widths design.now) inputs.now }
    requires registers { HaveWidths (register_widths design.now) regs.now }
    ensures alone { IfOk result (λ run. run ≡ (system_of design.now).alone rule inputs.now regs.now) }
    ensures fits { IfOk result (λ run. EventsFit (register_widths design.now) run.events) }
{
    let env = Environment {
        design,
        externs,
        inputs,
    };
    let mut ports = LonePorts {
        regs,
        events: Events::new(alloc),
    };
    let body = &design.rules.get(rule as usize).body;
    let end = evaluate(&env, &mut ports, body, &Scope::empty());
    let outcome = outcome_of(end)?;
    Ok(Alone {
        events: ports.events,
        outcome,
    })
}

/// How a rule ends whose body ends so, at ports that are a rule's own.
pub fn outcome_of(end: Result<Option<Bits>, Interrupt>) -> Result<Outcome, NoMemory>
    ensures { (events : List Event) (progress : Progress BitVector Stopped) → Answers value_of (λ (noted : List Event). events ≡ noted) end progress
        → IfOk result (λ outcome. (events ≡ progress.events) × (outcome ≡ outcome_of progress.ending)) }
{
    match end {
        Ok(_) => Ok(Outcome::Done),
        Err(Interrupt::Stop(Stopped::Abort)) => Ok(Outcome::Abort),
        Err(Interrupt::Stop(Stopped::Refused(access))) => Ok(Outcome::OwnClash(access)),
        Err(Interrupt::NoMemory) => Err(NoMemory),
    }
}

// The ports of a rule that runs alone: the registers that it reads, and its events so far.
#[derive(Drop)]
struct LonePorts<'a> {
    regs: &'a Regs,
    events: Events,
}

impl Ports for LonePorts<'_> {
    ghost stands_for = { λ ports events. ports.events ≡ events };

    ghost reading = { λ ports. alone_ports ports.regs.now };

    ghost widths = { λ ports. map (λ (value : BitVector). value.width) ports.regs.now };

    // A read evaluates to the value of the last write of the register at a port below, or else to the register's.
    fn read(&mut self, port: u32, register: u32) -> Result<Bits, Interrupt> {
        let value = seen(
            port,
            register,
            &self.events,
            *self.regs.get(register as usize),
        );
        let access = Access {
            write: false,
            port,
            register,
        };
        self.events.push(Event { access, value })?;
        Ok(value)
    }

    // A write that the rule's own events refuse isn't noted.
    fn write(&mut self, port: u32, register: u32, value: Bits) -> Result<(), Interrupt> {
        note_write(&mut self.events, port, register, value)
    }
}

/// Notes a write after a rule's own events, unless one of them refuses it.
pub fn note_write(
    events: &mut Events,
    port: u32,
    register: u32,
    value: Bits,
) -> Result<(), Interrupt>
    ensures { Answers (λ _. unit) (λ (noted : List Event). events.new ≡ noted) result (write port register value events.old) }
{
    let access = Access {
        write: true,
        port,
        register,
    };
    if is_refused(events, &access) {
        return Err(Interrupt::Stop(Stopped::Refused(access)));
    }
    events.push(Event { access, value })?;
    Ok(())
}

// What a read of a register at a port sees of these events, from its start value.
fn seen(port: u32, register: u32, events: &Events, start: Bits) -> Bits
    ensures { result ≡ seen port register events.now start }
{
    let mut value = start;
    for event in events.as_slice() {
        if is_write_below(port, register, &event.access) {
            value = event.value;
        }
    }
    value
}

fn is_write_below(port: u32, register: u32, access: &Access) -> bool
    ensures { result ≡ is_write_below port register access.now }
{
    access.write && access.register == register && access.port < port
}

fn is_refused(events: &Events, access: &Access) -> bool
    ensures { result ≡ is_refused events.now access.now }
{
    events
        .as_slice()
        .iter()
        .any(|event| access.clashes_after(&event.access))
}
