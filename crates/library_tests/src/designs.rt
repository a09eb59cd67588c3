//! Small designs, part by part. Registers and numbers have 8 bits.

ghost use Rattle.std.specs.Prelude.{◌≡◌, [], IfOk};

use kw_bits::{Bits, NoMemory, Sequence, Text};
use std::alloc::Global;
use std::process::Abort;
use typed_core::{Access, Action, Design, Event, Events, Next, Node, Parts, RegDecl, Rule, TwoOp};

/// What a rule does, one after another.
#[derive(Clone, Copy)]
pub(crate) enum Step {
    /// Writes a number at a port of a register.
    Put(u32, u32, u128),
    /// Writes at a port of a register what it reads at a port of a register.
    Copy(u32, u32, u32, u32),
    /// Writes at a port of a register one more than what it reads at a port of a register.
    Next(u32, u32, u32, u32),
    Abort,
}

/// Rules of these steps.
pub(crate) type Rules = &'static [&'static [Step]];

/// A node: its rule, and where it goes on if the rule fires and if not.
pub(crate) type Place = (u32, Next, Next);

/// Whether it is a write, its port, its register and its value.
pub(crate) type Listed = (bool, u32, u32, u128);

/// A number of 8 bits, or of 16 where it doesn't fit.
pub(crate) fn bits(rt: &impl Abort, number: u128) -> Bits {
    let width = if number < 256 { 8 } else { 16 };
    Bits::new(width, number).expect(rt, "a bit vector")
}

fn write(alloc: Global, port: u32, register: u32, value: Action) -> Result<Action, NoMemory> {
    Ok(Action::Write(port, register, Box::new(alloc, value)?))
}

fn one_more(rt: &impl Abort, alloc: Global, value: Action) -> Result<Action, NoMemory> {
    let one = Box::new(alloc, Action::Const(bits(rt, 1)))?;
    Ok(Action::Two(TwoOp::Add, Box::new(alloc, value)?, one))
}

fn action(rt: &impl Abort, alloc: Global, step: Step) -> Result<Action, NoMemory> {
    match step {
        Step::Put(port, register, number) => {
            write(alloc, port, register, Action::Const(bits(rt, number)))
        }
        Step::Copy(port, register, from, of) => {
            write(alloc, port, register, Action::Read(from, of))
        }
        Step::Next(port, register, from, of) => {
            let value = one_more(rt, alloc, Action::Read(from, of))?;
            write(alloc, port, register, value)
        }
        Step::Abort => Ok(Action::Abort),
    }
}

/// A rule that takes these steps.
pub(crate) fn rule(rt: &impl Abort, alloc: Global, steps: &[Step]) -> Result<Rule, NoMemory> {
    let mut body = Action::Unit;
    for step in steps {
        let next = action(rt, alloc, *step)?;
        body = Action::Seq(Box::new(alloc, body)?, Box::new(alloc, next)?);
    }
    Ok(Rule {
        name: Text::new(alloc),
        body,
    })
}

/// Registers with these first values.
pub(crate) fn registers(
    rt: &impl Abort,
    alloc: Global,
    first: &[u128],
) -> Result<Sequence<RegDecl>, NoMemory> {
    let mut decls = Sequence::new(alloc);
    for number in first {
        decls.push(RegDecl {
            name: Text::new(alloc),
            width: 8,
            first: bits(rt, *number),
        })?;
    }
    Ok(decls)
}

fn nodes(alloc: Global, places: &[Place]) -> Result<Sequence<Node>, NoMemory> {
    let mut nodes = Sequence::new(alloc);
    for (rule, yes, no) in places {
        let (rule, yes, no) = (*rule, *yes, *no);
        nodes.push(Node { rule, yes, no })?;
    }
    Ok(nodes)
}

/// A design of these registers, rules and nodes, without inputs, tables or host functions.
pub(crate) fn design_of(
    rt: &impl Abort,
    alloc: Global,
    first: &[u128],
    steps: &[&'static [Step]],
    places: &[Place],
) -> Result<Design, NoMemory>
    ensures inputs { IfOk result (λ design. design.inputs ≡ []) }
    ensures hosts { IfOk result (λ design. design.hosts ≡ []) }
{
    let mut rules = Sequence::new(alloc);
    for steps in steps {
        rules.push(rule(rt, alloc, steps)?)?;
    }
    let parts = Parts {
        regs: registers(rt, alloc, first)?,
        inputs: Sequence::new(alloc),
        tables: Sequence::new(alloc),
        hosts: Sequence::new(alloc),
        rules,
        nodes: nodes(alloc, places)?,
    };
    Ok(Design::new(parts).expect(rt, "a valid design"))
}

/// Events of these accesses and values.
pub(crate) fn events_of(
    rt: &impl Abort,
    alloc: Global,
    listed: &[Listed],
) -> Result<Events, NoMemory> {
    let mut events = Events::new(alloc);
    for (write, port, register, number) in listed {
        let access = Access {
            write: *write,
            port: *port,
            register: *register,
        };
        let value = bits(rt, *number);
        events.push(Event { access, value })?;
    }
    Ok(events)
}
