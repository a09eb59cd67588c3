//! Engines: the evaluation of each part of an action.

ghost use Rattle.std.specs.Prelude.{◌≡◌, ◌<◌, ◌≤◌, ℕ, ◌∷◌, List, length, slice_get, slice_index_or, Some};
ghost use Rattle.kw_bits.specs.Laws.{HasWidth};
ghost use Rattle.kw_bits.specs.Operators as op;
ghost use Rattle.typed_core.specs.Evaluation as core;
ghost use Rattle.typed_core.specs.Fits.{CanEvaluate, EnvironmentFits};
ghost use Rattle.typed_core.specs.inner.Fits.{CanBeOperand};
ghost use Rattle.typed_core.specs.Valid.{ActionHasWidth, HostHasWidth, IsPort, TableHasWidth};
ghost use Rattle.typed_core.specs.Widths.{HaveWidths};
ghost use Rattle.typed_core.specs.declared.access.Event.{Event};
ghost use Rattle.one_rule.specs.Answers.{declarations_of, environment_of};
ghost use Rattle.one_rule.specs.inner.Parts.{AreOperands, AreReady, HasBody, HasOperand, Leaves, LeavesValue, OnTrue, bind};

use super::{Environment, Interrupt, Outside, Ports};
use kw_bits::Bits;
use typed_core::{Action, OneOp, Scope, Stopped, TwoOp};

/// How a part of a rule's body ends.
#[derive(Clone, Copy, Debug, PartialEq, Eq)]
pub(super) enum End {
    /// It has no value.
    Unit,
    /// Its value is in the slot.
    Value,
    /// What interrupts it is in the slot.
    Interrupt,
}

/// Where the parts of a body leave their values, one after another, and at last what interrupts them: so a call
/// answers a word, and no value is copied from call to call.
#[derive(Clone, Copy, Debug, PartialEq, Eq)]
pub(super) struct Slot {
    pub(super) value: Bits,
    pub(super) interrupt: Interrupt,
}

/// What an action evaluates to. It is left in the slot.
#[cycle(run)]
pub(super) fn run<E: Outside, P: Ports>(
    env: &Environment<E>,
    ports: &mut P,
    action: &Action,
    locals: &Scope<Bits>,
    slot: &mut Slot,
) -> End
    requires fits { EnvironmentFits (declarations_of env.now) (environment_of E.kept env.now) }
    requires ports { AreReady (declarations_of env.now) (P.widths ports.old) (P.reading ports.old) (P.stands_for ports.old) }
    requires ready { CanEvaluate (declarations_of env.now) action.now locals.now }
    ensures leaves { (events : List Event) → P.stands_for ports.old events
        → Leaves (P.stands_for ports.new) result slot.new (core.evaluate (environment_of E.kept env.now) (P.reading ports.old) action.now locals.now events) }
    ensures reading { P.reading ports.new ≡ P.reading ports.old }
    ensures widths { P.widths ports.new ≡ P.widths ports.old }
{
    match action {
        Action::Unit => End::Unit,
        Action::Const(value) => {
            slot.value = *value;
            End::Value
        }
        Action::Local(name) => local(*name, locals, slot),
        Action::Input(input) => {
            slot.value = *env.inputs.get(*input as usize);
            End::Value
        }
        Action::One(operator, a) => unary(env, ports, *operator, a, locals, slot),
        Action::Two(operator, a, b) => binary(env, ports, *operator, (a, b), locals, slot),
        Action::Slice(a, upper, lower) => slice(env, ports, a, (*upper, *lower), locals, slot),
        Action::Zext(a, width) => zext(env, ports, a, *width, locals, slot),
        Action::Sext(a, width) => sext(env, ports, a, *width, locals, slot),
        Action::Table(table, a) => look(env, ports, *table, a, locals, slot),
        Action::Host(host, a) => ask(env, ports, *host, a, locals, slot),
        Action::Let(value, body) => bound(env, ports, value, body, locals, slot),
        Action::If(condition, first, second) => chosen(
            env,
            ports,
            condition,
            (first, second),
            locals,
            slot,
        ),
        Action::Seq(first, second) => in_turn(env, ports, first, second, locals, slot),
        Action::Read(port, register) => {
            if read(ports, *port, *register, slot) {
                End::Value
            } else {
                End::Interrupt
            }
        }
        Action::Write(port, register, a) => write(env, ports, (*port, *register), a, locals, slot),
        Action::Abort => {
            slot.interrupt = Interrupt::Stop(Stopped::Abort);
            End::Interrupt
        }
    }
}

// The value of an action that has one, or whether it is interrupted.
#[cycle(run)]
fn operand<E: Outside, P: Ports>(
    env: &Environment<E>,
    ports: &mut P,
    action: &Action,
    locals: &Scope<Bits>,
    slot: &mut Slot,
) -> bool
    requires fits { EnvironmentFits (declarations_of env.now) (environment_of E.kept env.now) }
    requires ports { AreReady (declarations_of env.now) (P.widths ports.old) (P.reading ports.old) (P.stands_for ports.old) }
    requires ready { CanBeOperand (declarations_of env.now) action.now locals.now }
    ensures leaves { (events : List Event) → P.stands_for ports.old events
        → LeavesValue (P.stands_for ports.new) result slot.new (core.evaluate (environment_of E.kept env.now) (P.reading ports.old) action.now locals.now events) }
    ensures ports { OnTrue result (AreReady (declarations_of env.now) (P.widths ports.new) (P.reading ports.new) (P.stands_for ports.new)) }
    ensures value { OnTrue result ((widths : List ℕ) (width : ℕ) → HaveWidths widths locals.now → ActionHasWidth (declarations_of env.now) action.now widths width → 1 ≤ width → HasWidth slot.new.value width) }
    ensures reading { P.reading ports.new ≡ P.reading ports.old }
    ensures widths { P.widths ports.new ≡ P.widths ports.old }
{
    match action {
        Action::Const(value) => {
            slot.value = *value;
            true
        }
        Action::Input(input) => {
            slot.value = *env.inputs.get(*input as usize);
            true
        }
        Action::Read(port, register) => read(ports, *port, *register, slot),
        _ => match run(env, ports, action, locals, slot) {
            End::Value => true,
            End::Interrupt => false,
            End::Unit => unreachable!(),
        },
    }
}

// The value of a name.
fn local(name: u32, locals: &Scope<Bits>, slot: &mut Slot) -> End
    requires { name < length locals.now }
    ensures end { result ≡ End.Value }
    ensures value { slot.new.value ≡ slice_index_or locals.now name core.unit }
{
    match locals.get(name) {
        Some(value) => {
            slot.value = value;
            End::Value
        }
        None => unreachable!(),
    }
}

// An operator with one operand.
#[cycle(run)]
fn unary<E: Outside, P: Ports>(
    env: &Environment<E>,
    ports: &mut P,
    operator: OneOp,
    a: &Action,
    locals: &Scope<Bits>,
    slot: &mut Slot,
) -> End
    requires fits { EnvironmentFits (declarations_of env.now) (environment_of E.kept env.now) }
    requires ports { AreReady (declarations_of env.now) (P.widths ports.old) (P.reading ports.old) (P.stands_for ports.old) }
    requires ready { CanBeOperand (declarations_of env.now) a.now locals.now }
    ensures leaves { (events : List Event) → P.stands_for ports.old events
        → Leaves (P.stands_for ports.new) result slot.new (bind (core.evaluate (environment_of E.kept env.now) (P.reading ports.old) a.now locals.now) (λ x. core.comes_to (core.apply_one operator x)) events) }
    ensures reading { P.reading ports.new ≡ P.reading ports.old }
    ensures widths { P.widths ports.new ≡ P.widths ports.old }
{
    if !operand(env, ports, a, locals, slot) {
        return End::Interrupt;
    }
    slot.value = operator.apply(slot.value);
    End::Value
}

// An operator with two operands.
#[cycle(run)]
fn binary<E: Outside, P: Ports>(
    env: &Environment<E>,
    ports: &mut P,
    operator: TwoOp,
    operands: (&Action, &Action),
    locals: &Scope<Bits>,
    slot: &mut Slot,
) -> End
    requires fits { EnvironmentFits (declarations_of env.now) (environment_of E.kept env.now) }
    requires ports { AreReady (declarations_of env.now) (P.widths ports.old) (P.reading ports.old) (P.stands_for ports.old) }
    requires ready { AreOperands (declarations_of env.now) operator operands.0.now operands.1.now locals.now }
    ensures leaves { (events : List Event) → P.stands_for ports.old events
        → Leaves (P.stands_for ports.new) result slot.new (bind (core.evaluate (environment_of E.kept env.now) (P.reading ports.old) operands.entry.0.now locals.now) (λ x. bind (core.evaluate (environment_of E.kept env.now) (P.reading ports.old) operands.entry.1.now locals.now) (λ y. core.comes_to (core.apply_two operator x y))) events) }
    ensures reading { P.reading ports.new ≡ P.reading ports.old }
    ensures widths { P.widths ports.new ≡ P.widths ports.old }
{
    let (a, b) = operands;
    if !operand(env, ports, a, locals, slot) {
        return End::Interrupt;
    }
    let x = slot.value;
    if !operand(env, ports, b, locals, slot) {
        return End::Interrupt;
    }
    slot.value = operator.apply(&x, &slot.value);
    End::Value
}

// Some of the bits of an operand: from the lower to the upper bound, which comes first.
#[cycle(run)]
fn slice<E: Outside, P: Ports>(
    env: &Environment<E>,
    ports: &mut P,
    a: &Action,
    bounds: (u32, u32),
    locals: &Scope<Bits>,
    slot: &mut Slot,
) -> End
    requires fits { EnvironmentFits (declarations_of env.now) (environment_of E.kept env.now) }
    requires ports { AreReady (declarations_of env.now) (P.widths ports.old) (P.reading ports.old) (P.stands_for ports.old) }
    requires ready { HasOperand (declarations_of env.now) a.now locals.now (λ width. (bounds.1 ≤ bounds.0) × (bounds.0 < width)) }
    ensures leaves { (events : List Event) → P.stands_for ports.old events
        → Leaves (P.stands_for ports.new) result slot.new (bind (core.evaluate (environment_of E.kept env.now) (P.reading ports.old) a.now locals.now) (λ x. core.comes_to (op.slice x bounds.0 bounds.1)) events) }
    ensures reading { P.reading ports.new ≡ P.reading ports.old }
    ensures widths { P.widths ports.new ≡ P.widths ports.old }
{
    if !operand(env, ports, a, locals, slot) {
        return End::Interrupt;
    }
    let (upper, lower) = bounds;
    slot.value = slot.value.slice(upper, lower);
    End::Value
}

// An operand with zeros above.
#[cycle(run)]
fn zext<E: Outside, P: Ports>(
    env: &Environment<E>,
    ports: &mut P,
    a: &Action,
    width: u32,
    locals: &Scope<Bits>,
    slot: &mut Slot,
) -> End
    requires fits { EnvironmentFits (declarations_of env.now) (environment_of E.kept env.now) }
    requires ports { AreReady (declarations_of env.now) (P.widths ports.old) (P.reading ports.old) (P.stands_for ports.old) }
    requires ready { HasOperand (declarations_of env.now) a.now locals.now (λ from. (from ≤ width) × (width ≤ 128)) }
    ensures leaves { (events : List Event) → P.stands_for ports.old events
        → Leaves (P.stands_for ports.new) result slot.new (bind (core.evaluate (environment_of E.kept env.now) (P.reading ports.old) a.now locals.now) (λ x. core.comes_to (op.zext x width)) events) }
    ensures reading { P.reading ports.new ≡ P.reading ports.old }
    ensures widths { P.widths ports.new ≡ P.widths ports.old }
{
    if !operand(env, ports, a, locals, slot) {
        return End::Interrupt;
    }
    slot.value = slot.value.zext(width);
    End::Value
}

// An operand with its highest bit above.
#[cycle(run)]
fn sext<E: Outside, P: Ports>(
    env: &Environment<E>,
    ports: &mut P,
    a: &Action,
    width: u32,
    locals: &Scope<Bits>,
    slot: &mut Slot,
) -> End
    requires fits { EnvironmentFits (declarations_of env.now) (environment_of E.kept env.now) }
    requires ports { AreReady (declarations_of env.now) (P.widths ports.old) (P.reading ports.old) (P.stands_for ports.old) }
    requires ready { HasOperand (declarations_of env.now) a.now locals.now (λ from. (from ≤ width) × (width ≤ 128)) }
    ensures leaves { (events : List Event) → P.stands_for ports.old events
        → Leaves (P.stands_for ports.new) result slot.new (bind (core.evaluate (environment_of E.kept env.now) (P.reading ports.old) a.now locals.now) (λ x. core.comes_to (op.sext x width)) events) }
    ensures reading { P.reading ports.new ≡ P.reading ports.old }
    ensures widths { P.widths ports.new ≡ P.widths ports.old }
{
    if !operand(env, ports, a, locals, slot) {
        return End::Interrupt;
    }
    slot.value = slot.value.sext(width);
    End::Value
}

// The entry of a table.
#[cycle(run)]
fn look<E: Outside, P: Ports>(
    env: &Environment<E>,
    ports: &mut P,
    table: u32,
    a: &Action,
    locals: &Scope<Bits>,
    slot: &mut Slot,
) -> End
    requires fits { EnvironmentFits (declarations_of env.now) (environment_of E.kept env.now) }
    requires ports { AreReady (declarations_of env.now) (P.widths ports.old) (P.reading ports.old) (P.stands_for ports.old) }
    requires ready { HasOperand (declarations_of env.now) a.now locals.now (λ width. (out : ℕ) × TableHasWidth (declarations_of env.now).externs.tables table width out) }
    ensures leaves { (events : List Event) → P.stands_for ports.old events
        → Leaves (P.stands_for ports.new) result slot.new (bind (core.evaluate (environment_of E.kept env.now) (P.reading ports.old) a.now locals.now) (λ x. core.comes_to (core.entry_of (slice_get (E.kept env.now.externs.now).tables table) x)) events) }
    ensures reading { P.reading ports.new ≡ P.reading ports.old }
    ensures widths { P.widths ports.new ≡ P.widths ports.old }
{
    if !operand(env, ports, a, locals, slot) {
        return End::Interrupt;
    }
    slot.value = env.externs.look(table, slot.value);
    End::Value
}

// The answer of a host function.
#[cycle(run)]
fn ask<E: Outside, P: Ports>(
    env: &Environment<E>,
    ports: &mut P,
    host: u32,
    a: &Action,
    locals: &Scope<Bits>,
    slot: &mut Slot,
) -> End
    requires fits { EnvironmentFits (declarations_of env.now) (environment_of E.kept env.now) }
    requires ports { AreReady (declarations_of env.now) (P.widths ports.old) (P.reading ports.old) (P.stands_for ports.old) }
    requires ready { HasOperand (declarations_of env.now) a.now locals.now (λ width. (out : ℕ) × HostHasWidth (declarations_of env.now).externs.hosts host width out) }
    ensures leaves { (events : List Event) → P.stands_for ports.old events
        → Leaves (P.stands_for ports.new) result slot.new (bind (core.evaluate (environment_of E.kept env.now) (P.reading ports.old) a.now locals.now) (λ x. core.comes_to (core.answer_of (slice_get (E.kept env.now.externs.now).hosts host) x)) events) }
    ensures reading { P.reading ports.new ≡ P.reading ports.old }
    ensures widths { P.widths ports.new ≡ P.widths ports.old }
{
    if !operand(env, ports, a, locals, slot) {
        return End::Interrupt;
    }
    slot.value = env.externs.ask(host, slot.value);
    End::Value
}

// A body in which a name stands for a value.
#[cycle(run)]
fn bound<E: Outside, P: Ports>(
    env: &Environment<E>,
    ports: &mut P,
    a: &Action,
    body: &Action,
    locals: &Scope<Bits>,
    slot: &mut Slot,
) -> End
    requires fits { EnvironmentFits (declarations_of env.now) (environment_of E.kept env.now) }
    requires ports { AreReady (declarations_of env.now) (P.widths ports.old) (P.reading ports.old) (P.stands_for ports.old) }
    requires ready { HasBody (declarations_of env.now) a.now body.now locals.now }
    ensures leaves { (events : List Event) → P.stands_for ports.old events
        → Leaves (P.stands_for ports.new) result slot.new (bind (core.evaluate (environment_of E.kept env.now) (P.reading ports.old) a.now locals.now) (λ x. core.evaluate (environment_of E.kept env.now) (P.reading ports.old) body.now (x ∷ locals.now)) events) }
    ensures reading { P.reading ports.new ≡ P.reading ports.old }
    ensures widths { P.widths ports.new ≡ P.widths ports.old }
{
    if !operand(env, ports, a, locals, slot) {
        return End::Interrupt;
    }
    let inner = Scope::bind(slot.value, &*locals);
    run(env, ports, body, &inner, slot)
}

// The first arm where the condition is 1, the second where it is 0.
#[cycle(run)]
fn chosen<E: Outside, P: Ports>(
    env: &Environment<E>,
    ports: &mut P,
    a: &Action,
    arms: (&Action, &Action),
    locals: &Scope<Bits>,
    slot: &mut Slot,
) -> End
    requires fits { EnvironmentFits (declarations_of env.now) (environment_of E.kept env.now) }
    requires ports { AreReady (declarations_of env.now) (P.widths ports.old) (P.reading ports.old) (P.stands_for ports.old) }
    requires condition { CanBeOperand (declarations_of env.now) a.now locals.now }
    requires first { CanEvaluate (declarations_of env.now) arms.0.now locals.now }
    requires second { CanEvaluate (declarations_of env.now) arms.1.now locals.now }
    ensures leaves { (events : List Event) → P.stands_for ports.old events
        → Leaves (P.stands_for ports.new) result slot.new (bind (core.evaluate (environment_of E.kept env.now) (P.reading ports.old) a.now locals.now) (λ x. core.choose x (core.evaluate (environment_of E.kept env.now) (P.reading ports.old) arms.entry.0.now locals.now) (core.evaluate (environment_of E.kept env.now) (P.reading ports.old) arms.entry.1.now locals.now)) events) }
    ensures reading { P.reading ports.new ≡ P.reading ports.old }
    ensures widths { P.widths ports.new ≡ P.widths ports.old }
{
    if !operand(env, ports, a, locals, slot) {
        return End::Interrupt;
    }
    let (first, second) = arms;
    if slot.value.number() == 0 {
        run(env, ports, second, locals, slot)
    } else {
        run(env, ports, first, locals, slot)
    }
}

// One action after another.
#[cycle(run)]
fn in_turn<E: Outside, P: Ports>(
    env: &Environment<E>,
    ports: &mut P,
    first: &Action,
    second: &Action,
    locals: &Scope<Bits>,
    slot: &mut Slot,
) -> End
    requires fits { EnvironmentFits (declarations_of env.now) (environment_of E.kept env.now) }
    requires ports { AreReady (declarations_of env.now) (P.widths ports.old) (P.reading ports.old) (P.stands_for ports.old) }
    requires first { CanEvaluate (declarations_of env.now) first.now locals.now }
    requires second { CanEvaluate (declarations_of env.now) second.now locals.now }
    ensures leaves { (events : List Event) → P.stands_for ports.old events
        → Leaves (P.stands_for ports.new) result slot.new (bind (core.evaluate (environment_of E.kept env.now) (P.reading ports.old) first.now locals.now) (λ _. core.evaluate (environment_of E.kept env.now) (P.reading ports.old) second.now locals.now) events) }
    ensures reading { P.reading ports.new ≡ P.reading ports.old }
    ensures widths { P.widths ports.new ≡ P.widths ports.old }
{
    match run(env, ports, first, locals, slot) {
        End::Interrupt => End::Interrupt,
        End::Unit | End::Value => run(env, ports, second, locals, slot),
    }
}

// A read of a register, or whether it is interrupted.
fn read<P: Ports>(ports: &mut P, port: u32, register: u32, slot: &mut Slot) -> bool
    requires port { IsPort port }
    requires register { register < length (P.widths ports.old) }
    ensures leaves { (events : List Event) → P.stands_for ports.old events
        → LeavesValue (P.stands_for ports.new) result slot.new ((P.reading ports.old).read port register events) }
    ensures reading { P.reading ports.new ≡ P.reading ports.old }
    ensures widths { P.widths ports.new ≡ P.widths ports.old }
{
    match ports.read(port, register) {
        Ok(value) => {
            slot.value = value;
            true
        }
        Err(interrupt) => {
            slot.interrupt = interrupt;
            false
        }
    }
}

// A write of a value to a register at a port, which comes first.
#[cycle(run)]
fn write<E: Outside, P: Ports>(
    env: &Environment<E>,
    ports: &mut P,
    place: (u32, u32),
    a: &Action,
    locals: &Scope<Bits>,
    slot: &mut Slot,
) -> End
    requires fits { EnvironmentFits (declarations_of env.now) (environment_of E.kept env.now) }
    requires ports { AreReady (declarations_of env.now) (P.widths ports.old) (P.reading ports.old) (P.stands_for ports.old) }
    requires port { IsPort place.0 }
    requires ready { HasOperand (declarations_of env.now) a.now locals.now (λ width. slice_get (declarations_of env.now).regs place.1 ≡ Some width) }
    ensures leaves { (events : List Event) → P.stands_for ports.old events
        → Leaves (P.stands_for ports.new) result slot.new (bind (core.evaluate (environment_of E.kept env.now) (P.reading ports.old) a.now locals.now) (λ value. (P.reading ports.old).write place.0 place.1 value) events) }
    ensures reading { P.reading ports.new ≡ P.reading ports.old }
    ensures widths { P.widths ports.new ≡ P.widths ports.old }
{
    if !operand(env, ports, a, locals, slot) {
        return End::Interrupt;
    }
    let (port, register) = place;
    match ports.write(port, register, slot.value) {
        Ok(()) => End::Unit,
        Err(interrupt) => {
            slot.interrupt = interrupt;
            End::Interrupt
        }
    }
}
