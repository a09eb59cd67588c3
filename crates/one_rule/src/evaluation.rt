//! Engines: the evaluator of actions at any ports.

ghost use Rattle.std.specs.Prelude.{◌≡◌, ◌<◌, ℕ, List, length, slice_get, Some};
ghost use Rattle.kw_bits.specs.BitVector.{BitVector};
ghost use Rattle.typed_core.specs.Evaluation as core;
ghost use Rattle.typed_core.specs.Fits.{CanEvaluate, EnvironmentFits, EventsFit, PortsFit};
ghost use Rattle.typed_core.specs.Valid.{HostHasWidth, IsPort, TableHasWidth};
ghost use Rattle.typed_core.specs.declared.access.Event.{Event};
ghost use Rattle.typed_core.specs.declared.outcome.Stopped.{Stopped};
ghost use Rattle.typed_core.specs.declared.outcome.Stopped.TheVariants.{Abort};
ghost use Rattle.one_rule.specs.Answers.{Answers, declarations_of, environment_of, value_of};

mod part;

use self::part::{End, Slot, run};
use crate::rows::Inputs;
use kw_bits::{Bits, NoMemory};
use typed_core::{Action, Design, Scope, Stopped};

/// What keeps a part of a rule's body from coming to a value.
#[derive(Clone, Copy, Debug, PartialEq, Eq)]
pub enum Interrupt {
    /// The ports ran out of memory.
    NoMemory,
    /// The rule stops.
    Stop(Stopped),
}

impl From<NoMemory> for Interrupt {
    ghost use Rattle.one_rule.specs.declared.evaluation.Interrupt.TheVariants as interrupt;

    ghost from_gives = { λ _ given. given ≡ interrupt.NoMemory };

    fn from(_: NoMemory) -> Interrupt {
        Interrupt::NoMemory
    }
}

/// What rules ask of the outside: the entries of tables and the answers of host functions.
pub trait Outside {
    ghost kept: { Self → core.Externs };

    /// The entry of the table of this number.
    fn look(&self, table: u32, x: Bits) -> Bits
        requires { (width : ℕ) × TableHasWidth (kept self.now).tables table x.width width }
        ensures { result ≡ core.entry_of (slice_get (kept self.now).tables table) x };

    /// What the host function of this number answers.
    fn ask(&self, host: u32, x: Bits) -> Bits
        requires { (width : ℕ) × HostHasWidth (kept self.now).hosts host x.width width }
        ensures { result ≡ core.answer_of (slice_get (kept self.now).hosts host) x };
}

/// What a rule's body is evaluated in.
#[derive(Drop)]
pub struct Environment<'a, E> {
    pub design: &'a Design,
    pub externs: &'a E,
    pub inputs: &'a Inputs,
}

/// How the reads and writes of a rule are answered. It stands for the events so far, each of which is noted as it is
/// made.
pub trait Ports {
    ghost stands_for: { Self → List Event → Type 0 };

    // what a read and a write do
    ghost reading: { Self → core.Ports Stopped };

    // the widths of the registers
    ghost widths: { Self → List ℕ };

    /// Reads a register at a port.
    fn read(&mut self, port: u32, register: u32) -> Result<Bits, Interrupt>
        requires port { IsPort port }
        requires register { register < length (widths self.old) }
        ensures answers { (events : List Event) → stands_for self.old events
            → Answers (λ (value : BitVector). value) (stands_for self.new) result ((reading self.old).read port register events) }
        ensures reading { reading self.new ≡ reading self.old }
        ensures widths { widths self.new ≡ widths self.old };

    /// Writes a register at a port.
    fn write(&mut self, port: u32, register: u32, value: Bits) -> Result<(), Interrupt>
        requires port { IsPort port }
        requires width { slice_get (widths self.old) register ≡ Some value.width }
        ensures answers { (events : List Event) → stands_for self.old events
            → Answers (λ _. core.unit) (stands_for self.new) result ((reading self.old).write port register value events) }
        ensures reading { reading self.new ≡ reading self.old }
        ensures widths { widths self.new ≡ widths self.old };
}

/// What an action evaluates to, with these values of the names that are bound round it: parts from left to right, a
/// write's value before the write, and of an `If` one arm. It takes no memory itself.
pub fn evaluate<E: Outside, P: Ports>(
    env: &Environment<E>,
    ports: &mut P,
    action: &Action,
    locals: &Scope<Bits>,
) -> Result<Option<Bits>, Interrupt>
    requires fits { EnvironmentFits (declarations_of env.now) (environment_of E.kept env.now) }
    requires registers { P.widths ports.old ≡ (declarations_of env.now).regs }
    requires reading { PortsFit (P.widths ports.old) (P.reading ports.old) }
    requires abort { (P.reading ports.old).abort ≡ Abort }
    requires ready { CanEvaluate (declarations_of env.now) action.now locals.now }
    requires events { (events : List Event) × P.stands_for ports.old events × EventsFit (P.widths ports.old) events }
    ensures answers { (events : List Event) → P.stands_for ports.old events
        → Answers value_of (P.stands_for ports.new) result (core.evaluate (environment_of E.kept env.now) (P.reading ports.old) action.now locals.now events) }
    ensures reading { P.reading ports.new ≡ P.reading ports.old }
    ensures widths { P.widths ports.new ≡ P.widths ports.old }
{
    let mut slot = Slot {
        value: Bits::zero(1),
        interrupt: Interrupt::NoMemory,
    };
    match run(env, ports, action, locals, &mut slot) {
        End::Unit => Ok(None),
        End::Value => Ok(Some(slot.value)),
        End::Interrupt => Err(slot.interrupt),
    }
}
