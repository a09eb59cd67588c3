//! Circuits: the parts of a rule's body as wires.

// The parts of a rule's body as wires.
ghost use Rattle.std.specs.Prelude.{◌≡◌, ℕ, List, IfOk, None, Some, if◌then◌else◌};
ghost use Rattle.kw_bits.specs.BitVector.{BitVector};
ghost use Rattle.net_graph.specs.Values.{Sources};
ghost use Rattle.typed_core.specs.Valid.{ActionHasWidth, IsValid, declarations, externs_of};
ghost use Rattle.typed_core.specs.Widths.{input_widths, register_widths};
ghost use Rattle.net_action.specs.Gates.{Grows};
ghost use Rattle.net_action.specs.inner.Parts.{BinaryHasWidth, CanBe, CanBeOperand, IfHasWidth, IsMade, IsPart, IsRunning, LetHasWidth, SequenceHasWidth, UnaryHasWidth, WireFits, WriteHasWidth, binary_of, if_of, let_of, sequence_of, unary_of, wire_value, write_of};
ghost use Rattle.net_action.specs.Wires.{ArePortWires, AreValues, HasWire, is_up};

use crate::gates::{both, both_not, choice, constant, either};
use crate::lookup::Asked;
use crate::operation::{Operation, apply};
use crate::operators::{input_wire, two};
use crate::ports::{RegisterPort, read, write};
use crate::wires::{PortWires, RuleNet};
use kw_bits::{Bits, NoMemory};
use net_graph::{Net, NetId};
use one_rule::Outside;
use typed_core::{Action, Design, Scope, TwoOp};

/// What an action is made wires in.
#[derive(Drop)]
pub(crate) struct Context<'a, E> {
    pub(crate) design: &'a Design,
    pub(crate) externs: &'a E,
    pub(crate) ports: &'a PortWires,
    /// The wires of the names that are bound round it.
    pub(crate) locals: &'a Scope<'a, NetId>,
}

/// A wire with what an action evaluates to, if it has a value, where the rule still runs and the names that are bound
/// round it have the values of the context's wires.
#[cycle(part)]
pub(crate) fn part<E: Outside>(
    context: &Context<E>,
    net: &mut Net,
    run: &mut RuleNet,
    action: &Action,
) -> Result<Option<NetId>, NoMemory>
    requires valid { IsValid context.now.design.now }
    requires externs { E.kept context.now.externs.now ≡ externs_of context.now.design.now }
    requires ports { ArePortWires net.old (register_widths context.now.design.now) context.now.ports.now }
    requires run { IsRunning net.old (register_widths context.now.design.now) run.old }
    requires ready { CanBe (ActionHasWidth (declarations context.now.design.now) action.now) net.old context.now.locals.now }
    ensures grows { Grows (input_widths context.now.design.now) net.old net.new }
    ensures part { IfOk result (λ wire. IsPart (declarations context.now.design.now) context.now.ports.now net.old run.old action.now context.now.locals.now net.new run.new wire) }
{
    match action {
        Action::Unit => Ok(None),
        Action::Const(value) => {
            let known = constant(net, *value)?;
            Ok(Some(known))
        }
        Action::Local(name) => Ok(context.locals.get(*name)),
        Action::Input(input) => {
            let given = input_wire(net, context.design, *input)?;
            Ok(Some(given))
        }
        Action::One(operator, a) => { unary(context, net, run, Operation::One(*operator), a) }
        Action::Two(operator, a, b) => binary(context, net, run, *operator, a, b),
        Action::Slice(a, upper, lower) => unary(
            context,
            net,
            run,
            Operation::Slice(*upper, *lower),
            a,
        ),
        Action::Zext(a, width) => unary(context, net, run, Operation::Zext(*width), a),
        Action::Sext(a, width) => unary(context, net, run, Operation::Sext(*width), a),
        Action::Table(table, a) => {
            let asked = Asked::Table(*table);
            unary(context, net, run, Operation::Ask(asked), a)
        }
        Action::Host(host, a) => {
            let asked = Asked::Host(*host);
            unary(context, net, run, Operation::Ask(asked), a)
        }
        Action::Let(value, body) => bound(context, net, run, value, body),
        Action::If(condition, first, second) => {
            conditional(context, net, run, condition, first, second)
        }
        Action::Seq(first, second) => sequence(context, net, run, first, second),
        Action::Read(port, register) => {
            let seen = read(context.design, context.ports, net, run, *port, *register)?;
            Ok(Some(seen))
        }
        Action::Write(port, register, a) => { written(context, net, run, *port, *register, a) }
        Action::Abort => {
            let never = constant(net, Bits::zero(1))?;
            run.fires = never;
            Ok(None)
        }
    }
}

// A wire with the value of an action that has one.
#[cycle(part)]
fn operand<E: Outside>(
    context: &Context<E>,
    net: &mut Net,
    run: &mut RuleNet,
    action: &Action,
) -> Result<NetId, NoMemory>
    requires valid { IsValid context.now.design.now }
    requires externs { E.kept context.now.externs.now ≡ externs_of context.now.design.now }
    requires ports { ArePortWires net.old (register_widths context.now.design.now) context.now.ports.now }
    requires run { IsRunning net.old (register_widths context.now.design.now) run.old }
    requires ready { CanBeOperand (declarations context.now.design.now) net.old action.now context.now.locals.now }
    ensures grows { Grows (input_widths context.now.design.now) net.old net.new }
    ensures part { IfOk result (λ wire. IsPart (declarations context.now.design.now) context.now.ports.now net.old run.old action.now context.now.locals.now net.new run.new (Some wire)) }
{
    let wire = part(context, net, run, action)?;
    match wire {
        Some(id) => Ok(id),
        None => unreachable!(),
    }
}

// An operation on an operand.
#[cycle(part)]
fn unary<E: Outside>(
    context: &Context<E>,
    net: &mut Net,
    run: &mut RuleNet,
    operation: Operation,
    a: &Action,
) -> Result<Option<NetId>, NoMemory>
    requires valid { IsValid context.now.design.now }
    requires externs { E.kept context.now.externs.now ≡ externs_of context.now.design.now }
    requires ports { ArePortWires net.old (register_widths context.now.design.now) context.now.ports.now }
    requires run { IsRunning net.old (register_widths context.now.design.now) run.old }
    requires ready { CanBe (UnaryHasWidth (declarations context.now.design.now) operation a.now) net.old context.now.locals.now }
    ensures grows { Grows (input_widths context.now.design.now) net.old net.new }
    ensures part { IfOk result (λ wire. IsMade (declarations context.now.design.now) context.now.ports.now net.old run.old (UnaryHasWidth (declarations context.now.design.now) operation a.now) (unary_of operation a.now) context.now.locals.now net.new run.new wire) }
{
    let x = operand(context, net, run, a)?;
    let wire = apply(context.design, context.externs, net, operation, x)?;
    Ok(Some(wire))
}

// An operator on two operands.
#[cycle(part)]
fn binary<E: Outside>(
    context: &Context<E>,
    net: &mut Net,
    run: &mut RuleNet,
    operator: TwoOp,
    a: &Action,
    b: &Action,
) -> Result<Option<NetId>, NoMemory>
    requires valid { IsValid context.now.design.now }
    requires externs { E.kept context.now.externs.now ≡ externs_of context.now.design.now }
    requires ports { ArePortWires net.old (register_widths context.now.design.now) context.now.ports.now }
    requires run { IsRunning net.old (register_widths context.now.design.now) run.old }
    requires ready { CanBe (BinaryHasWidth (declarations context.now.design.now) operator a.now b.now) net.old context.now.locals.now }
    ensures grows { Grows (input_widths context.now.design.now) net.old net.new }
    ensures part { IfOk result (λ wire. IsMade (declarations context.now.design.now) context.now.ports.now net.old run.old (BinaryHasWidth (declarations context.now.design.now) operator a.now b.now) (binary_of operator a.now b.now) context.now.locals.now net.new run.new wire) }
{
    let x = operand(context, net, run, a)?;
    let y = operand(context, net, run, b)?;
    let wire = two(net, operator, x, y)?;
    Ok(Some(wire))
}

// A body in which a name is bound to a value.
#[cycle(part)]
fn bound<E: Outside>(
    context: &Context<E>,
    net: &mut Net,
    run: &mut RuleNet,
    value: &Action,
    body: &Action,
) -> Result<Option<NetId>, NoMemory>
    requires valid { IsValid context.now.design.now }
    requires externs { E.kept context.now.externs.now ≡ externs_of context.now.design.now }
    requires ports { ArePortWires net.old (register_widths context.now.design.now) context.now.ports.now }
    requires run { IsRunning net.old (register_widths context.now.design.now) run.old }
    requires ready { CanBe (LetHasWidth (declarations context.now.design.now) value.now body.now) net.old context.now.locals.now }
    ensures grows { Grows (input_widths context.now.design.now) net.old net.new }
    ensures part { IfOk result (λ wire. IsMade (declarations context.now.design.now) context.now.ports.now net.old run.old (LetHasWidth (declarations context.now.design.now) value.now body.now) (let_of value.now body.now) context.now.locals.now net.new run.new wire) }
{
    let x = operand(context, net, run, value)?;
    let locals = Scope::bind(x, context.locals);
    let inner = Context {
        design: context.design,
        externs: context.externs,
        ports: context.ports,
        locals: &locals,
    };
    part(&inner, net, run, body)
}

// One action after another.
#[cycle(part)]
fn sequence<E: Outside>(
    context: &Context<E>,
    net: &mut Net,
    run: &mut RuleNet,
    first: &Action,
    second: &Action,
) -> Result<Option<NetId>, NoMemory>
    requires valid { IsValid context.now.design.now }
    requires externs { E.kept context.now.externs.now ≡ externs_of context.now.design.now }
    requires ports { ArePortWires net.old (register_widths context.now.design.now) context.now.ports.now }
    requires run { IsRunning net.old (register_widths context.now.design.now) run.old }
    requires ready { CanBe (SequenceHasWidth (declarations context.now.design.now) first.now second.now) net.old context.now.locals.now }
    ensures grows { Grows (input_widths context.now.design.now) net.old net.new }
    ensures part { IfOk result (λ wire. IsMade (declarations context.now.design.now) context.now.ports.now net.old run.old (SequenceHasWidth (declarations context.now.design.now) first.now second.now) (sequence_of first.now second.now) context.now.locals.now net.new run.new wire) }
{
    let _dropped = part(context, net, run, first)?;
    part(context, net, run, second)
}

// A write of a value.
#[cycle(part)]
fn written<E: Outside>(
    context: &Context<E>,
    net: &mut Net,
    run: &mut RuleNet,
    port: u32,
    register: u32,
    a: &Action,
) -> Result<Option<NetId>, NoMemory>
    requires valid { IsValid context.now.design.now }
    requires externs { E.kept context.now.externs.now ≡ externs_of context.now.design.now }
    requires ports { ArePortWires net.old (register_widths context.now.design.now) context.now.ports.now }
    requires run { IsRunning net.old (register_widths context.now.design.now) run.old }
    requires ready { CanBe (WriteHasWidth (declarations context.now.design.now) port register a.now) net.old context.now.locals.now }
    ensures grows { Grows (input_widths context.now.design.now) net.old net.new }
    ensures part { IfOk result (λ wire. IsMade (declarations context.now.design.now) context.now.ports.now net.old run.old (WriteHasWidth (declarations context.now.design.now) port register a.now) (write_of port register a.now) context.now.locals.now net.new run.new wire) }
{
    let value = operand(context, net, run, a)?;
    let target = RegisterPort { port, register };
    write(context.design, context.ports, net, run, target, value)?;
    Ok(None)
}

// Both arms, of which one is taken.
#[cycle(part)]
fn conditional<E: Outside>(
    context: &Context<E>,
    net: &mut Net,
    run: &mut RuleNet,
    condition: &Action,
    first: &Action,
    second: &Action,
) -> Result<Option<NetId>, NoMemory>
    requires valid { IsValid context.now.design.now }
    requires externs { E.kept context.now.externs.now ≡ externs_of context.now.design.now }
    requires ports { ArePortWires net.old (register_widths context.now.design.now) context.now.ports.now }
    requires run { IsRunning net.old (register_widths context.now.design.now) run.old }
    requires ready { CanBe (IfHasWidth (declarations context.now.design.now) condition.now first.now second.now) net.old context.now.locals.now }
    ensures grows { Grows (input_widths context.now.design.now) net.old net.new }
    ensures part { IfOk result (λ wire. IsMade (declarations context.now.design.now) context.now.ports.now net.old run.old (IfHasWidth (declarations context.now.design.now) condition.now first.now second.now) (if_of condition.now first.now second.now) context.now.locals.now net.new run.new wire) }
{
    let x = operand(context, net, run, condition)?;
    let before = run.fires;
    let taken = both(net, before, x)?;
    run.fires = taken;
    let a = part(context, net, run, first)?;
    let after_first = run.fires;
    let other = both_not(net, before, x)?;
    run.fires = other;
    let b = part(context, net, run, second)?;
    let after = either(net, after_first, run.fires)?;
    run.fires = after;
    let wire = chosen(net, x, a, b)?;
    Ok(wire)
}

// A wire with the value of the arm that is taken, where the arms have values.
fn chosen(
    net: &mut Net,
    condition: NetId,
    first: Option<NetId>,
    second: Option<NetId>,
) -> Result<Option<NetId>, NoMemory>
    requires condition { HasWire net.old condition 1 }
    requires arms { (width : ℕ) × WireFits net.old width first × WireFits net.old width second }
    ensures grows { (inputs : List ℕ) → Grows inputs net.old net.new }
    ensures wire { IfOk result (λ wire. (width : ℕ) → WireFits net.old width first → WireFits net.new width wire) }
    ensures value { IfOk result (λ wire. (s : Sources) (values : List BitVector) → AreValues s net.new values → wire_value values wire ≡ (if is_up values condition then wire_value values first else wire_value values second)) }
{
    match first {
        None => Ok(None),
        Some(a) => match second {
            None => Ok(None),
            Some(b) => {
                let wire = choice(net, condition, a, b)?;
                Ok(Some(wire))
            }
        },
    }
}
