//! Circuits: tables and host functions as trees of choices.

// What a table or a host function answers, as a balanced tree of choices by the bits of its input.
ghost use Rattle.std.specs.Prelude.{◌≡◌, ◌+◌, ◌*◌, ◌/◌, ◌^◌, ◌<◌, ◌≤◌, ℕ, List, IfOk, All};
ghost use Rattle.typed_core.specs.Valid.{IsHost, IsTable};
ghost use Rattle.net_action.specs.Gates.{Grows, HasValue};
ghost use Rattle.net_action.specs.inner.Parts.{answer_to, AskedHasWidth};
ghost use Rattle.net_action.specs.Wires.{AreValues, HasWire};
ghost use Rattle.kw_bits.specs.BitVector.{BitVector};
ghost use Rattle.net_graph.specs.Values.{Sources, value_at};

use crate::gates::{choice, constant};
use crate::operators::slice;
use kw_bits::{Bits, NoMemory};
use net_graph::{Net, NetId};
use one_rule::Outside;

/// A table or a host function, by its number.
#[derive(Clone, Copy)]
pub(crate) enum Asked {
    Table(u32),
    Host(u32),
}

// A table or a host function, and where its answers are found.
#[derive(Drop)]
struct Question<'a, E> {
    externs: &'a E,
    asked: Asked,
}

// What it answers.
fn answer_to<E: Outside>(externs: &E, asked: Asked, x: Bits) -> Bits
    requires { (width : ℕ) × AskedHasWidth (E.kept externs.now) asked x.width width }
    ensures { result ≡ answer_to (E.kept externs.now) asked x }
{
    match asked {
        Asked::Table(table) => externs.look(table, x),
        Asked::Host(host) => externs.ask(host, x),
    }
}

/// A wire with the answer to a wire.
pub(crate) fn answer<E: Outside>(
    externs: &E,
    net: &mut Net,
    asked: Asked,
    x: NetId,
) -> Result<NetId, NoMemory>
    requires tables { All IsTable (E.kept externs.now).tables }
    requires hosts { All IsHost (E.kept externs.now).hosts }
    requires asked { (operand width : ℕ) × HasWire net.old x operand × AskedHasWidth (E.kept externs.now) asked operand width }
    ensures grows { (inputs : List ℕ) → Grows inputs net.old net.new }
    ensures wire { IfOk result (λ id. (operand width : ℕ) → HasWire net.old x operand → AskedHasWidth (E.kept externs.now) asked operand width → HasWire net.new id width) }
    ensures value { IfOk result (HasValue net.new (λ values. answer_to (E.kept externs.now) asked (value_at values x))) }
{
    let width = net.width(x);
    let question = Question { externs, asked };
    let wire = tree(&question, net, x, width, width, 0)?;
    Ok(wire)
}

// A wire with the answer to a wire whose bits from `level` on are the number `high`.
fn tree<E: Outside>(
    question: &Question<E>,
    net: &mut Net,
    x: NetId,
    width: u32,
    level: u32,
    high: u32,
) -> Result<NetId, NoMemory>
    requires tables { All IsTable (E.kept question.now.externs.now).tables }
    requires hosts { All IsHost (E.kept question.now.externs.now).hosts }
    requires asked { (out : ℕ) × AskedHasWidth (E.kept question.now.externs.now) question.now.asked width out }
    requires wire { HasWire net.old x width }
    requires few { width ≤ 12 }
    requires high { (high + 1) * 2 ^ level ≤ 2 ^ width }
    requires level { level ≤ width }
    ensures grows { (inputs : List ℕ) → Grows inputs net.old net.new }
    ensures wire { IfOk result (λ id. (out : ℕ) → AskedHasWidth (E.kept question.now.externs.now) question.now.asked width out → HasWire net.new id out) }
    ensures value { IfOk result (λ id. (s : Sources) (values : List BitVector) → AreValues s net.new values → (value_at values x).number / 2 ^ level ≡ high
        → value_at values id ≡ answer_to (E.kept question.now.externs.now) question.now.asked (value_at values x)) }
{
    if level == 0 {
        let wire = leaf(question, net, width, high)?;
        return Ok(wire);
    }
    let below = level - 1;
    let where_0 = tree(question, net, x, width, below, 2 * high)?;
    let where_1 = tree(question, net, x, width, below, 2 * high + 1)?;
    let bit = slice(net, x, below, below)?;
    let wire = choice(net, bit, where_1, where_0)?;
    Ok(wire)
}

// A wire with the answer to one number.
fn leaf<E: Outside>(
    question: &Question<E>,
    net: &mut Net,
    width: u32,
    number: u32,
) -> Result<NetId, NoMemory>
    requires tables { All IsTable (E.kept question.now.externs.now).tables }
    requires hosts { All IsHost (E.kept question.now.externs.now).hosts }
    requires asked { (out : ℕ) × AskedHasWidth (E.kept question.now.externs.now) question.now.asked width out }
    requires some { 1 ≤ width }
    requires few { width ≤ 12 }
    requires within { number < 2 ^ width }
    ensures grows { (inputs : List ℕ) → Grows inputs net.old net.new }
    ensures wire { IfOk result (λ id. (out : ℕ) → AskedHasWidth (E.kept question.now.externs.now) question.now.asked width out → HasWire net.new id out) }
    ensures value { IfOk result (HasValue net.new (λ values. answer_to (E.kept question.now.externs.now) question.now.asked (record { width = width; number = number }))) }
{
    let x = bits(width, number);
    let wire = constant(net, answer_to(question.externs, question.asked, x))?;
    Ok(wire)
}

// A number at a width.
fn bits(width: u32, number: u32) -> Bits
    requires some { 1 ≤ width }
    requires few { width ≤ 12 }
    requires within { number < 2 ^ width }
    ensures { result ≡ record { width = width; number = number } }
{
    Bits::new(width, number as u128).unwrap()
}
