//! Circuits: operations with one operand.

// Operations on one operand.
ghost use Rattle.std.specs.Prelude.{◌≡◌, ℕ, List, IfOk};
ghost use Rattle.net_graph.specs.Values.{value_at};
ghost use Rattle.typed_core.specs.Valid.{IsValid, externs_of};
ghost use Rattle.net_action.specs.Gates.{Grows, HasValue};
ghost use Rattle.net_action.specs.inner.Parts.{AskedHasWidth, OperationHasWidth, answer_to, operation_value};
ghost use Rattle.net_action.specs.Wires.{HasWire};

use crate::lookup::{Asked, answer};
use crate::operators::{one, sext, slice, zext};
use kw_bits::NoMemory;
use net_graph::{Net, NetId};
use one_rule::Outside;
use typed_core::{Design, OneOp};

/// What an action does with one operand.
#[derive(Clone, Copy)]
pub(crate) enum Operation {
    One(OneOp),
    /// The upper bound and the lower.
    Slice(u32, u32),
    Zext(u32),
    Sext(u32),
    Ask(Asked),
}

/// A wire with the value of an operation on a wire.
pub(crate) fn apply<E: Outside>(
    design: &Design,
    externs: &E,
    net: &mut Net,
    operation: Operation,
    x: NetId,
) -> Result<NetId, NoMemory>
    requires valid { IsValid design.now }
    requires externs { E.kept externs.now ≡ externs_of design.now }
    requires operation { (operand width : ℕ) × HasWire net.old x operand × OperationHasWidth (externs_of design.now) operation operand width }
    ensures grows { (inputs : List ℕ) → Grows inputs net.old net.new }
    ensures wire { IfOk result (λ id. (operand width : ℕ) → HasWire net.old x operand → OperationHasWidth (externs_of design.now) operation operand width → HasWire net.new id width) }
    ensures value { IfOk result (HasValue net.new (λ values. operation_value (externs_of design.now) operation (value_at values x))) }
{
    match operation {
        Operation::One(operator) => {
            let wire = one(net, operator, x)?;
            Ok(wire)
        }
        Operation::Slice(upper, lower) => {
            let wire = slice(net, x, upper, lower)?;
            Ok(wire)
        }
        Operation::Zext(to) => {
            let wire = zext(net, x, to)?;
            Ok(wire)
        }
        Operation::Sext(to) => {
            let wire = sext(net, x, to)?;
            Ok(wire)
        }
        Operation::Ask(asked) => {
            let wire = ask(design, externs, net, asked, x)?;
            Ok(wire)
        }
    }
}

// A wire with what a table or a host function of a design answers.
fn ask<E: Outside>(
    design: &Design,
    externs: &E,
    net: &mut Net,
    asked: Asked,
    x: NetId,
) -> Result<NetId, NoMemory>
    requires valid { IsValid design.now }
    requires externs { E.kept externs.now ≡ externs_of design.now }
    requires operation { (operand width : ℕ) × HasWire net.old x operand × AskedHasWidth (externs_of design.now) asked operand width }
    ensures grows { (inputs : List ℕ) → Grows inputs net.old net.new }
    ensures wire { IfOk result (λ id. (operand width : ℕ) → HasWire net.old x operand → AskedHasWidth (externs_of design.now) asked operand width → HasWire net.new id width) }
    ensures value { IfOk result (HasValue net.new (λ values. answer_to (externs_of design.now) asked (value_at values x))) }
{
    let wire = answer(externs, net, asked, x)?;
    Ok(wire)
}
