//! Circuits: the circuit of a design.

ghost use Rattle.std.specs.Prelude.{◌≡◌, [], All, IfOk, OnOk, length, map};
ghost use Rattle.kw_bits.specs.Laws.{HasWidth};
ghost use Rattle.net_graph.specs.Nets.{IsNet};
ghost use Rattle.net_graph.specs.Values.{AllRead};
ghost use Rattle.typed_core.specs.Valid.{IsRegister, IsValid, IsWidth, externs_of};
ghost use Rattle.typed_core.specs.Widths as design_widths;
ghost use Rattle.typed_core.specs.declared.design.InputDecl.{InputDecl};
ghost use Rattle.typed_core.specs.declared.design.RegDecl.{RegDecl};
ghost use Rattle.typed_core.specs.declared.design.Rule.{Rule};
ghost use Rattle.one_rule.specs.Externs.{kept};
ghost use Rattle.circuit_eval.specs.Circuits.{IsInput, input_widths, state_widths};
ghost use Rattle.circuit_eval.specs.Run.{first_states};
ghost use Rattle.circuit_eval.specs.declared.circuit.InputWire.{InputWire};
ghost use Rattle.circuit_eval.specs.declared.circuit.OutputWire.{OutputWire};
ghost use Rattle.circuit_eval.specs.declared.circuit.StateWire.{StateWire};
ghost use Rattle.net_sched.specs.Designs.{HasParts, RunsAs};
ghost use Rattle.net_sched.specs.inner.Designs.{AreWiresOf};
ghost use Rattle.net_sched.specs.inner.Made.{AreEnds, AreNamed};

use crate::cycle::cycle_wires;
use crate::flags::nth;
use crate::registers::{next_values, state_wires};
use circuit_eval::{Circuit, InputWire, OutputWire, StateWire, Wires};
use kw_bits::{NoMemory, Sequence, Text};
use net_graph::{Net, NetId};
use one_rule::Externs;
use std::alloc::Global;
use typed_core::{Design, InputDecl, RegDecl, Rule};

/// The circuit of a design, whose run is the design's, with an output for each rule that is 1 where it fires.
pub fn build(alloc: Global, design: &Design, externs: &Externs) -> Result<Circuit, NoMemory>
    requires externs { kept externs.now ≡ externs_of design.now }
    ensures parts { IfOk result (HasParts design.now) }
    ensures run { IfOk result (RunsAs design.now) }
{
    let wires = design_wires(alloc, design, externs)?;
    Ok(Circuit::new(wires).unwrap())
}

// What the circuit of a design is made of.
fn design_wires(alloc: Global, design: &Design, externs: &Externs) -> Result<Wires, NoMemory>
    requires { kept externs.now ≡ externs_of design.now }
    ensures { IfOk result (AreWiresOf design.now) }
{
    let mut net = Net::new(alloc);
    let ends = cycle_ends(alloc, &mut net, design, externs)?;
    let wires = named(alloc, design, net, &ends)?;
    Ok(wires)
}

// The wires of a cycle's end.
#[derive(Drop)]
struct Ends {
    // The value of each register after the cycle.
    next: Sequence<NetId>,
    // Whether each rule fired.
    fired: Sequence<NetId>,
}

// The cycle of a design as wires, in an empty net.
fn cycle_ends(
    alloc: Global,
    net: &mut Net,
    design: &Design,
    externs: &Externs,
) -> Result<Ends, NoMemory>
    requires externs { kept externs.now ≡ externs_of design.now }
    requires net { net.old ≡ [] }
    ensures valid { OnOk result (IsValid design.now) }
    ensures reads { OnOk result (AllRead (design_widths.input_widths design.now) (design_widths.register_widths design.now) net.new) }
    ensures ends { IfOk result (λ ends. AreEnds design.now net.new ends.next ends.fired) }
{
    let start = state_wires(alloc, net, design.regs.as_slice())?;
    let cycle = cycle_wires(alloc, net, design, externs, start)?;
    let next = next_values(alloc, net, design, &cycle.ports)?;
    Ok(Ends {
        next,
        fired: cycle.fired,
    })
}

// The wires of a cycle's end with the names of the design's parts.
fn named(alloc: Global, design: &Design, net: Net, ends: &Ends) -> Result<Wires, NoMemory>
    requires next { length ends.now.next ≡ length (design_widths.register_widths design.now) }
    requires fired { length ends.now.fired ≡ length design.now.rules }
    ensures net { IfOk result (λ wires. wires.net ≡ net) }
    ensures is_net { IfOk result (λ wires. IsNet wires.net) }
    ensures named { IfOk result (AreNamed design.now ends.now.next ends.now.fired) }
{
    let states = states(alloc, design.regs.as_slice(), &ends.next)?;
    let inputs = inputs(alloc, design.inputs.as_slice())?;
    let outputs = outputs(alloc, design.rules.as_slice(), &ends.fired)?;
    Ok(Wires {
        net,
        states,
        inputs,
        outputs,
    })
}

// A state for each register, with these next values.
fn states(
    alloc: Global,
    decls: &[RegDecl],
    next: &Sequence<NetId>,
) -> Result<Sequence<StateWire>, NoMemory>
    requires next { length next.now ≡ length decls.now }
    requires registers { All IsRegister decls.now }
    ensures names { IfOk result (λ states. map (λ (wire : StateWire). wire.name) states ≡ map (λ (decl : RegDecl). decl.name) decls.now) }
    ensures widths { IfOk result (λ states. state_widths states ≡ map (λ (decl : RegDecl). decl.width) decls.now) }
    ensures first { IfOk result (λ states. first_states states ≡ map (λ (decl : RegDecl). decl.first) decls.now) }
    ensures fit { IfOk result (All (λ (wire : StateWire). HasWidth wire.first wire.width)) }
    ensures next { IfOk result (λ states. map (λ (wire : StateWire). wire.next) states ≡ next.now) }
{
    let mut states = Sequence::new(alloc);
    for (register, decl) in decls.iter().enumerate() {
        states.push(StateWire {
            name: copied(alloc, &decl.name)?,
            width: decl.width,
            first: decl.first,
            next: nth(next, register),
        })?;
    }
    Ok(states)
}

// An input for each of the design's.
fn inputs(alloc: Global, decls: &[InputDecl]) -> Result<Sequence<InputWire>, NoMemory>
    requires { All (λ (decl : InputDecl). IsWidth decl.width) decls.now }
    ensures names { IfOk result (λ inputs. map (λ (wire : InputWire). wire.name) inputs ≡ map (λ (decl : InputDecl). decl.name) decls.now) }
    ensures fit { IfOk result (All IsInput) }
    ensures widths { IfOk result (λ inputs. input_widths inputs ≡ map (λ (decl : InputDecl). decl.width) decls.now) }
{
    let mut inputs = Sequence::new(alloc);
    for decl in decls {
        inputs.push(InputWire {
            name: copied(alloc, &decl.name)?,
            width: decl.width,
        })?;
    }
    Ok(inputs)
}

// An output for each rule.
fn outputs(
    alloc: Global,
    rules: &[Rule],
    fired: &Sequence<NetId>,
) -> Result<Sequence<OutputWire>, NoMemory>
    requires { length fired.now ≡ length rules.now }
    ensures names { IfOk result (λ outputs. map (λ (wire : OutputWire). wire.name) outputs ≡ map (λ (rule : Rule). rule.name) rules.now) }
    ensures ids { IfOk result (λ outputs. map (λ (wire : OutputWire). wire.id) outputs ≡ fired.now) }
{
    let mut outputs = Sequence::new(alloc);
    for (number, rule) in rules.iter().enumerate() {
        outputs.push(OutputWire {
            name: copied(alloc, &rule.name)?,
            id: nth(fired, number),
        })?;
    }
    Ok(outputs)
}

fn copied(alloc: Global, name: &Text) -> Result<Text, NoMemory>
    ensures { IfOk result (λ copy. copy ≡ name.now) }
{
    Sequence::from_slice(alloc, name.as_slice())
}
