//! Engines: the circuit of a BTOR2 text, which also shows the violations of its bad lines.

ghost use Rattle.std.specs.Prelude.{◌≡◌, ◌++◌, ◌+◌, ◌<◌, ◌^◌, [], ◌∷◌, All, IfOk, OnOk, cond, length, map, not};
ghost use Rattle.std.specs.List.{list_any, range_with_len};
ghost use Rattle.btor2_model.specs.Rules.{is_bad, rule_of};
ghost use Rattle.btor2_model.specs.Run.{lines_by_rule};
ghost use Rattle.circuit_eval.specs.Circuits.{IsOutput};
ghost use Rattle.circuit_eval.specs.declared.circuit.OutputWire.{OutputWire as Wire};
ghost use Rattle.koika_assert.specs.Violations.{watched};
ghost use Rattle.koika_top.specs.inner.CircuitRuns.{HasFewLines, IsCircuitOf, IsMixedOf, IsParted, chosen, output_mask, with_outputs};

use crate::circuit_shapes::circuit_shape;
use btor2_model::{Btor, FormRule};
use btor2_net::to_circuit;
use btor2_text::Line;
use circuit_eval::{Circuit, OutputWire};
use koika_assert::{Watch, bads_beside_outputs};
use kw_bits::{NoMemory, Sequence, Text};
use std::alloc::{AllocError, Global};
use stim_report::Shape;

/// The circuit of a text, and what reports show of the text. After the text's outputs the circuit has one more for each
/// bad line, of which these are the names.
#[derive(Drop)]
pub(crate) struct TextCircuit {
    pub(crate) circuit: Circuit,
    pub(crate) shape: Shape,
    pub(crate) bads: Sequence<Text>,
}

impl TextCircuit {
    /// The circuit of a text. The text isn't kept.
    pub(crate) fn of(alloc: Global, text: Btor) -> Result<TextCircuit, NoMemory>
        requires { HasFewLines text }
        ensures { IfOk result (λ made. IsCircuitOf text made.circuit made.shape made.bads) }
    {
        if !has_bads(text.lines().as_slice()) {
            return without_bads(alloc, &text);
        }
        let mask = output_mask(alloc, text.lines().as_slice())?;
        let mixed = mixed_of(alloc, text)?;
        mixed.recall();
        parted(alloc, mixed, &mask)
    }
}

// The circuit of a text that has no bad line.
fn without_bads(alloc: Global, text: &Btor) -> Result<TextCircuit, NoMemory>
    requires few { HasFewLines text.now }
    requires none { lines_by_rule is_bad text.now ≡ [] }
    ensures { IfOk result (λ made. IsCircuitOf text.now made.circuit made.shape made.bads) }
{
    let circuit = to_circuit(alloc, text)?;
    let shape = circuit_shape(alloc, &circuit)?;
    Ok(TextCircuit {
        circuit,
        shape,
        bads: Sequence::new(alloc),
    })
}

// The circuit with an output for each output and bad line of a text, which is given back before the circuit is made.
fn mixed_of(alloc: Global, text: Btor) -> Result<Circuit, NoMemory>
    requires { HasFewLines text }
    ensures { IfOk result (IsMixedOf text) }
{
    let shown = bads_beside_outputs(alloc, &text)?;
    drop(text);
    to_circuit(alloc, &shown)
}

// Puts the outputs of a circuit that aren't marked after those that are, which alone are shown.
fn parted(alloc: Global, mixed: Circuit, mask: &[bool]) -> Result<TextCircuit, NoMemory>
    requires { length mask.now ≡ length mixed.outputs }
    ensures { IfOk result (λ made. IsParted mixed mask.now made.circuit made.shape made.bads) }
{
    mixed.recall();
    let Circuit {
        net,
        states,
        inputs,
        outputs,
    } = mixed;
    let mut kept = Sequence::new(alloc);
    push_chosen(alloc, mask, outputs.as_slice(), &mut kept)?;
    let circuit = Circuit {
        net,
        states,
        inputs,
        outputs: kept,
    };
    let shape = circuit_shape(alloc, &circuit)?;
    let others = inverted(alloc, mask)?;
    let mut bads = Sequence::new(alloc);
    push_chosen(alloc, &others, outputs.as_slice(), &mut bads)?;
    let names = names_of(alloc, bads.as_slice())?;
    Ok(TextCircuit {
        circuit: with_more(alloc, circuit, &others, outputs.as_slice())?,
        shape,
        bads: names,
    })
}

// A circuit with the wires that are marked after its own outputs.
fn with_more(
    alloc: Global,
    circuit: Circuit,
    mask: &[bool],
    wires: &[OutputWire],
) -> Result<Circuit, NoMemory>
    requires marks { length mask.now ≡ length wires.now }
    requires stand { All (IsOutput circuit.net) wires.now }
    ensures { IfOk result (λ all. all ≡ with_outputs circuit (circuit.outputs ++ chosen mask.now wires.now)) }
{
    circuit.recall();
    let Circuit {
        net,
        states,
        inputs,
        mut outputs,
    } = circuit;
    push_chosen(alloc, mask, wires, &mut outputs)?;
    Ok(Circuit {
        net,
        states,
        inputs,
        outputs,
    })
}

// Whether one of the lines is a bad line.
fn has_bads(lines: &[Line]) -> bool
    ensures { result ≡ list_any (λ line. is_bad (rule_of line.keyword)) lines.now }
{
    lines.iter().any(|line| FormRule::of(line.keyword).is_bad())
}

// Of each output and bad line, whether it is an output.
fn output_mask(alloc: Global, lines: &[Line]) -> Result<Vec<bool>, NoMemory>
    ensures { IfOk result (λ mask. mask.items ≡ output_mask lines.now) }
{
    let mut mask = Vec::new(alloc);
    for line in lines {
        let rule = FormRule::of(line.keyword);
        if rule.is_output() || rule.is_bad() {
            mask.push(rule.is_output())?;
        }
    }
    Ok(mask)
}

// The opposite marks.
fn inverted(alloc: Global, mask: &[bool]) -> Result<Vec<bool>, AllocError>
    ensures { IfOk result (λ others. others.items ≡ map not mask.now) }
{
    mask.iter().map(|mark| !*mark).collect(alloc)
}

// Adds copies of the outputs that are marked.
fn push_chosen(
    alloc: Global,
    mask: &[bool],
    wires: &[OutputWire],
    all: &mut Sequence<OutputWire>,
) -> Result<(), NoMemory>
    requires { length mask.now ≡ length wires.now }
    ensures { OnOk result (all.new ≡ all.old ++ chosen mask.now wires.now) }
{
    for (number, wire) in wires.iter().enumerate() {
        push_if(alloc, mask[number], wire, all)?;
    }
    Ok(())
}

// Adds a copy of an output, if it is marked.
fn push_if(
    alloc: Global,
    mark: bool,
    wire: &OutputWire,
    all: &mut Sequence<OutputWire>,
) -> Result<(), NoMemory>
    ensures { OnOk result (all.new ≡ all.old ++ cond mark (wire.now ∷ []) []) }
{
    if !mark {
        return Ok(());
    }
    let name = Text::from_slice(alloc, wire.name.as_slice())?;
    all.push(OutputWire { name, id: wire.id })
}

// The names of outputs.
fn names_of(alloc: Global, wires: &[OutputWire]) -> Result<Sequence<Text>, NoMemory>
    ensures { IfOk result (λ names. names ≡ map (λ (wire : Wire). wire.name) wires.now) }
{
    let mut names = Sequence::new(alloc);
    for wire in wires {
        names.push(Text::from_slice(alloc, wire.name.as_slice())?)?;
    }
    Ok(names)
}

/// A watch on as many flags as there are names, after these others.
pub(crate) fn bad_watch(alloc: Global, others: usize, names: &[Text]) -> Result<Watch, NoMemory>
    requires { others + length names.now < 2 ^ 32 }
    ensures { IfOk result (λ watch. watch ≡ watched names.now (range_with_len others (length names.now)) []) }
{
    let mut copies = Sequence::new(alloc);
    let mut marks = Sequence::new(alloc);
    for (number, name) in names.iter().enumerate() {
        marks.push((others + number) as u32)?;
        copies.push(Text::from_slice(alloc, name.as_slice())?)?;
    }
    Watch::new(alloc, copies, marks)
}
