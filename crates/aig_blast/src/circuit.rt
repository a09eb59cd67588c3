//! The and-inverter graph of a circuit of words.

ghost use Rattle.std.specs.Prelude.{◌≡◌, ◌<◌, ◌≤◌, ◌^◌, IfOk, length, map, All, true};
ghost use Rattle.circuit_eval.specs.Circuits as circuits;
ghost use Rattle.aig_blast.specs.Blasted.{HasSymbols, HasWires, RunsAs};
ghost use Rattle.aig_blast.specs.inner.Trims.{IsPlaced};
ghost use Rattle.aig_blast.specs.inner.Nodes.{word_at, input_words_of, Made, source_count, state_words_of, input_word, latch_word, output_bits as output_bits_lem};

use crate::aig::{Aig, InputWord, LatchWord, OutputBit};
use crate::gate::Lit;
use crate::graph::Graph;
use crate::nodes::node_words;
use crate::sources::{Word, source_words};
use crate::trim::{copied, is_marked, is_word_placed, mark, mark_word, moved_words};
use circuit_eval::{Circuit, InputWire, OutputWire, StateWire};
use kw_bits::{NoMemory, Sequence, Text};
use std::alloc::Global;

/// The bit-level circuit of a circuit: each state is a word of latches, each output of one bit an output, and the rest is
/// and-gates. Its run is the circuit's.
pub fn blast(alloc: Global, circuit: &Circuit) -> Result<Aig, NoMemory>
    requires names { HasSymbols circuit.now }
    ensures wires { IfOk result (λ aig. HasWires circuit.now aig) }
    ensures run { IfOk result (λ aig. RunsAs circuit.now aig) }
{
    let whole = node_graph(alloc, circuit)?;
    let made = trimmed(alloc, circuit, whole)?;
    let words = made.words.as_slice();
    let inputs = input_words(alloc, circuit.inputs.as_slice())?;
    let latches = latch_words(alloc, circuit.states.as_slice(), words)?;
    let outputs = output_bits(alloc, circuit.outputs.as_slice(), words)?;
    let gates = Sequence::from_slice(alloc, made.graph.gates())?;
    Ok(Aig {
        inputs,
        latches,
        outputs,
        gates,
    })
}

// A graph over the bits of inputs and states, and the words of a circuit's nodes in it.
#[derive(Drop)]
struct NodeGraph {
    graph: Graph,
    words: Sequence<Word>,
}

fn node_graph(alloc: Global, circuit: &Circuit) -> Result<NodeGraph, NoMemory>
    ensures { IfOk result (λ made. Made circuit.now made.graph made.words) }
{
    let sources = words_of_sources(alloc, circuit)?;
    let (inputs, states) = (sources.inputs.as_slice(), sources.states.as_slice());
    let mut graph = Graph::new(alloc, sources.count);
    let words = node_words(&mut graph, alloc, &circuit.net, inputs, states)?;
    Ok(NodeGraph { graph, words })
}

// The same without the gates that no state and no output needs.
fn trimmed(alloc: Global, circuit: &Circuit, whole: NodeGraph) -> Result<NodeGraph, NoMemory>
    requires { Made circuit.now whole.graph whole.words }
    ensures { IfOk result (λ made. Made circuit.now made.graph made.words) }
{
    let (states, outputs) = (circuit.states.as_slice(), circuit.outputs.as_slice());
    let needed = needed_variables(alloc, &whole.graph, states, outputs, whole.words.as_slice())?;
    let copy = copied(alloc, &whole.graph, &needed)?;
    if !are_nexts_placed(&copy.places, states, whole.words.as_slice()) {
        return Ok(whole);
    }
    if !are_outputs_placed(&copy.places, outputs, whole.words.as_slice()) {
        return Ok(whole);
    }
    let words = moved_words(alloc, &copy.places, whole.words.as_slice())?;
    Ok(NodeGraph {
        graph: copy.graph,
        words,
    })
}

// Which variables states and outputs need.
fn needed_variables(
    alloc: Global,
    graph: &Graph,
    states: &[StateWire],
    outputs: &[OutputWire],
    words: &[Word],
) -> Result<Vec<bool>, NoMemory>
    requires states { All (λ wire. wire.next < length words.now) states.now }
    requires outputs { All (λ wire. wire.id < length words.now) outputs.now }
{
    let gates = graph.gates();
    let before = graph.source_count() as usize + 1;
    let mut needed = vec![in alloc; false; before + gates.len()]?;
    for wire in states {
        mark_word(&mut needed, words[wire.next as usize].as_slice());
    }
    for wire in outputs {
        mark_word(&mut needed, words[wire.id as usize].as_slice());
    }
    for k in 0..gates.len() {
        let last = gates.len() - 1 - k;
        if is_marked(&needed, before + last) {
            mark(&mut needed, gates[last].left);
            mark(&mut needed, gates[last].right);
        }
    }
    Ok(needed)
}

// Whether a copy has the words of next nodes.
fn are_nexts_placed(places: &[Option<Lit>], wires: &[StateWire], words: &[Word]) -> bool
    requires { All (λ wire. wire.next < length words.now) wires.now }
    ensures { result ≡ true → All (λ wire. All (IsPlaced places.now) (word_at words.now wire.next)) wires.now }
{
    for wire in wires {
        if !is_word_placed(places, words[wire.next as usize].as_slice()) {
            return false;
        }
    }
    true
}

// Whether a copy has the words of outputs.
fn are_outputs_placed(places: &[Option<Lit>], wires: &[OutputWire], words: &[Word]) -> bool
    requires { All (λ wire. wire.id < length words.now) wires.now }
    ensures { result ≡ true → All (λ wire. All (IsPlaced places.now) (word_at words.now wire.id)) wires.now }
{
    for wire in wires {
        if !is_word_placed(places, words[wire.id as usize].as_slice()) {
            return false;
        }
    }
    true
}

// The words of inputs and of states, and how many bits they have together.
#[derive(Drop)]
struct Sources {
    inputs: Sequence<Word>,
    states: Sequence<Word>,
    count: u64,
}

fn words_of_sources(alloc: Global, circuit: &Circuit) -> Result<Sources, NoMemory>
    ensures inputs { IfOk result (λ made. made.inputs ≡ input_words_of circuit.now) }
    ensures states { IfOk result (λ made. made.states ≡ state_words_of circuit.now) }
    ensures count { IfOk result (λ made. made.count ≡ source_count circuit.now) }
    ensures few { IfOk result (λ made. made.count ≤ 2 ^ 60) }
{
    let input_widths = input_widths(alloc, circuit.inputs.as_slice())?;
    let (inputs, before) = source_words(alloc, 0, &input_widths)?;
    let state_widths = state_widths(alloc, circuit.states.as_slice())?;
    let (states, count) = source_words(alloc, before, &state_widths)?;
    Ok(Sources {
        inputs,
        states,
        count,
    })
}

fn input_widths(alloc: Global, wires: &[InputWire]) -> Result<Vec<u32>, NoMemory>
    ensures { IfOk result (λ widths. widths.items ≡ circuits.input_widths wires.now) }
{
    Ok(wires.iter().map(|wire| wire.width).collect(alloc)?)
}

fn state_widths(alloc: Global, wires: &[StateWire]) -> Result<Vec<u32>, NoMemory>
    ensures { IfOk result (λ widths. widths.items ≡ circuits.state_widths wires.now) }
{
    Ok(wires.iter().map(|wire| wire.width).collect(alloc)?)
}

fn input_words(alloc: Global, wires: &[InputWire]) -> Result<Sequence<InputWord>, NoMemory>
    ensures { IfOk result (λ inputs. inputs ≡ map input_word wires.now) }
{
    let mut inputs = Sequence::new(alloc);
    for wire in wires {
        let name = Text::from_slice(alloc, wire.name.as_slice())?;
        inputs.push(InputWord {
            name,
            width: wire.width,
        })?;
    }
    Ok(inputs)
}

fn latch_words(
    alloc: Global,
    wires: &[StateWire],
    words: &[Word],
) -> Result<Sequence<LatchWord>, NoMemory>
    requires { All (λ wire. wire.next < length words.now) wires.now }
    ensures { IfOk result (λ latches. latches ≡ map (latch_word words.now) wires.now) }
{
    let mut latches = Sequence::new(alloc);
    for wire in wires {
        let name = Text::from_slice(alloc, wire.name.as_slice())?;
        let nexts = Word::from_slice(alloc, words[wire.next as usize].as_slice())?;
        latches.push(LatchWord {
            name,
            first: wire.first,
            nexts,
        })?;
    }
    Ok(latches)
}

// The outputs of one bit.
fn output_bits(
    alloc: Global,
    wires: &[OutputWire],
    words: &[Word],
) -> Result<Sequence<OutputBit>, NoMemory>
    requires { All (λ wire. wire.id < length words.now) wires.now }
    ensures { IfOk result (λ outputs. outputs ≡ output_bits_lem words.now wires.now) }
{
    let mut outputs = Sequence::new(alloc);
    for wire in wires {
        let word = words[wire.id as usize].as_slice();
        if word.len() == 1 {
            let name = Text::from_slice(alloc, wire.name.as_slice())?;
            outputs.push(OutputBit { name, lit: word[0] })?;
        }
    }
    Ok(outputs)
}
