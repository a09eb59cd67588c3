//! Circuits: a simulator whose states are words of the machine.

ghost use Rattle.std.specs.Prelude.{◌≡◌, ◌<◌, ℕ, List, [], IfOk, length, map, nat_eq, All};
ghost use Rattle.kw_bits.specs.BitVector.{BitVector, zero_at};
ghost use Rattle.net_graph.specs.Nets.{widths_of};
ghost use Rattle.net_graph.specs.Values.{value_at};
ghost use Rattle.circuit_eval.specs.Circuits.{AreBits, input_widths, IsOutput, state_widths};
ghost use Rattle.circuit_eval.specs.Programs.{HasRoom, node_width, word_at};
ghost use Rattle.circuit_eval.specs.inner.Programs.{Keeps};
ghost use Rattle.circuit_eval.specs.Run.{flag_nodes as flag_nodes_lem, flags as flags_lem, outputs_in};

use crate::circuit::{Circuit, OutputWire};
use crate::program::{Step, has_wide, lay_out};
use crate::state_words::StateWords;
use crate::steps::{node, run_steps};
use kw_bits::{Bits, NoMemory};
use net_graph::{Net, NetId};
use one_rule::{Inputs, Regs};
use std::alloc::{AllocError, Global};
use std::marker::Model;

/// A circuit that runs step by step, seen by contracts as its states now and its outputs in the last step. Where no state
/// has more than 64 bits, it makes bit vectors of them only when they are asked for.
#[derive(Drop)]
pub struct WordSim<'c> {
    circuit: &'c Circuit,
    states: StateWords,
    // The nodes of the outputs of one bit.
    flags: Vec<NetId>,
    // The net, laid out, and what it makes in each step: the words of its nodes, and the values of those above 64 bits.
    steps: Vec<Step>,
    words: Vec<u64>,
    wides: Vec<Bits>,
}

impl<'c> Model for WordSim<'c> {
    ghost use Rattle.std.specs.Prelude.{◌≡◌};
    ghost use Rattle.net_graph.specs.Nets.{widths_of};
    ghost use Rattle.circuit_eval.specs.Circuits.{AreBits, state_widths};
    ghost use Rattle.circuit_eval.specs.Programs.{HasRoom, IsLaidOut, kept_from};
    ghost use Rattle.circuit_eval.specs.Run.{flag_nodes, outputs_in};
    ghost use Rattle.circuit_eval.specs.Simulations.{Simulation};

    ghost Value = { Simulation };

    ghost view = { λ s. record { circuit = s.circuit.now; states = s.states; outputs = outputs_in s.circuit.now.outputs (kept_from (widths_of s.circuit.now.net) s.words.items s.wides.items 0) } };

    ghost invariant = { λ s. AreBits s.states (state_widths s.circuit.now.states) × IsLaidOut s.circuit.now.net s.steps.items × HasRoom s.circuit.now.net s.words.items s.wides.items × AreBits (kept_from (widths_of s.circuit.now.net) s.words.items s.wides.items 0) (widths_of s.circuit.now.net) × (s.flags.items ≡ flag_nodes (widths_of s.circuit.now.net) s.circuit.now.outputs) };
}

impl<'c> WordSim<'c> {
    ghost use Rattle.circuit_eval.specs.Simulations.{after_step, beginning, flag_count};

    /// A circuit before its first step. It takes all the memory that steps need.
    pub fn begin(alloc: Global, circuit: &'c Circuit) -> Result<WordSim<'c>, NoMemory>
        ensures { IfOk result (λ sim. sim ≡ beginning circuit.now) }
    {
        let net = &circuit.net;
        Ok(WordSim {
            circuit,
            states: StateWords::first(alloc, circuit.states.as_slice())?,
            flags: flag_nodes(alloc, net, circuit.outputs.as_slice())?,
            steps: lay_out(alloc, net)?,
            words: zero_words(alloc, net)?,
            wides: zero_wides(alloc, net)?,
        })
    }

    /// One step with a value of its width for each input. It takes no memory.
    pub fn step(&mut self, inputs: &Inputs)
        requires { AreBits inputs.now (input_widths self.old.circuit.inputs) }
        ensures { self.new ≡ after_step self.old inputs.now }
    {
        let circuit: &Circuit = self.circuit;
        let net = &circuit.net;
        run_steps(
            net,
            &self.steps,
            inputs.as_slice(),
            &self.states,
            &mut self.words,
            &mut self.wides,
        );
        let (words, wides) = (&self.words, &self.wides);
        self.states
            .take_next(circuit.states.as_slice(), net, words, wides);
    }

    /// The states now, as bit vectors.
    pub fn regs(&self, alloc: Global) -> Result<Regs, NoMemory>
        ensures { IfOk result (λ regs. regs ≡ self.now.states) }
    {
        regs_of(alloc, &self.states)
    }

    /// The flags of the last step: whether each output of one bit was 1.
    pub fn flags(&self, alloc: Global) -> Result<Vec<bool>, AllocError>
        ensures flags { IfOk result (λ fired. fired.items ≡ flags_lem self.now.outputs) }
        ensures count { IfOk result (λ fired. length fired.items ≡ flag_count self.now) }
    {
        self.circuit.recall();
        let mut fired = no_flags(alloc, &self.flags)?;
        put_bits(&self.flags, &self.words, &mut fired);
        Ok(fired)
    }

    /// Writes the flags of the last step into a room for them. It takes no memory.
    pub fn put_flags(&self, room: &mut [bool])
        requires { length room.old ≡ flag_count self.now }
        ensures { room.new ≡ flags_lem self.now.outputs }
    {
        self.circuit.recall();
        put_bits(&self.flags, &self.words, room);
    }

    /// Writes the states now into a room for them. It takes no memory.
    pub(crate) fn put_states(&self, room: &mut Regs)
        requires { length room.old ≡ length self.now.states }
        ensures states { room.new ≡ self.now.states }
        ensures fit { AreBits self.now.states (state_widths self.now.circuit.states) }
    {
        put_values(&self.states, room);
    }

    /// Writes the outputs in the last step into a room for them, zeros before the first. It takes no memory.
    pub(crate) fn put_outputs(&self, room: &mut [Bits])
        requires { length room.old ≡ length self.now.circuit.outputs }
        ensures { room.new ≡ self.now.outputs }
    {
        let circuit: &Circuit = self.circuit;
        take_outputs(
            &circuit.net,
            circuit.outputs.as_slice(),
            &self.words,
            &self.wides,
            room,
        );
    }
}

// The nodes of the outputs of one bit.
fn flag_nodes(alloc: Global, net: &Net, outputs: &[OutputWire]) -> Result<Vec<NetId>, NoMemory>
    requires { All (IsOutput net.now) outputs.now }
    ensures { IfOk result (λ nodes. nodes.items ≡ flag_nodes_lem (widths_of net.now) outputs.now) }
{
    let mut nodes = Vec::new(alloc);
    for wire in outputs {
        if net.width(wire.id) == 1 {
            nodes.push(wire.id)?;
        }
    }
    Ok(nodes)
}

// A zero for each node.
fn zero_words(alloc: Global, net: &Net) -> Result<Vec<u64>, AllocError>
    ensures { IfOk result (λ words. words.items ≡ map (λ op. 0) net.now) }
{
    net.ops().iter().map(|_op| 0).collect(alloc)
}

// A zero of its width for each node, or nothing where no node has more than 64 bits.
fn zero_wides(alloc: Global, net: &Net) -> Result<Vec<Bits>, NoMemory>
    ensures wide { IfOk result (λ values. (id : ℕ) → id < length net.now → 64 < node_width net.now id → (id < length values.items) × (value_at values.items id ≡ zero_at (node_width net.now id))) }
{
    if has_wide(net) {
        zeros(alloc, net)
    } else {
        Ok(Vec::new(alloc))
    }
}

fn zeros(alloc: Global, net: &Net) -> Result<Vec<Bits>, NoMemory>
    ensures { IfOk result (λ values. values.items ≡ map zero_at (widths_of net.now)) }
{
    let mut values = Vec::with_capacity(alloc, net.len())?;
    for id in 0..net.len() {
        values.push(Bits::zero(net.width(id as NetId)))?;
    }
    Ok(values)
}

fn regs_of(alloc: Global, states: &StateWords) -> Result<Regs, NoMemory>
    ensures { IfOk result (λ regs. regs ≡ states.now) }
{
    let mut regs = Vec::with_capacity(alloc, states.len())?;
    for state in 0..states.len() {
        regs.push_reserved(states.value(state));
    }
    Ok(Regs::from_vec(regs))
}

fn put_values(states: &StateWords, room: &mut Regs)
    requires { length room.old ≡ length states.now }
    ensures { room.new ≡ states.now }
{
    for state in 0..states.len() {
        room.set(state, states.value(state));
    }
}

// Each output takes the value of its node.
fn take_outputs(
    net: &Net,
    wires: &[OutputWire],
    words: &[u64],
    wides: &[Bits],
    outputs: &mut [Bits],
)
    requires stand { All (λ wire. wire.id < length net.now) wires.now }
    requires outputs { length outputs.old ≡ length wires.now }
    requires room { HasRoom net.now words.now wides.now }
    requires kept { (values : List BitVector) × Keeps net.now words.now wides.now values (length net.now) }
    ensures { (values : List BitVector) → Keeps net.now words.now wides.now values (length net.now) → outputs.new ≡ outputs_in wires.now values }
{
    for (output, wire) in wires.iter().enumerate() {
        outputs[output] = node(net, wire.id, words, wides);
    }
}

fn no_flags(alloc: Global, nodes: &[NetId]) -> Result<Vec<bool>, AllocError>
    ensures { IfOk result (λ fired. length fired.items ≡ length nodes.now) }
{
    nodes.iter().map(|_node| false).collect(alloc)
}

// Writes whether the word of each of these nodes is 1.
fn put_bits(nodes: &[NetId], words: &[u64], fired: &mut [bool])
    requires nodes { All (λ id. id < length words.now) nodes.now }
    requires room { length fired.old ≡ length nodes.now }
    ensures { fired.new ≡ map (λ id. nat_eq (word_at words.now id) 1) nodes.now }
{
    for (flag, id) in nodes.iter().enumerate() {
        fired[flag] = words[*id as usize] == 1;
    }
}
