//! Circuits: a simulator that goes step by step, with its states and its outputs as bit vectors.

ghost use Rattle.std.specs.Prelude.{◌≡◌, IfOk, length, All};
ghost use Rattle.net_graph.specs.Nets.{widths_of};
ghost use Rattle.circuit_eval.specs.Circuits.{AreBits, input_widths, IsOutput, state_widths};
ghost use Rattle.circuit_eval.specs.Run.{zero_outputs};

use crate::circuit::{Circuit, OutputWire};
use crate::word_sim::WordSim;
use kw_bits::{Bits, NoMemory};
use net_graph::Net;
use one_rule::{Inputs, Regs};
use std::alloc::Global;
use std::marker::Model;

/// A circuit that runs step by step, seen by contracts as its states now and its outputs in the last step.
#[derive(Drop)]
pub struct Sim<'c> {
    word_sim: WordSim<'c>,
    // What the simulator has on words, as bit vectors.
    states: Regs,
    outputs: Vec<Bits>,
}

impl<'c> Model for Sim<'c> {
    ghost use Rattle.std.specs.Prelude.{◌≡◌, length};
    ghost use Rattle.circuit_eval.specs.Circuits.{AreBits, state_widths};
    ghost use Rattle.circuit_eval.specs.Simulations.{Simulation};

    ghost Value = { Simulation };

    ghost view = { λ s. s.word_sim };

    ghost invariant = { λ s. (s.states ≡ s.word_sim.states) × (s.outputs.items ≡ s.word_sim.outputs) × (length s.outputs.items ≡ length s.word_sim.circuit.outputs) × AreBits s.word_sim.states (state_widths s.word_sim.circuit.states) };
}

impl<'c> Sim<'c> {
    ghost use Rattle.circuit_eval.specs.Simulations.{after_step, beginning};

    /// A circuit before its first step. It takes all the memory that steps need.
    pub fn begin(alloc: Global, circuit: &'c Circuit) -> Result<Sim<'c>, NoMemory>
        ensures { IfOk result (λ sim. sim ≡ beginning circuit.now) }
    {
        let word_sim = WordSim::begin(alloc, circuit)?;
        let mut states = word_sim.regs(alloc)?;
        // (writes what is there, and says that the states have their widths)
        word_sim.put_states(&mut states);
        let outputs = zero_outputs(alloc, &circuit.net, circuit.outputs.as_slice())?;
        Ok(Sim {
            word_sim,
            states,
            outputs,
        })
    }

    /// One step with a value of its width for each input. It takes no memory.
    pub fn step(&mut self, inputs: &Inputs)
        requires { AreBits inputs.now (input_widths self.old.circuit.inputs) }
        ensures { self.new ≡ after_step self.old inputs.now }
    {
        self.word_sim.step(inputs);
        self.word_sim.put_states(&mut self.states);
        self.word_sim.put_outputs(&mut self.outputs);
    }

    /// The states now.
    pub fn states(&self) -> &Regs
        ensures states { result.now ≡ self.now.states }
        ensures fit { AreBits self.now.states (state_widths self.now.circuit.states) }
    {
        &self.states
    }

    /// The outputs in the last step, zeros before the first.
    pub fn outputs(&self) -> &[Bits]
        ensures { result.now ≡ self.now.outputs }
    {
        self.outputs.as_slice()
    }

    /// It without its bit vectors.
    pub(crate) fn words(&self) -> &WordSim<'c>
        ensures { result.now ≡ self.now }
    {
        &self.word_sim
    }
}

fn zero_outputs(alloc: Global, net: &Net, outputs: &[OutputWire]) -> Result<Vec<Bits>, NoMemory>
    requires { All (IsOutput net.now) outputs.now }
    ensures { IfOk result (λ values. values.items ≡ zero_outputs (widths_of net.now) outputs.now) }
{
    let mut values = Vec::new(alloc);
    for wire in outputs {
        values.push(Bits::zero(net.width(wire.id)))?;
    }
    Ok(values)
}
