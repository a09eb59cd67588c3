//! The simulator of a graph: the value of each literal, cycle by cycle.

ghost use Rattle.std.specs.Prelude.{◌≡◌, ◌+◌, ◌*◌, ◌^◌, ◌<◌, ◌≤◌, ◌++◌, ◌∷◌, [], false, IfOk, OnOk, length, map, replicate, sum, take, All};
ghost use Rattle.circuit_eval.specs.Circuits.{AreBits};
ghost use Rattle.aig_blast.specs.Aigs.{input_word_widths, latch_widths, variables};
ghost use Rattle.aig_blast.specs.AigRun.{bits_of, first_words as first_words_lem, next_words, values_in};
ghost use Rattle.aig_blast.specs.AigSims.{flags_in, no_flags as no_flags_lem};
ghost use Rattle.aig_blast.specs.inner.AigSims.{AreBoth, IsReadable, both, variable_values};
ghost use Rattle.aig_blast.specs.BitLists.{as_bits, bit};
ghost use Rattle.aig_blast.specs.Graphs.{AllStand, gate_value as gate_value_lem, lit_value as lit_value_lem, values_after};
ghost use Rattle.aig_blast.specs.Steps.{digits};

use crate::aig::{Aig, InputWord, LatchWord, OutputBit};
use crate::gate::{Gate, Lit};
use kw_bits::{Bits, NoMemory};
use one_rule::{Inputs, Regs};
use std::alloc::{AllocError, Global};
use std::marker::Model;

/// A bit-level circuit that runs step by step, seen by contracts as the words of its latches now and its outputs in the last step.
#[derive(Drop)]
pub struct AigSim<'a> {
    aig: &'a Aig,
    states: Regs,
    outputs: Vec<Bits>,
    // The values of the literals, written anew in each step.
    values: Vec<bool>,
}

impl<'a> Model for AigSim<'a> {
    ghost use Rattle.std.specs.Prelude.{◌≡◌, ◌+◌, ◌*◌, length, take, ◌∷◌, [], false};
    ghost use Rattle.circuit_eval.specs.Circuits.{AreBits};
    ghost use Rattle.aig_blast.specs.Aigs.{latch_widths, variables};
    ghost use Rattle.aig_blast.specs.AigSims.{Simulation};
    ghost use Rattle.aig_blast.specs.inner.AigSims.{both};

    ghost Value = { Simulation };

    ghost view = { λ s. record { aig = s.aig.now; states = s.states; outputs = s.outputs.items } };

    ghost invariant = { λ s. AreBits s.states (latch_widths s.aig.now.latches) × (length s.outputs.items ≡ length s.aig.now.outputs) × (length s.values.items ≡ 2 * (1 + variables s.aig.now)) × (take 2 s.values.items ≡ both (false ∷ [])) };
}

impl<'a> AigSim<'a> {
    ghost use Rattle.aig_blast.specs.AigSims.{after_step, beginning};

    /// A bit-level circuit before its first step. It takes all the memory that steps need.
    pub fn begin(alloc: Global, aig: &'a Aig) -> Result<AigSim<'a>, NoMemory>
        ensures { IfOk result (λ sim. sim ≡ beginning aig.now) }
    {
        Ok(AigSim {
            aig,
            states: Regs::from_vec(first_words(alloc, aig.latches.as_slice())?),
            outputs: no_flags(alloc, aig.outputs.as_slice())?,
            values: room_for(alloc, aig)?,
        })
    }

    /// One step with a value of its width for each word of inputs. It takes no memory.
    pub fn step(&mut self, inputs: &Inputs)
        requires { AreBits inputs.now (input_word_widths self.old.aig.inputs) }
        ensures { self.new ≡ after_step self.old inputs.now }
    {
        let aig: &Aig = self.aig;
        let states = self.states.as_slice();
        put_values(aig, inputs.as_slice(), states, &mut self.values);
        take_next(aig.latches.as_slice(), &self.values, &mut self.states);
        take_outputs(aig.outputs.as_slice(), &self.values, &mut self.outputs);
    }

    /// The words of the latches now.
    pub fn states(&self) -> &Regs
        ensures states { result.now ≡ self.now.states }
        ensures fit { AreBits self.now.states (latch_widths self.now.aig.latches) }
    {
        &self.states
    }

    /// The outputs in the last step, zeros before the first.
    pub fn outputs(&self) -> &[Bits]
        ensures outputs { result.now ≡ self.now.outputs }
        ensures count { length self.now.outputs ≡ length self.now.aig.outputs }
    {
        self.outputs.as_slice()
    }
}

fn first_words(alloc: Global, latches: &[LatchWord]) -> Result<Vec<Bits>, AllocError>
    ensures { IfOk result (λ values. values.items ≡ first_words_lem latches.now) }
{
    latches.iter().map(|word| word.first).collect(alloc)
}

fn no_flags(alloc: Global, outputs: &[OutputBit]) -> Result<Vec<Bits>, AllocError>
    ensures { IfOk result (λ values. values.items ≡ no_flags_lem outputs.now) }
{
    outputs.iter().map(|_output| Bits::zero(1)).collect(alloc)
}

// The values of the two literals of each variable. Variable 0 is false, the values of the others are written in a step.
fn room_for(alloc: Global, aig: &Aig) -> Result<Vec<bool>, NoMemory>
    ensures len { IfOk result (λ values. length values.items ≡ 2 * (1 + variables aig.now)) }
    ensures first { IfOk result (λ values. take 2 values.items ≡ both (false ∷ [])) }
{
    let mut values = Vec::new(alloc);
    add_room(&mut values, 1)?;
    add_input_room(&mut values, aig.inputs.as_slice())?;
    add_latch_room(&mut values, aig.latches.as_slice())?;
    add_room(&mut values, aig.gates.len())?;
    Ok(values)
}

fn add_input_room(values: &mut Vec<bool>, words: &[InputWord]) -> Result<(), NoMemory>
    ensures { OnOk result (values.new.items ≡ values.old.items ++ both (replicate (sum (input_word_widths words.now)) false)) }
{
    for word in words {
        add_room(values, word.width as usize)?;
    }
    Ok(())
}

fn add_latch_room(values: &mut Vec<bool>, words: &[LatchWord]) -> Result<(), NoMemory>
    ensures { OnOk result (values.new.items ≡ values.old.items ++ both (replicate (sum (latch_widths words.now)) false)) }
{
    for word in words {
        add_room(values, word.first.width() as usize)?;
    }
    Ok(())
}

fn add_room(values: &mut Vec<bool>, count: usize) -> Result<(), NoMemory>
    ensures { OnOk result (values.new.items ≡ values.old.items ++ both (replicate count false)) }
{
    for _place in 0..count {
        values.push(false)?;
        values.push(true)?;
    }
    Ok(())
}

// Writes the values of the literals in a step that begins with these words in the latches.
fn put_values(aig: &Aig, inputs: &[Bits], states: &[Bits], values: &mut [bool])
    requires inputs { AreBits inputs.now (input_word_widths aig.now.inputs) }
    requires states { AreBits states.now (latch_widths aig.now.latches) }
    requires room { length values.old ≡ 2 * (1 + variables aig.now) }
    requires first { take 2 values.old ≡ both (false ∷ []) }
    ensures { values.new ≡ both (values_in aig.now inputs.now states.now) }
{
    let before = put_words(inputs, 0, values);
    let sources = put_words(states, before, values);
    put_gates(aig.gates.as_slice(), sources, values);
}

// Writes the bits of words after those of other sources, and gives how many sources are written then.
fn put_words(words: &[Bits], before: usize, values: &mut [bool]) -> usize
    requires { 2 * (1 + before + length (bits_of words.now)) ≤ length values.old }
    ensures count { result ≡ before + length (bits_of words.now) }
    ensures values { take (2 * (1 + result)) values.new ≡ take (2 * (1 + before)) values.old ++ both (bits_of words.now) }
{
    let mut count = before;
    for word in words {
        put_word(*word, count, values);
        count += word.width() as usize;
    }
    count
}

fn put_word(word: Bits, before: usize, values: &mut [bool])
    requires { 2 * (1 + before + word.width) ≤ length values.old }
    ensures { take (2 * (1 + (before + word.width))) values.new ≡ take (2 * (1 + before)) values.old ++ both (digits word.number word.width) }
{
    let mut rest = word.number();
    for k in 0..word.width() {
        put_value(1 + before + k as usize, rest % 2 == 1, values);
        rest /= 2;
    }
}

// Writes the values of gates after this many sources.
fn put_gates(gates: &[Gate], sources: usize, values: &mut [bool])
    requires room { length values.old ≡ 2 * (1 + sources + length gates.now) }
    requires stand { AllStand sources gates.now }
    requires both { AreBoth (take (2 * (1 + sources)) values.old) }
    ensures { values.new ≡ both (values_after (variable_values (take (2 * (1 + sources)) values.old)) gates.now) }
{
    for (k, gate) in gates.iter().enumerate() {
        let variable = 1 + sources + k;
        let value = gate_value(&values[..2 * variable], gate);
        put_value(variable, value, values);
    }
}

// Writes the values of a variable's two literals.
#[inline]
fn put_value(variable: usize, value: bool, values: &mut [bool])
    requires { 2 * (1 + variable) ≤ length values.old }
    ensures { take (2 * (1 + variable)) values.new ≡ take (2 * variable) values.old ++ both (value ∷ []) }
{
    values[2 * variable] = value;
    values[2 * variable + 1] = !value;
}

// Both literals are read, since a branch costs more than a read.
#[inline]
fn gate_value(values: &[bool], gate: &Gate) -> bool
    requires left { gate.now.left < length values.now }
    requires right { gate.now.right < length values.now }
    requires both { AreBoth values.now }
    ensures { result ≡ gate_value_lem (variable_values values.now) gate.now }
{
    lit_value(values, gate.left) & lit_value(values, gate.right)
}

#[inline]
fn lit_value(values: &[bool], lit: Lit) -> bool
    requires below { lit < length values.now }
    requires both { AreBoth values.now }
    ensures { result ≡ lit_value_lem (variable_values values.now) lit }
{
    values[lit as usize]
}

// The word of the values of literals.
fn word_value(values: &[bool], lits: &[Lit]) -> Bits
    requires some { 1 ≤ length lits.now }
    requires most { length lits.now ≤ 128 }
    requires below { All (λ lit. lit < length values.now) lits.now }
    requires both { AreBoth values.now }
    ensures { result ≡ as_bits (map (lit_value_lem (variable_values values.now)) lits.now) }
{
    let mut number = 0;
    for k in (0..lits.len()).rev() {
        number = with_bit(lit_value(values, lits[k]), number);
    }
    Bits::new(lits.len() as u32, number).unwrap()
}

// A number with one bit more below.
#[inline]
fn with_bit(low: bool, number: u128) -> u128
    requires { number < 2 ^ 127 }
    ensures { result ≡ bit low + 2 * number }
{
    u128::from(low) + 2 * number
}

// Each word of latches takes its next value.
fn take_next(latches: &[LatchWord], values: &[bool], states: &mut Regs)
    requires stand { All (λ word. IsReadable values.now word) latches.now }
    requires both { AreBoth values.now }
    requires room { length states.old ≡ length latches.now }
    ensures { states.new ≡ next_words latches.now (variable_values values.now) }
{
    for (state, word) in latches.iter().enumerate() {
        states.set(state, word_value(values, word.nexts.as_slice()));
    }
}

// Each output takes the value of its literal.
fn take_outputs(wires: &[OutputBit], values: &[bool], outputs: &mut [Bits])
    requires stand { All (λ wire. wire.lit < length values.now) wires.now }
    requires both { AreBoth values.now }
    requires room { length outputs.old ≡ length wires.now }
    ensures { outputs.new ≡ flags_in wires.now (variable_values values.now) }
{
    for (output, wire) in wires.iter().enumerate() {
        outputs[output] = word_value(values, &[wire.lit]);
    }
}
