//! Circuits: the states between two steps, as words of the machine.

ghost use Rattle.std.specs.Prelude.{◌≡◌, ◌↔◌, ◌≤◌, ◌<◌, List, IfOk, IsTrue, length, map, take, All};
ghost use Rattle.kw_bits.specs.BitVector.{BitVector};
ghost use Rattle.kw_bits.specs.Laws.{HasWidth};
ghost use Rattle.net_graph.specs.Nets.{IsNet, width_at, widths_of};
ghost use Rattle.net_graph.specs.Values.{value_at, widths};
ghost use Rattle.circuit_eval.specs.Circuits.{AreBits, IsState, state_widths};
ghost use Rattle.circuit_eval.specs.Programs.{HasRoom, word_at};
ghost use Rattle.circuit_eval.specs.inner.Programs.{AreWides, Keeps, narrow_number as narrow_number_lem};
ghost use Rattle.circuit_eval.specs.Run.{first_states, next_states};

use crate::circuit::StateWire;
use crate::steps::node;
use kw_bits::{Bits, NoMemory};
use net_graph::Net;
use one_rule::Regs;
use std::alloc::{AllocError, Global};
use std::marker::Model;

/// The states, seen by contracts as their values: a word for each, and the values above 64 bits as bit vectors.
#[derive(Drop)]
pub(crate) struct StateWords {
    widths: Vec<u32>,
    words: Vec<u64>,
    // The value of each state, or none at all where no state has more than 64 bits.
    wides: Vec<Bits>,
}

impl Model for StateWords {
    ghost use Rattle.std.specs.Prelude.{List};
    ghost use Rattle.kw_bits.specs.BitVector.{BitVector};
    ghost use Rattle.circuit_eval.specs.Programs.{AreKept, kept_from};

    ghost Value = { List BitVector };

    ghost view = { λ s. kept_from s.widths.items s.words.items s.wides.items 0 };

    ghost invariant = { λ s. AreKept s.widths.items s.words.items s.wides.items };
}

impl StateWords {
    /// The states at their first values.
    pub(crate) fn first(alloc: Global, wires: &[StateWire]) -> Result<StateWords, NoMemory>
        requires { All (λ wire. HasWidth wire.first wire.width) wires.now }
        ensures { IfOk result (λ states. states ≡ first_states wires.now) }
    {
        Ok(StateWords {
            widths: widths_of(alloc, wires)?,
            words: first_words(alloc, wires)?,
            wides: first_wides(alloc, wires)?,
        })
    }

    /// The word of a state of up to 64 bits.
    #[inline(always)]
    pub(crate) fn word(&self, number: usize) -> u64
        requires state { number < length self.now }
        requires narrow { (value_at self.now number).width ≤ 64 }
        ensures { result ≡ (value_at self.now number).number }
    {
        self.words[number]
    }

    /// The value of a state.
    pub(crate) fn value(&self, number: usize) -> Bits
        requires { number < length self.now }
        ensures { result ≡ value_at self.now number }
    {
        let width = self.widths[number];
        if width > 64 {
            return self.wides[number];
        }
        match Bits::new(width, self.words[number] as u128) {
            Some(value) => value,
            None => unreachable!(),
        }
    }

    /// How many states there are.
    pub(crate) fn len(&self) -> usize
        ensures { result ≡ length self.now }
    {
        self.widths.len()
    }

    /// Each state takes the value of its next node.
    pub(crate) fn take_next(
        &mut self,
        wires: &[StateWire],
        net: &Net,
        words: &[u64],
        wides: &[Bits],
    )
        requires wires { All (IsState net.now) wires.now }
        requires states { widths self.old ≡ state_widths wires.now }
        requires room { HasRoom net.now words.now wides.now }
        requires kept { (values : List BitVector) × Keeps net.now words.now wides.now values (length net.now) }
        ensures { (values : List BitVector) → Keeps net.now words.now wides.now values (length net.now) → self.new ≡ next_states wires.now values }
    {
        take_words(wires, words, &mut self.words);
        take_wides(wires, net, words, wides, &mut self.wides);
    }
}

fn widths_of(alloc: Global, wires: &[StateWire]) -> Result<Vec<u32>, AllocError>
    ensures { IfOk result (λ widths. widths.items ≡ state_widths wires.now) }
{
    wires.iter().map(|wire| wire.width).collect(alloc)
}

fn first_words(alloc: Global, wires: &[StateWire]) -> Result<Vec<u64>, AllocError>
    ensures { IfOk result (λ words. words.items ≡ map (λ wire. narrow_number_lem wire.first) wires.now) }
{
    wires
        .iter()
        .map(|wire| narrow_number(wire.first))
        .collect(alloc)
}

// The number of a bit vector of up to 64 bits, 0 of a wider one.
fn narrow_number(value: Bits) -> u64
    ensures { result ≡ narrow_number_lem value }
{
    if value.width() <= 64 {
        value.number() as u64
    } else {
        0
    }
}

// The first values, where a state has more than 64 bits.
fn first_wides(alloc: Global, wires: &[StateWire]) -> Result<Vec<Bits>, AllocError>
    ensures { IfOk result (λ values. AreWides wires.now values.items) }
{
    if are_narrow(wires) {
        return Ok(Vec::new(alloc));
    }
    first_values(alloc, wires)
}

fn first_values(alloc: Global, wires: &[StateWire]) -> Result<Vec<Bits>, AllocError>
    ensures { IfOk result (λ values. values.items ≡ first_states wires.now) }
{
    wires.iter().map(|wire| wire.first).collect(alloc)
}

fn are_narrow(wires: &[StateWire]) -> bool
    ensures { IsTrue result ↔ All (λ wire. wire.width ≤ 64) wires.now }
{
    wires.iter().all(|wire| wire.width <= 64)
}

// Each state takes the word of its next node.
fn take_words(wires: &[StateWire], words: &[u64], states: &mut [u64])
    requires stand { All (λ wire. wire.next < length words.now) wires.now }
    requires states { length states.old ≡ length wires.now }
    ensures { states.new ≡ map (λ wire. word_at words.now wire.next) wires.now }
{
    for (state, wire) in wires.iter().enumerate() {
        states[state] = words[wire.next as usize];
    }
}

// Each of the states that have a place takes the value of its next node.
fn take_wides(wires: &[StateWire], net: &Net, words: &[u64], wides: &[Bits], states: &mut [Bits])
    requires stand { All (λ wire. wire.next < length net.now) wires.now }
    requires states { length states.old ≤ length wires.now }
    requires room { HasRoom net.now words.now wides.now }
    requires kept { (values : List BitVector) × Keeps net.now words.now wides.now values (length net.now) }
    ensures { (values : List BitVector) → Keeps net.now words.now wides.now values (length net.now) → states.new ≡ take (length states.old) (next_states wires.now values) }
{
    for state in 0..states.len() {
        states[state] = node(net, wires[state].next, words, wides);
    }
}
