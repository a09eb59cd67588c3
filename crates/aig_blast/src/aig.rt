//! An and-inverter graph with latches, and the words and bits that its inputs, latches and outputs stand for.

use crate::gate::{Gate, Lit};
use kw_bits::{Bits, Sequence, Text};
use std::marker::Model;

/// A word of inputs: its name and how many there are.
#[derive(Debug, Drop)]
pub struct InputWord {
    pub name: Text,
    pub width: u32,
}

/// A word of latches: its name, its value before the first step, and the literals of its next bits, bit 0 first.
#[derive(Debug, Drop)]
pub struct LatchWord {
    pub name: Text,
    pub first: Bits,
    pub nexts: Sequence<Lit>,
}

/// An output: its name and its literal.
#[derive(Debug, Drop)]
pub struct OutputBit {
    pub name: Text,
    pub lit: Lit,
}

/// A valid bit-level circuit, an and-inverter graph with latches, seen by contracts as its parts. Variable 0 is false, then
/// come the bits of the inputs, those of the latches and the gates, each in order.
#[derive(Drop)]
pub struct Aig {
    pub inputs: Sequence<InputWord>,
    pub latches: Sequence<LatchWord>,
    pub outputs: Sequence<OutputBit>,
    pub gates: Sequence<Gate>,
}

impl Model for Aig {
    ghost use Rattle.aig_blast.specs.Aigs.{AigParts, IsAig};

    ghost Value = { AigParts };

    ghost view = { λ a. record { inputs = a.inputs; latches = a.latches; outputs = a.outputs; gates = a.gates } };

    ghost invariant = { λ a. IsAig (record { inputs = a.inputs; latches = a.latches; outputs = a.outputs; gates = a.gates }) };
}

impl Aig {
    ghost use Rattle.aig_blast.specs.Aigs.{IsAig};

    /// What each bit-level circuit is by its type: made of valid parts. It does nothing, and is called for its contract.
    pub fn recall(&self)
        ensures { IsAig self.now }
    {
        let _ = &self.gates;
    }
}
