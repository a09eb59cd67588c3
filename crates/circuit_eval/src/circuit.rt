//! Circuits: states, inputs and outputs over a net, valid by their type.

ghost use Rattle.std.specs.Prelude.{◌≡◌, ◌↔◌, IsSome, IfSome};

use crate::validity::is_circuit;
use kw_bits::{Bits, Sequence, Text};
use net_graph::{Net, NetId};
use std::marker::Model;

/// A state: its name, its width, its first value and the node that has its next one.
#[derive(Debug, Drop)]
pub struct StateWire {
    pub name: Text,
    pub width: u32,
    pub first: Bits,
    pub next: NetId,
}

/// An input: its name and its width.
#[derive(Debug, Drop)]
pub struct InputWire {
    pub name: Text,
    pub width: u32,
}

/// An output: its name and the node that has its value.
#[derive(Debug, Drop)]
pub struct OutputWire {
    pub name: Text,
    pub id: NetId,
}

/// What a circuit is made of.
#[derive(Drop)]
pub struct Wires {
    pub net: Net,
    pub states: Sequence<StateWire>,
    pub inputs: Sequence<InputWire>,
    pub outputs: Sequence<OutputWire>,
}

/// A valid circuit, seen by contracts as its wires.
#[derive(Drop)]
pub struct Circuit {
    pub net: Net,
    pub states: Sequence<StateWire>,
    pub inputs: Sequence<InputWire>,
    pub outputs: Sequence<OutputWire>,
}

impl Model for Circuit {
    ghost use Rattle.circuit_eval.specs.declared.circuit.Wires.{Wires};

    ghost Value = { Wires };

    ghost use Rattle.circuit_eval.specs.Circuits.{IsCircuit};

    ghost view = { λ c. record { net = c.net; states = c.states; inputs = c.inputs; outputs = c.outputs } };

    ghost invariant = { λ c. IsCircuit (record { net = c.net; states = c.states; inputs = c.inputs; outputs = c.outputs }) };
}

impl Circuit {
    ghost use Rattle.circuit_eval.specs.Circuits.{IsCircuit};

    /// What each circuit is by its type: made of valid wires. It does nothing, and is called for its contract.
    pub fn recall(&self)
        ensures { IsCircuit self.now }
    {
        let _ = &self.net;
    }

    /// The circuit of these wires, if they make one.
    pub fn new(wires: Wires) -> Option<Circuit>
        ensures some { IsSome result ↔ IsCircuit wires }
        ensures wires { IfSome result (λ circuit. circuit ≡ wires) }
    {
        if !is_circuit(&wires) {
            return None;
        }
        let Wires {
            net,
            states,
            inputs,
            outputs,
        } = wires;
        Some(Circuit {
            net,
            states,
            inputs,
            outputs,
        })
    }
}
