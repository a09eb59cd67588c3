//! Rules as wires: both arms of an `If` become wires, and each access is guarded by the conditions round it.
//!
//! `specs/Wires.antt` says for which events wires stand, and when a rule's wires mean its port run; `specs/Gates.antt`
//! says what the small gates are. The maker of whole circuits calls `rule_net` for each node of a scheduler, and the
//! gates.
#![tactic(auto)]

mod gates;
mod laws;
mod lookup;
mod operation;
mod operators;
mod part;
mod ports;
mod rule;
mod wires;

pub use gates::{both, both_not, choice, constant, either, opposite};
pub use laws::values_of_a_net_are_those_of_its_beginnings;
pub use rule::rule_net;
pub use wires::{LogWires, PortWires, RuleNet};
