//! Nets: nodes that are shared, each an operator on nodes before it, and their values.
//!
//! Contracts see a `Net` as the list of its operators. They cite the operators' formulas in `specs/Operators.antt`,
//! where an operator may be in `specs/Nets.antt`, and the values of a net's nodes in `specs/Values.antt`. What holds
//! of every net is in `specs/Laws.antt`. `net_action` and `net_sched` make nets of rules and designs, `net_simplify`
//! and `btor2_net` of circuits and texts, and `circuit_eval` evaluates them.
#![tactic(auto)]

mod evaluation;
mod laws;
mod net;
mod node;
mod operators;
mod widths;

pub use evaluation::{evaluate, value_of};
pub use laws::{nodes_keep_their_values, values_have_their_widths};
pub use net::Net;
pub use node::{NetId, NetOne, NetOp, NetTwo};
