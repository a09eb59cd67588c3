//! The core language: designs whose rules are actions on bit vectors.
//!
//! `specs/Evaluation.antt` says what an action evaluates to, `specs/Alone.antt` what a rule does when it runs alone,
//! `specs/Clash.antt` which accesses cannot follow which, `specs/Valid.antt` which designs are valid. A `Design`
//! is valid by its type. The checker's lowering makes designs; every engine runs them.
#![tactic(auto)]

mod access;
mod action;
mod design;
mod equality;
mod laws;
pub mod limits;
mod outcome;
mod schedule;
mod scope;
mod validity;
mod width;

pub use access::{Access, Event, Events, apply};
pub use action::{Action, OneOp, TwoOp};
pub use design::{Design, InputDecl, Next, Node, Parts, RegDecl, Rule};
pub use kw_bits::{HostSpec, TableSpec};
pub use laws::{
    accesses_clash_by_their_ports, actions_keep_what_ports_keep, equal_designs_do_the_same,
    equality_is_an_equivalence,
};
pub use outcome::{Alone, Outcome, Stopped};
pub use scope::Scope;
