//! The lowering: the design of the core that a well typed design is lowered to, each rule of which does alone what it did.
//! `koika_top` calls it for a run.
//!
//! `specs/Lowering.antt` says what the design is, `specs/inner/Simulation.antt` what it is that an action stands for an expression.
//! Operands keep their order, a function's body is lowered anew at each call, parts of values become slices, and a slice of all
//! bits, an extension to the same width and a unit beside another action are left out, since engines interpret actions as given.
//! Time and memory grow as the design's weight does.
//!
//! `meaning_laws` says of the typed tree's meaning that it is never stuck and that values are of their types, by
//! `specs/Guarded.antt`.
#![tactic(auto)]

mod applying;
mod binding;
mod choosing;
mod declarations;
mod expressions;
mod forms;
mod joining;
mod laws;
mod leaves;
mod lowered;
mod lowering;
mod meaning_laws;
mod packing;
mod selecting;
mod type_width;

pub use laws::lowerings_do_alike;
pub use lowering::lower;
pub use meaning_laws::{
    evaluates_to_its_type, never_stuck, packed_is_unpacked, unpacked_is_packed,
};
