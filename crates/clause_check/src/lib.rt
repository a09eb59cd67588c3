//! Clauses over numbered variables, their DIMACS text, and refutations of them: texts in the form LRAT, which SAT solvers write.
//!
//! `specs/Clauses.antt` says what it means that an assignment satisfies clauses, `specs/Dimacs.antt` which text they have.
//! `specs/Refutations.antt` says which texts refute a formula, and which fault is the first of one that doesn't:
//! `specs/Steps.antt` has the forms of lines, `specs/Propagation.antt` says when a clause follows by its hints. The law
//! `a_refuted_formula_is_unsatisfiable` says what a refutation is good for. The crate knows nothing of circuits.
#![tactic(auto)]

mod database;
mod dimacs;
pub mod fault_number;
mod formula;
mod laws;
mod left;
mod literal;
mod refutation;
mod step;
#[cfg(test)]
mod tests;
mod token;
mod values;

pub use dimacs::push_dimacs;
pub use formula::{Clauses, First, Formula, first_clause};
pub use laws::a_refuted_formula_is_unsatisfiable;
pub use literal::Literal;
pub use refutation::check_refutation;
