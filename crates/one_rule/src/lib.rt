//! One rule at a time: what a cycle and a run mean, and plain programs that compute them.
//!
//! `specs/Cycle.antt` and `specs/Run.antt` are the definitions that every engine is compared with, `specs/PortRun.antt`
//! says the same cycle by runs that look at a scheduler log, and `specs/Laws.antt` what holds of every cycle and run.
//! The plain engine evaluates rules by `evaluate`, at ports of its own; attempts are made by `alone`.
#![tactic(auto)]

mod cycle;
mod evaluation;
mod externs;
mod laws;
mod rows;
mod rule;
mod stimulus;
mod workload;

pub use cycle::{Fired, State, slow_cycle};
pub use evaluation::{Environment, Interrupt, Outside, Ports, evaluate};
pub use externs::Externs;
pub use laws::{
    a_rule_fires_once_in_a_cycle, a_rule_fires_unless_it_is_blocked,
    a_rule_on_no_path_does_not_fire, a_run_has_a_row_more_than_its_cycles, a_run_is_made_in_parts,
    a_stimulus_gives_inputs_that_fit, a_walk_comes_to_its_end, cycles_of_port_runs_are_cycles,
    each_row_of_a_run_fits, equal_designs_run_alike, systems_that_do_the_same_run_alike,
};
pub use rows::{FiredSet, Inputs, Regs, Row, Rows, first_values, opening};
pub use rule::{alone, note_write, outcome_of};
pub use stimulus::Stimulus;
pub use typed_core::{Alone, Outcome};
pub use workload::Workload;
