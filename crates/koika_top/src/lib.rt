//! The commands of the program: arguments and a source's bytes in, a text or a refusal out.
//!
//! `specs/Answer.antt` says what the program answers, and `specs/Calls.antt` how the status, what was read and what was
//! written are tied to it: the contract of `run`, and of `run_here`, which is proved to return, is one record there.
//! The program's `main` calls `run`.
#![tactic(auto)]

mod aig_run;
mod aiger;
mod circuit_read;
mod circuit_run;
mod circuit_shapes;
mod circuits;
mod compile;
mod crew;
mod design_run;
mod ends;
mod engine;
mod engine_kind;
mod generator;
mod given;
mod journal_run;
mod journaled;
mod last_row;
mod laws;
mod machine_engine;
mod machine_run;
mod plain_engine;
mod program;
mod reads;
mod recheck;
mod shown;
mod tell;
mod teller;
mod text_circuit;
mod usage;
mod watch;
mod words;
mod workers_engine;

pub use circuit_shapes::circuit_shape;
pub use engine_kind::EngineKind;
pub use front_end::{Answer, Status};
pub use journaled::{Journaled, run_journal};
pub use laws::{
    a_printed_tree_is_read_again, compiled_runs_the_same, converted_runs_the_same,
    generated_as_printed, joined_spells_the_same, journaled_or_refused, journaled_runs_the_same,
    light_or_refused, numbers, one_answer, one_status, some_aig, some_answer, some_circuit,
    some_journal, some_recheck, spelled_or_refused,
};
pub use program::{run, run_here};
pub use shown::Shown;
pub use words::Command;
