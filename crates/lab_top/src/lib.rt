//! The lab: arguments and a source's bytes in, a text or a refusal out. It says why rules fire or don't and what may be
//! refused, writes waves and Verilog, and takes certificates that rules never fire.
//!
//! `specs/Answer.antt` says what the lab is as a program: its words, its answers and its statuses. `specs/Calls.antt`
//! says what is promised of each call: what `front_end` says of every program, and by which words a call fails. The
//! lab's `main` calls `lab`, which is proved to return.
#![tactic(auto)]

mod answer;
mod fault_number;
mod given;
mod laws;
mod lint;
mod profile;
mod program;
mod runs;
mod status;
mod verilog;
mod waves;
mod why;
mod words;

pub use answer::LabAnswer;
pub use laws::{
    claims_are_taken, never_both, numbers, one_answer, one_status, refused_or_spelled, some_answer,
};
pub use program::lab;
pub use status::LabStatus;
pub use words::Command;
