//! Attempts at rules on guessed registers, and whether they may be committed.
//!
//! `specs/Trace.antt` says which events are a trace of a rule, `specs/Verdict.antt` what is answered to an attempt, and
//! `specs/Past.antt` what commits a `Past` has. An `Attempt` is a trace of its rule by its type, whoever made it.
//! `specs/Setting.antt` says what an attempt is for, and `specs/Seats.antt` what a worker needs of its seat at a board.
//! `board_core` stores attempts and asks for the `verdict` on them.
#![tactic(auto)]

mod cause;
mod entry;
mod first;
mod gate;
mod job;
mod judge;
mod laws;
mod past;
mod report;
mod retrace;
mod seat;
mod sources;
mod traced;

pub use cause::{Cause, StaleRead, Verdict};
pub use entry::{Entry, Settled, Submitted, Taken};
pub use gate::{Gate, NoGate};
pub use job::{Job, JobAnswer, attempt};
pub use judge::verdict;
pub use laws::{
    a_rule_alone_gives_a_trace, a_stale_read_was_made_on_other_registers,
    a_verdict_tells_what_the_rule_does, an_attempt_may_be_made_on_any_registers,
    equal_designs_have_the_same_traces,
};
pub use past::Past;
pub use report::{Ending, Report};
pub use seat::{BoardSeat, Counts, Task};
pub use traced::Attempt;
