//! Sessions: a design is read from a stream, then a line of its stimulus at a time, and each row is written before the
//! next read.
//!
//! `specs/Lines.antt` says how the bytes of a session are cut and what its lines give, `specs/Replies.antt` what is
//! written, and `specs/Sessions.antt` what is promised of the call `step`, clause by clause. It is proved to return for
//! every source. The lab calls it.
#![tactic(auto)]

mod head;
mod laws;
mod line_run;
mod reader;
mod session;
mod stop;

pub use laws::{one_reply, some_reply};
pub use session::step;
