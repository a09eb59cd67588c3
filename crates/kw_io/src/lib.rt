//! Where bytes come from and where they go: sources and sinks that may fail, over the system and in memory.
//!
//! Contracts speak of the bytes left and written, where they are exposed, in the words of std
//! (`Rattle.std.specs.Io.KnownBytes`), and of counts of faults that rise (`specs/Faults.antt` of `kw_bits`). The top
//! crate reads its whole input and writes its whole output through `read_all` and `write_all`.
#![tactic(auto)]

mod calls;
mod failed;
mod mem_sink;
mod mem_source;
mod program;
mod reading;
mod sink;
mod source;
mod std_sink;
mod std_source;
mod writing;

pub use failed::Failed;
pub use mem_sink::MemSink;
pub use mem_source::MemSource;
pub use program::{NO_ARGUMENTS, print_ended};
pub use reading::{ReadAll, read_all};
pub use sink::Sink;
pub use source::Source;
pub use std_sink::StdSink;
pub use std_source::StdSource;
pub use writing::{WriteFault, write_all};
