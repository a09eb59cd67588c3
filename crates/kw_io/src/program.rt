//! Streams: what every program says of its own end.

use std::io;

/// The exit status where the arguments can't be taken and memory isn't the cause, as where they aren't UTF-8. No call
/// answers it.
pub const NO_ARGUMENTS: u8 = 6;

/// Prints the status of a run over memory, and how many bytes of a whole answer it wrote.
pub fn print_ended(rt: &impl Print, status: u8, written: &[u8], whole: &[u8]) -> io::Result<()> {
    if whole.starts_with(written) {
        println!(rt;
            "status {status}, {} of {} bytes",
            written.len(),
            whole.len()
        )
    } else {
        println!(rt; "status {status}, other bytes")
    }
}
