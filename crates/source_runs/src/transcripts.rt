//! Transcripts: a file with a command in its first line, and then what it writes.

use crate::PIECE;
use crate::runs::{run, words_of};
use std::io::Write;
use std::sync::Wait;
use std::thread::Threads;
use std::{fs, io};

/// Says whether a transcript has what the command in its first line writes, and where it hasn't, writes that.
pub(crate) fn run_transcript(
    rt: &HostRuntime,
    threads: &(impl Threads + Wait + Sync),
    file: &str,
) -> io::Result<()> {
    let transcript = fs::read_to_string(rt, file)?;
    let (line, answer) = transcript.as_str().split_once('\n').unwrap_or(("", ""));
    let (command, name) = line.split_once(" < ").unwrap_or(("", ""));
    let command = command.strip_prefix("$ ./koika ").unwrap_or("");
    let source = fs::read_to_string(rt, name)?;
    let words = words_of(rt.alloc(), command)?;
    let ended = run(
        rt,
        threads,
        words.as_slice(),
        source.as_bytes(),
        PIECE,
        &[],
        &[],
    )?;
    if ended.written.as_slice() == answer.as_bytes() {
        println!(rt; "as written")
    } else {
        rt.stdout().write_all(ended.written.as_slice())
    }
}
