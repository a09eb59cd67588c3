//! Sessions, watched: what the lab has written when it reads on.

use crate::words_of;
use kw_io::{Failed, MemSource, Source, StdSink};
use lab_top::lab;
use std::io;

// A source in memory that says on standard output when it is read on after further lines.
#[derive(Drop)]
struct Watching<'a> {
    rt: &'a HostRuntime,
    source: MemSource,
    // How many lines it gave, and the last of them after which it was read on.
    given: u64,
    said: u64,
}

impl Source for Watching<'_> {
    ghost use Rattle.std.specs.Prelude.{Some};

    ghost left = { λ s. Some s.source.left };

    ghost faults = { λ s. s.source.calls.failed };

    fn read(&mut self, into: &mut [u8]) -> Result<usize, Failed> {
        if self.given != self.said {
            let _ = say_read(self.rt, self.given);
            self.said = self.given;
        }
        let count = self.source.read(into)?;
        self.given = self.given.saturating_add(line_feeds(&into[..count]));
        Ok(count)
    }
}

fn say_read(rt: &HostRuntime, line: u64) -> io::Result<()> {
    println!(rt; "read on after line {line}")
}

fn line_feeds(bytes: &[u8]) -> u64 {
    bytes.iter().filter(|byte| **byte == b'\n').count() as u64
}

/// Runs the lab on a source of which a read gives at most that many bytes, and says when it is read on. What the lab
/// writes goes to standard output at once, so that each line is where it was written.
pub(crate) fn run_watching(
    rt: &HostRuntime,
    words: &str,
    source: &[u8],
    piece: usize,
) -> io::Result<()> {
    let alloc = rt.alloc();
    let words = words_of(alloc, words)?;
    let bytes = Vec::from_slice(alloc, source)?;
    let mut source = Watching {
        rt,
        source: MemSource::new(bytes, piece.max(1), Vec::new(alloc)),
        given: 0,
        said: 0,
    };
    let mut sink = StdSink::new(rt.stdout());
    let status = lab(alloc, words.as_slice(), &[], &mut source, &mut sink);
    println!(rt; "status {}", status.number())
}
