//! Sources and sinks: how a call that fails is known, and readers and writers of std.

ghost use Rattle.std.specs.Prelude.{◌≤◌, IfOk};

use kw_io::{MemSink, MemSource, ReadAll, StdSink, StdSource, WriteFault, read_all, write_all};
use std::io::{self, ErrorKind, Read, Write};
use std::test::Fail;

const TEXT: &[u8] = b"one rule at a time";

// A reader and a writer that a signal interrupts, that moves four bytes, and then fails for good.
#[derive(Drop)]
struct Unsteady {
    calls: u8,
}

impl Unsteady {
    fn next(&mut self) -> io::Result<usize>
        ensures { IfOk result (λ n. n ≤ 4) }
    {
        self.calls = self.calls.saturating_add(1);
        match self.calls {
            1 => Err(ErrorKind::Interrupted.into()),
            2 => Ok(4),
            _ => Err(ErrorKind::BrokenPipe.into()),
        }
    }
}

impl Read for Unsteady {
    fn read(&mut self, buf: &mut [u8]) -> io::Result<usize> {
        let count = self.next()?.min(buf.len());
        Ok(count)
    }
}

impl Write for Unsteady {
    fn write(&mut self, buf: &[u8]) -> io::Result<usize> {
        let count = self.next()?.min(buf.len());
        Ok(count)
    }

    fn flush(&mut self) -> io::Result<()> {
        Ok(())
    }
}

#[test]
fn std_readers_are_sources(rt: HostRuntime) -> Result<(), Fail> {
    let alloc = rt.alloc();
    let mut known = StdSource::new(TEXT);
    assert_eq!(rt; read_all(alloc, &mut known, 18)?.as_slice(), TEXT);
    let mut unsteady = StdSource::new(Unsteady { calls: 0 });
    assert_eq!(rt;
        read_all(alloc, &mut unsteady, 18).err(),
        Some(ReadAll::Fault)
    );
    Ok(())
}

#[test]
fn std_writers_are_sinks(rt: HostRuntime) -> Result<(), Fail> {
    let mut bytes = Vec::new(rt.alloc());
    write_all(&mut StdSink::new(&mut bytes), TEXT)?;
    assert_eq!(rt; bytes.as_slice(), TEXT);
    let mut unsteady = StdSink::new(Unsteady { calls: 0 });
    assert_eq!(rt;
        write_all(&mut unsteady, TEXT).err(),
        Some(WriteFault { written: 4 })
    );
    let mut short = [0u8; 8];
    let mut full = StdSink::new(short.as_mut_slice());
    assert_eq!(rt;
        write_all(&mut full, TEXT).err(),
        Some(WriteFault { written: 8 })
    );
    Ok(())
}

// The second call of each fails, in pieces of seven bytes.
#[test]
fn a_failed_call_is_counted(rt: HostRuntime) -> Result<(), Fail> {
    let alloc = rt.alloc();
    let mut source = MemSource::new(TEXT.to_vec(alloc)?, 7, vec![in alloc; 2]?);
    assert_eq!(rt;
        read_all(alloc, &mut source, 18).err(),
        Some(ReadAll::Fault)
    );
    assert_eq!(rt; source.left(), b"e at a time".as_slice());
    assert_eq!(rt; (source.calls(), source.faults()), (2, 1));
    let mut sink = MemSink::new(alloc, 18, 7, vec![in alloc; 2]?)?;
    assert_eq!(rt;
        write_all(&mut sink, TEXT).err(),
        Some(WriteFault { written: 7 })
    );
    assert_eq!(rt; sink.written(), b"one rul".as_slice());
    assert_eq!(rt; (sink.calls(), sink.faults()), (2, 1));
    Ok(())
}
