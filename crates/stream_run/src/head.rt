//! Sessions: the design of a source, read up to its line `%%`.

ghost use Rattle.std.specs.Prelude.{◌≡◌, ◌≤◌, IfOk, IfErr, IsErrOf, length};
ghost use Rattle.kw_bits.specs.Faults.{Rose};
ghost use Rattle.front_end.specs.Sources.{longest_source};
ghost use Rattle.stim_report.specs.Cuts as cuts;
ghost use Rattle.stream_run.specs.inner.Reading.{HasNoHead, TakesHead, to_come};

use crate::reader::Reader;
use crate::stop::Stop;
use front_end::fault_of_source;
use kw_base::fault_number::SOURCE_TOO_LONG;
use kw_base::texts::without_return;
use kw_io::Source;
use std::alloc::Global;

/// How many bytes the head of a source may have, and a line after it.
pub(crate) const LONGEST: usize = 1_048_576;

/// The bytes of a source up to the end of its line `%%`, or all of them.
#[derive(Debug, Drop)]
pub(crate) struct Head {
    pub(crate) bytes: Vec<u8>,
    /// Whether the line `%%` came with its line feed, so that lines may follow.
    pub(crate) is_open: bool,
}

impl Head {
    /// Reads the head of a source.
    pub(crate) fn read<S: Source>(
        alloc: Global,
        reader: &mut Reader,
        source: &mut S,
    ) -> Result<Head, Stop>
        ensures taken { IfOk result (λ head. TakesHead (to_come reader.old (S.left source.old))
            (to_come reader.new (S.left source.new)) head.bytes.items head.is_open) }
        ensures short { IfOk result (λ head. length head.bytes.items ≤ longest_source) }
        ensures refused { IfErr result (HasNoHead (to_come reader.old (S.left source.old))) }
        ensures read_fault { IsErrOf result Stop.ReadFault → Rose (S.faults source.old) (S.faults source.new) }
        ensures never_falls { S.faults source.old ≤ S.faults source.new }
    {
        let mut bytes = Vec::new(alloc);
        'line: loop {
            let line = reader.read_line(alloc, source, LONGEST - bytes.len())?;
            line.append_to(&mut bytes)?;
            if bytes.len() > LONGEST {
                return Err(Stop::Fault(fault_of_source(SOURCE_TOO_LONG)));
            }
            if !line.is_whole {
                return Ok(Head {
                    bytes,
                    is_open: false,
                });
            }
            if is_mark(&line.bytes) {
                return Ok(Head {
                    bytes,
                    is_open: true,
                });
            }
        }
    }
}

// Whether a line is the one that ends a design.
fn is_mark(line: &[u8]) -> bool
    ensures { result ≡ cuts.is_mark line.now }
{
    without_return(line) == b"%%".as_slice()
}
