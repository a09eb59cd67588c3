//! Commands: the text that `compile` writes.

ghost use Rattle.std.specs.Prelude.{◌≤◌, IfOk, length};
ghost use Rattle.kw_base.specs.Fault.{IfFault};
ghost use Rattle.one_rule.specs.Hosts.{host_specs};
ghost use Rattle.koika_top.specs.Compile.{ShowsCircuit};
ghost use Rattle.front_end.specs.Sources.{IsUnspelled, longest_source};

use crate::circuits::lines_of;
use btor2_text::print_lines;
use front_end::{Lowered, read_source};
use host_fn::HostFn;
use kw_base::Refusal;
use kw_bits::Text;
use std::alloc::Global;

/// The BTOR2 text of a source's design, where a stimulus for it follows, or the first fault.
pub(crate) fn compile_source(
    alloc: Global,
    hosts: &[HostFn],
    source: &[u8],
) -> Result<Text, Refusal>
    requires { length source.now ≤ longest_source }
    ensures text { IfOk result (ShowsCircuit (host_specs hosts.now) source.now) }
    ensures refused { IfFault result (IsUnspelled (host_specs hosts.now) source.now) }
{
    let spelled = read_source(alloc, hosts, source)?;
    let lowered = Lowered::new(alloc, spelled, hosts)?;
    let lines = lines_of(alloc, &lowered)?;
    let text = print_lines(alloc, &lines)?;
    Ok(text)
}
