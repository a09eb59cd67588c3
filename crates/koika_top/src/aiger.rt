//! Commands: the text that `aiger` writes.

ghost use Rattle.std.specs.Prelude.{◌≤◌, IfOk, length};
ghost use Rattle.kw_base.specs.Fault.{IfFault};
ghost use Rattle.one_rule.specs.Hosts.{host_specs};
ghost use Rattle.koika_top.specs.Aiger.{HasNoAig, ShowsAig};
ghost use Rattle.front_end.specs.Sources.{longest_source};

use aiger_text::print_aiger;
use front_end::{Lowered, aig_of, has_few_bits, read_source};
use host_fn::HostFn;
use kw_base::Refusal;
use kw_bits::Text;
use std::alloc::Global;

/// The AIGER text of a source's design, where a stimulus for it follows, or the first fault.
pub(crate) fn convert_source(
    alloc: Global,
    hosts: &[HostFn],
    source: &[u8],
) -> Result<Text, Refusal>
    requires { length source.now ≤ longest_source }
    ensures text { IfOk result (ShowsAig (host_specs hosts.now) source.now) }
    ensures refused { IfFault result (HasNoAig (host_specs hosts.now) source.now) }
{
    let spelled = read_source(alloc, hosts, source)?;
    has_few_bits(&spelled.design)?;
    let lowered = Lowered::new(alloc, spelled, hosts)?;
    let aig = aig_of(alloc, &lowered)?;
    let text = print_aiger(alloc, &aig)?;
    Ok(text)
}
