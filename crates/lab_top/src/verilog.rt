//! Commands: the Verilog module of a design.

ghost use Rattle.std.specs.Prelude.{◌≤◌, IfOk, length};
ghost use Rattle.kw_base.specs.Fault.{IfFault};
ghost use Rattle.koika_check.specs.Typing.{IsTypedDesign};
ghost use Rattle.one_rule.specs.Hosts.{host_specs};
ghost use Rattle.front_end.specs.Sources.{IsUnspelled, longest_source};
ghost use Rattle.lab_top.specs.OfDesigns.{TellsOf};
ghost use Rattle.lab_top.specs.Verilog.{IsModuleOf};

use front_end::{Lowered, circuit_of, circuits_have_the_first_values, read_source};
use host_fn::HostFn;
use kw_base::Refusal;
use kw_bits::{NoMemory, Text};
use std::alloc::Global;
use verilog_text::{Options as Ports, a_reset_leaves_the_first_values, module_text};

/// The Verilog text of a source's design, where a stimulus for it follows, or the first fault.
pub(crate) fn verilog_source(
    alloc: Global,
    ports: Ports,
    hosts: &[HostFn],
    source: &[u8],
) -> Result<Text, Refusal>
    requires { length source.now ≤ longest_source }
    ensures text { IfOk result (TellsOf (IsModuleOf ports) (host_specs hosts.now) source.now) }
    ensures refused { IfFault result (IsUnspelled (host_specs hosts.now) source.now) }
{
    let spelled = read_source(alloc, hosts, source)?;
    let lowered = Lowered::new(alloc, spelled, hosts)?;
    let text = design_text(alloc, ports, &lowered)?;
    Ok(text)
}

// The Verilog text of a design.
fn design_text(alloc: Global, ports: Ports, lowered: &Lowered) -> Result<Text, NoMemory>
    requires { IsTypedDesign lowered.now.checked }
    ensures { IfOk result (IsModuleOf ports lowered.now.checked) }
{
    circuits_have_the_first_values();
    a_reset_leaves_the_first_values();
    let circuit = circuit_of(alloc, lowered)?;
    let text = module_text(alloc, &circuit, ports)?;
    Ok(text)
}
