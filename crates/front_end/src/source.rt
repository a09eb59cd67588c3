//! Sources: what a source spells, read from its bytes.

ghost use Rattle.std.specs.Prelude.{◌≡◌, ◌≤◌, All, Contains, IfOk, length};
ghost use Rattle.kw_base.specs.Fault.{IfFault};
ghost use Rattle.koika_check.specs.Typing.{IsTypedDesign};
ghost use Rattle.koika_check.specs.declared.checked.Host.{Host};
ghost use Rattle.koika_lower.specs.Lowering.{typed_input_widths};
ghost use Rattle.one_rule.specs.Hosts.{host_specs};
ghost use Rattle.front_end.specs.Names.{AreDistinct, HasWordNames, IsWord-prop, names_of};
ghost use Rattle.front_end.specs.Sources.{IsIllTyped, IsUnread, IsUnspelled, Spells, SpellsDesign, SpellsTree, longest_source};
ghost use Rattle.front_end.specs.Sources as sources;

use crate::shape::shape_of;
use host_fn::HostFn;
use koika_check::{Checked, check};
use koika_parse::parse;
use koika_syntax::{Tree, lex};
use kw_base::{Fault, Refusal};
use one_rule::Stimulus;
use std::alloc::Global;
use stim_report::{Shape, read_stimulus, source_parts};

/// The fault of this number that speaks of the whole source.
pub fn fault_of_source(number: u32) -> Fault
    ensures { result ≡ sources.fault_of_source number }
{
    Fault {
        number,
        line: 0,
        column: 0,
    }
}

/// What a source spells: a well typed design, what texts tell of it, and a stimulus for its inputs.
#[derive(Drop)]
pub struct Spelled {
    pub design: Checked,
    pub shape: Shape,
    pub stimulus: Stimulus,
    ghost names: { HasWordNames design } by { Prim.hlevel IsWord-prop },
    ghost distinct: { AreDistinct (names_of design) },
    ghost shape_fits: { shape ≡ sources.shape_of design },
    ghost stimulus_fits: { stimulus.widths ≡ typed_input_widths design },
}

/// The tree that a source spells with its design part, or the fault of its tokens or of the grammar.
pub fn read_tree(alloc: Global, source: &[u8], design: &[u8]) -> Result<Tree, Refusal>
    requires short { length source.now ≤ longest_source }
    requires cut { design.now ≡ sources.design_part source.now }
    requires within { length design.now ≤ length source.now }
    ensures spelled { IfOk result (SpellsTree source.now) }
    ensures refused { IfFault result (IsUnread source.now) }
{
    let tokens = lex(alloc, design)?;
    parse(alloc, design, &tokens)
}

/// The typed design that a source spells with its design part, or the first fault of it.
pub fn read_design(
    alloc: Global,
    hosts: &[HostFn],
    source: &[u8],
    design: &[u8],
) -> Result<Checked, Refusal>
    requires short { length source.now ≤ longest_source }
    requires cut { design.now ≡ sources.design_part source.now }
    requires within { length design.now ≤ length source.now }
    ensures spelled { IfOk result (SpellsDesign (host_specs hosts.now) source.now) }
    ensures typed { IfOk result IsTypedDesign }
    ensures offered { IfOk result (λ design.
        All (λ (host : Host). Contains (host_specs hosts.now) host.spec) design.hosts) }
    ensures refused { IfFault result (IsIllTyped (host_specs hosts.now) source.now) }
{
    let tree = read_tree(alloc, source, design)?;
    check(alloc, design, &tree, hosts)
}

/// The typed design and the stimulus that a source spells, or the first fault of them. The source is cut once.
pub fn read_source(alloc: Global, hosts: &[HostFn], source: &[u8]) -> Result<Spelled, Refusal>
    requires { length source.now ≤ longest_source }
    ensures spelled { IfOk result (λ it. Spells (host_specs hosts.now) source.now it.design it.stimulus) }
    ensures typed { IfOk result (λ it. IsTypedDesign it.design) }
    ensures offered { IfOk result (λ it.
        All (λ (host : Host). Contains (host_specs hosts.now) host.spec) it.design.hosts) }
    ensures refused { IfFault result (IsUnspelled (host_specs hosts.now) source.now) }
{
    let parts = source_parts(source);
    let design = read_design(alloc, hosts, source, parts.design)?;
    let shape = shape_of(alloc, &design)?;
    let stimulus = read_stimulus(alloc, parts.stimulus, parts.first_line, &shape)?;
    Ok(Spelled {
        design,
        shape,
        stimulus,
    })
}
