//! Designs: a typed design lowered to the core.

ghost use Rattle.std.specs.Prelude.{◌≡◌, All, Contains, IfOk};
ghost use Rattle.std.specs.Arc.{arc_value};
ghost use Rattle.koika_check.specs.Typing.{IsTypedDesign};
ghost use Rattle.koika_check.specs.declared.checked.Host.{Host};
ghost use Rattle.koika_lower.specs.Lowering.{IsLowered, typed_input_widths};
ghost use Rattle.one_rule.specs.Externs.{kept};
ghost use Rattle.one_rule.specs.Hosts.{host_specs};
ghost use Rattle.typed_core.specs.Valid.{externs_of};
ghost use Rattle.front_end.specs.Names.{AreDistinct, HasWordNames, IsWord-prop, names_of};
ghost use Rattle.front_end.specs.Sources.{shape_of};

use crate::source::Spelled;
use host_fn::HostFn;
use koika_check::Checked;
use koika_lower::lower;
use kw_bits::NoMemory;
use one_rule::{Externs, Stimulus};
use std::alloc::Global;
use std::sync::Arc;
use stim_report::Shape;
use typed_core::Design;

/// A typed design, what it is lowered to with the tables and host functions that its rules ask, and a stimulus for its
/// inputs: what each engine runs, and what may be shared.
#[derive(Drop)]
pub struct Lowered {
    pub checked: Checked,
    pub shape: Shape,
    pub design: Arc<Design>,
    pub externs: Arc<Externs>,
    pub stimulus: Arc<Stimulus>,
    ghost names: { HasWordNames checked } by { Prim.hlevel IsWord-prop },
    ghost distinct: { AreDistinct (names_of checked) },
    ghost shape_fits: { shape ≡ shape_of checked },
    ghost lowered: { IsLowered checked (arc_value design) },
    ghost externs_fit: { kept (arc_value externs) ≡ externs_of (arc_value design) },
    ghost stimulus_fits: { (arc_value stimulus).widths ≡ typed_input_widths checked },
}

impl Lowered {
    /// What a source spells, lowered, with the host functions that are offered.
    pub fn new(alloc: Global, spelled: Spelled, hosts: &[HostFn]) -> Result<Lowered, NoMemory>
        requires typed { IsTypedDesign spelled.design }
        requires offered { All (λ (host : Host). Contains (host_specs hosts.now) host.spec) spelled.design.hosts }
        ensures checked { IfOk result (λ lowered. lowered.checked ≡ spelled.design) }
        ensures stimulus { IfOk result (λ lowered. arc_value lowered.stimulus ≡ spelled.stimulus) }
    {
        let lowered = lower(alloc, &spelled.design)?;
        let asked = Externs::new(alloc, &lowered, hosts)?;
        let design = Arc::new(alloc, lowered)?;
        let externs = Arc::new(alloc, asked)?;
        let stimulus = Arc::new(alloc, spelled.stimulus)?;
        Ok(Lowered {
            checked: spelled.design,
            shape: spelled.shape,
            design,
            externs,
            stimulus,
        })
    }
}
