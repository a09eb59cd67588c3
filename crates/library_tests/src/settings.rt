//! A design with what its rules ask and what they are given.

ghost use Rattle.std.specs.Prelude.{◌≡◌, []};
ghost use Rattle.typed_core.specs.Valid.{externs_of};
ghost use Rattle.one_rule.specs.Externs.{kept};
ghost use Rattle.one_rule.specs.Stimulus.{StimulusFits};

use kw_bits::NoMemory;
use one_rule::{Externs, Stimulus};
use std::alloc::Global;
use typed_core::Design;

/// Externs and a stimulus that fit a design.
#[derive(Drop)]
pub(crate) struct Setting {
    pub(crate) design: Design,
    pub(crate) externs: Externs,
    pub(crate) stimulus: Stimulus,
    ghost externs_fit: { kept externs ≡ externs_of design },
    ghost stimulus_fits: { StimulusFits design stimulus },
}

/// The setting of a design that asks nothing.
pub(crate) fn setting_of(alloc: Global, design: Design) -> Result<Setting, NoMemory>
    requires inputs { design.inputs ≡ [] }
    requires hosts { design.hosts ≡ [] }
{
    let externs = Externs::new(alloc, &design, &[])?;
    let stimulus = Stimulus::new(alloc, Vec::new(alloc));
    Ok(Setting {
        design,
        externs,
        stimulus,
    })
}
