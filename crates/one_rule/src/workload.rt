//! Engines: what a run is made of.

ghost use Rattle.std.specs.Prelude.{◌≡◌, IfOk};
ghost use Rattle.std.specs.Arc.{arc_value};
ghost use Rattle.typed_core.specs.Valid.{externs_of};
ghost use Rattle.one_rule.specs.Externs.{kept};
ghost use Rattle.one_rule.specs.Stimulus.{StimulusFits};

use crate::externs::Externs;
use crate::stimulus::Stimulus;
use kw_bits::NoMemory;
use std::sync::Arc;
use typed_core::Design;

/// What a run is made of, as threads share it: a design, what its rules ask outside it, and a stimulus for its inputs.
/// They fit together.
#[derive(Drop)]
pub struct Workload {
    pub design: Arc<Design>,
    pub externs: Arc<Externs>,
    pub stimulus: Arc<Stimulus>,
    ghost externs_fit: { kept (arc_value externs) ≡ externs_of (arc_value design) },
    ghost stimulus_fits: { StimulusFits (arc_value design) (arc_value stimulus) },
}

impl Workload {
    /// The same once more. It takes no memory, but counts.
    pub fn try_clone(&self) -> Result<Workload, NoMemory>
        ensures design { IfOk result (λ same. arc_value same.design ≡ arc_value self.now.design) }
        ensures externs { IfOk result (λ same. arc_value same.externs ≡ arc_value self.now.externs) }
        ensures stimulus { IfOk result (λ same. arc_value same.stimulus ≡ arc_value self.now.stimulus) }
    {
        Ok(Workload {
            design: Arc::try_clone(&self.design)?,
            externs: Arc::try_clone(&self.externs)?,
            stimulus: Arc::try_clone(&self.stimulus)?,
        })
    }
}
