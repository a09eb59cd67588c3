//! Designs: the circuits of a lowered design.

ghost use Rattle.std.specs.Prelude.{IfOk};
ghost use Rattle.circuit_eval.specs.Tidy.{IsTidy};
ghost use Rattle.front_end.specs.Aigs.{IsAigOf};
ghost use Rattle.front_end.specs.Circuits.{IsWiredAs};

use crate::lowered::Lowered;
use aig_blast::{Aig, blast};
use circuit_eval::Circuit;
use kw_bits::NoMemory;
use net_sched::build;
use net_simplify::simplify;
use one_rule::Externs;
use std::alloc::Global;
use typed_core::Design;

/// The circuit of the design, made simple.
pub fn circuit_of(alloc: Global, lowered: &Lowered) -> Result<Circuit, NoMemory>
    ensures wired { IfOk result (IsWiredAs lowered.now.checked) }
    ensures tidy { IfOk result IsTidy }
{
    let design: &Design = &lowered.design;
    let externs: &Externs = &lowered.externs;
    design.recall();
    let built = build(alloc, design, externs)?;
    let simple = simplify(alloc, &built)?;
    Ok(simple)
}

/// The bit-level circuit of the design.
pub fn aig_of(alloc: Global, lowered: &Lowered) -> Result<Aig, NoMemory>
    ensures { IfOk result (IsAigOf lowered.now.checked) }
{
    let circuit = circuit_of(alloc, lowered)?;
    let aig = blast(alloc, &circuit)?;
    Ok(aig)
}
