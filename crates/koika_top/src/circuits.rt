//! Designs: the lines of a lowered design's circuit.

ghost use Rattle.std.specs.Prelude.{◌≡◌, IfOk};
ghost use Rattle.btor2_text.specs.Printable.{numbered_from};
ghost use Rattle.circuit_eval.specs.Tidy.{IsTidy};
ghost use Rattle.koika_check.specs.Typing.{IsTypedDesign};
ghost use Rattle.front_end.specs.Names.{HasWordNames};
ghost use Rattle.front_end.specs.Circuits.{IsWiredAs};
ghost use Rattle.koika_top.specs.Compile.{AreCircuitOf};

use btor2_net::to_lines;
use btor2_text::Lines;
use circuit_eval::Circuit;
use front_end::{Lowered, circuit_of};
use koika_assert::add_bads;
use koika_check::Checked;
use kw_bits::NoMemory;
use std::alloc::Global;

/// The lines of the design's circuit, made simple, and after them a bad line for each rule that is marked.
pub(crate) fn lines_of(alloc: Global, lowered: &Lowered) -> Result<Lines, NoMemory>
    requires { IsTypedDesign lowered.now.checked }
    ensures circuit { IfOk result (AreCircuitOf lowered.now.checked) }
    ensures numbers { IfOk result (λ lines. numbered_from 1 lines ≡ lines) }
{
    let circuit = circuit_of(alloc, lowered)?;
    circuit_lines(alloc, &lowered.checked, &circuit)
}

// The lines of a design's circuit, and after them a bad line for each rule that is marked.
fn circuit_lines(alloc: Global, design: &Checked, circuit: &Circuit) -> Result<Lines, NoMemory>
    requires typed { IsTypedDesign design.now }
    requires names { HasWordNames design.now }
    requires wired { IsWiredAs design.now circuit.now }
    requires tidy { IsTidy circuit.now }
    ensures circuit { IfOk result (AreCircuitOf design.now) }
    ensures numbers { IfOk result (λ lines. numbered_from 1 lines ≡ lines) }
{
    let lines = to_lines(alloc, circuit)?;
    let marked = add_bads(alloc, &lines, design.asserts())?;
    Ok(marked)
}
