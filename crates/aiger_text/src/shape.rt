//! What a report of a graph names: its input words, its latch words and its outputs.

ghost use Rattle.std.specs.Prelude.{◌≡◌, IfOk};
ghost use Rattle.aiger_text.specs.AigShapes as shapes;

use aig_blast::Aig;
use kw_bits::{NoMemory, Text};
use std::alloc::Global;
use stim_report::{NameWidth, Shape, try_map};

/// What reports show of a bit-level circuit: its words of inputs, its words of latches, and in place of rules its
/// outputs.
pub fn aig_shape(alloc: Global, aig: &Aig) -> Result<Shape, NoMemory>
    ensures { IfOk result (λ shape. shape ≡ shapes.shape_of aig.now) }
{
    let inputs = try_map(alloc, aig.inputs.as_slice(), |word| {
        NameWidth::of(alloc, word.name.as_slice(), word.width)
    })?;
    let registers = try_map(alloc, aig.latches.as_slice(), |word| {
        NameWidth::of(alloc, word.name.as_slice(), word.first.width())
    })?;
    let rules = try_map(alloc, aig.outputs.as_slice(), |output| {
        Text::from_slice(alloc, output.name.as_slice())
    })?;
    Ok(Shape {
        inputs,
        registers,
        rules,
    })
}
