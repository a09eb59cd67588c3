//! Engines: one line of assignments of a stimulus.

// Lines of assignments, in ascending order of the inputs.
ghost use Rattle.std.specs.Prelude.{◌≡◌, All, IsTrue, ◌↔◌, IfOk};
ghost use Rattle.typed_core.specs.Valid.{IsWidth};
ghost use Rattle.one_rule.specs.KeptLines.{IsAscending};
ghost use Rattle.one_rule.specs.inner.KeptLines.{AgreesWith};
ghost use Rattle.one_rule.specs.Stimulus.{inputs_by, value_by};

use crate::rows::Inputs;
use kw_bits::{Bits, NoMemory};
use std::alloc::Global;

// The value of an input by a line.
fn value_by(line: &[(u32, Bits)], input: usize, width: u32) -> Bits
    requires line { IsAscending line.now }
    requires width { IsWidth width }
    ensures { result ≡ value_by line.now input width }
{
    match line.binary_search_by_key(&input, |assignment| assignment.0 as usize) {
        Ok(at) => line[at].1,
        Err(_) => Bits::zero(width),
    }
}

// The values of all inputs by a line.
#[tactic(auto, using(crate::proofs::Inputs::input_steps))]
pub(super) fn inputs_by(
    alloc: Global,
    widths: &[u32],
    line: &[(u32, Bits)],
) -> Result<Inputs, NoMemory>
    requires widths { All IsWidth widths.now }
    requires line { IsAscending line.now }
    ensures { IfOk result (λ inputs. inputs ≡ inputs_by widths.now line.now) }
{
    let mut inputs = Inputs::new(alloc);
    for (input, width) in widths.iter().enumerate() {
        inputs.push(value_by(line, input, *width))?;
    }
    Ok(inputs)
}

// Whether these are the values of all inputs by a line.
pub(super) fn are_inputs_by(inputs: &[Bits], widths: &[u32], line: &[(u32, Bits)]) -> bool
    requires widths { All IsWidth widths.now }
    requires line { IsAscending line.now }
    ensures { IsTrue result ↔ (inputs.now ≡ inputs_by widths.now line.now) }
{
    if inputs.len() != widths.len() {
        return false;
    }
    for (input, width) in widths.iter().enumerate() {
        if inputs[input] != value_by(line, input, *width) {
            return false;
        }
    }
    true
}

// Whether each value that a line gives is the input's value by another line.
pub(super) fn agrees_with(line: &[(u32, Bits)], other: &[(u32, Bits)]) -> bool
    requires { IsAscending other.now }
    ensures { IsTrue result ↔ AgreesWith line.now other.now }
{
    line.iter().all(|(input, value)| value_by(other, *input as usize, value.width()) == *value)
}
