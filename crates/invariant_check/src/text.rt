//! Obligations: their text.

ghost use Rattle.std.specs.Prelude.{◌≡◌, ◌+◌, ◌≤◌, ◌^◌, ◌++◌, All, OnOk, sum};
ghost use Rattle.clause_check.specs.Clauses.{IsLiteral};
ghost use Rattle.aig_blast.specs.Aigs.{input_word_widths, latch_widths};
ghost use Rattle.invariant_check.specs.Bits.{bit_name, bit_names, input_bits, register_bits};
ghost use Rattle.invariant_check.specs.Texts.{bit_line, bit_lines, text_of};

use crate::bits::{count_inputs, push_bit_name};
use aig_blast::{Aig, InputWord, LatchWord};
use clause_check::{Formula, push_dimacs};
use itoa::Buffer;
use kw_bits::{NoMemory, Text};

/// Adds the text of an obligation of a circuit: a line `c NAME[I] U` for each bit of each register and then of each
/// input, U the number of its variable, and the formula in the form DIMACS CNF, whose literals are of its variables.
#[tactic(auto, unfolding(crate::specs::Texts::text_of))]
pub fn push_obligation(text: &mut Text, aig: &Aig, formula: &Formula) -> Result<(), NoMemory>
    ensures text { OnOk result (text.new ≡ text.old ++ text_of aig.now formula.now) }
    ensures within { OnOk result (All (All (IsLiteral formula.now.variables)) formula.now.clauses) }
{
    let _clauses = formula.clauses();
    let inputs = count_inputs(aig.inputs.as_slice());
    push_register_lines(text, inputs as u64 + 1, aig.latches.as_slice())?;
    push_input_lines(text, 1, aig.inputs.as_slice())?;
    push_dimacs(text, formula)?;
    Ok(())
}

// Adds the lines of the bits of registers, by variables from this one on.
fn push_register_lines(
    text: &mut Text,
    variable: u64,
    latches: &[LatchWord],
) -> Result<(), NoMemory>
    requires { variable + sum (latch_widths latches.now) ≤ 2 ^ 62 }
    ensures { OnOk result (text.new ≡ text.old ++ bit_lines variable (register_bits latches.now)) }
{
    let mut next = variable;
    for word in latches {
        let width = word.first.width();
        push_word_lines(text, next, word.name.as_slice(), width)?;
        next += width as u64;
    }
    Ok(())
}

// Adds the lines of the bits of inputs, by variables from this one on.
fn push_input_lines(text: &mut Text, variable: u64, inputs: &[InputWord]) -> Result<(), NoMemory>
    requires { variable + sum (input_word_widths inputs.now) ≤ 2 ^ 62 }
    ensures { OnOk result (text.new ≡ text.old ++ bit_lines variable (input_bits inputs.now)) }
{
    let mut next = variable;
    for word in inputs {
        push_word_lines(text, next, word.name.as_slice(), word.width)?;
        next += word.width as u64;
    }
    Ok(())
}

// Adds the lines of the bits of a word, by variables from this one on.
fn push_word_lines(text: &mut Text, variable: u64, name: &[u8], width: u32) -> Result<(), NoMemory>
    requires { variable + width ≤ 2 ^ 62 }
    ensures { OnOk result (text.new ≡ text.old ++ bit_lines variable (bit_names name.now width)) }
{
    for bit in 0..width {
        push_bit_line(text, name, bit, variable + bit as u64)?;
    }
    Ok(())
}

fn push_bit_line(text: &mut Text, name: &[u8], bit: u32, variable: u64) -> Result<(), NoMemory>
    ensures { OnOk result (text.new ≡ text.old ++ bit_line (bit_name name.now bit) variable) }
{
    let mut buffer = Buffer::new();
    text.extend_from_slice(b"c ")?;
    push_bit_name(text, name, bit)?;
    text.extend_from_slice(b" ")?;
    text.extend_from_slice(buffer.format(variable).as_bytes())?;
    text.push(b'\n')
}
