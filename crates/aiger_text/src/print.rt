//! The ASCII AIGER text of a graph.

ghost use Rattle.std.specs.Prelude.{◌≡◌, ◌+◌, ◌<◌, ◌≤◌, ◌^◌, ◌++◌, ◌∷◌, [], decimal, IfOk, Ok, OnOk, length, sum, All};
ghost use Rattle.std.specs.List.{flat_map};
ghost use Rattle.aig_blast.specs.Aigs.{input_word_widths, latch_widths};
ghost use Rattle.aiger_text.specs.Meaning.{HasGraph};
ghost use Rattle.aiger_text.specs.Reading.{aig_of};
ghost use Rattle.aiger_text.specs.Printing.{bit_name, gate_text, input_lines, input_symbols, input_word_text, laid, latch_lines, latch_symbols, latch_width_of, latch_word_text, numbers_text, one_of, output_symbol, output_text, reset_text, rest_text, spaced, symbol_text, text_of, input_line_count, word_symbols};
ghost use Rattle.aiger_text.specs.inner.Printing.{HasNexts};

use aig_blast::{Aig, Gate, InputWord, LatchWord, Lit, OutputBit};
use itoa::Buffer;
use kw_bits::{Bits, NoMemory, Text};
use std::alloc::Global;

/// The AIGER text of a bit-level circuit, in AIGER ASCII. Bit k of the word `x` has the symbol `x[k]`. The text is
/// accepted, means the circuit, and is read back as the same circuit.
pub fn print_aiger(alloc: Global, aig: &Aig) -> Result<Text, NoMemory>
    ensures text { IfOk result (λ text. text ≡ text_of aig.now) }
    ensures meaning { IfOk result (λ text. HasGraph text aig.now) }
    ensures read_back { IfOk result (λ text. aig_of text ≡ Ok aig.now) }
{
    let inputs = aig.inputs.as_slice();
    let latches = aig.latches.as_slice();
    let outputs = aig.outputs.as_slice();
    let gates = aig.gates.as_slice();
    let before = count_inputs(inputs);
    let kept = count_latches(latches);
    let sources = before + kept;
    let count = gates.len() as u64;
    let written = count_outputs(outputs);
    let mut text = Text::from_slice(alloc, b"aag")?;
    push_rest(&mut text, &[sources + count, before, kept, written, count])?;
    push_inputs(&mut text, inputs)?;
    push_latches(&mut text, 1 + before, latches)?;
    push_outputs(&mut text, outputs)?;
    push_gates(&mut text, 1 + sources, gates)?;
    push_input_symbols(&mut text, inputs)?;
    push_latch_symbols(&mut text, latches)?;
    push_output_symbols(&mut text, outputs)?;
    Ok(text)
}

fn count_inputs(words: &[InputWord]) -> u64
    requires { sum (input_word_widths words.now) ≤ 2 ^ 60 }
    ensures { result ≡ sum (input_word_widths words.now) }
{
    let mut count: u64 = 0;
    for word in words {
        count += word.width as u64;
    }
    count
}

fn count_latches(words: &[LatchWord]) -> u64
    requires { sum (latch_widths words.now) ≤ 2 ^ 60 }
    ensures { result ≡ sum (latch_widths words.now) }
{
    let mut count: u64 = 0;
    for word in words {
        count += word.first.width() as u64;
    }
    count
}

// How many outputs there are. They take memory, so there aren't as many as 2^63.
fn count_outputs(outputs: &[OutputBit]) -> u64
    ensures count { result ≡ length outputs.now }
    ensures few { length outputs.now < 2 ^ 63 }
{
    outputs.len() as u64
}

fn push_number(text: &mut Text, number: u64) -> Result<(), NoMemory>
    ensures { OnOk result (text.new ≡ text.old ++ decimal number) }
{
    let mut buffer = Buffer::new();
    text.extend_from_slice(buffer.format(number).as_bytes())
}

// Numbers, each after a space, and the end of the line.
fn push_rest(text: &mut Text, numbers: &[u64]) -> Result<(), NoMemory>
    ensures { OnOk result (text.new ≡ text.old ++ rest_text numbers.now) }
{
    push_spaced(text, numbers)?;
    text.push(b'\n')
}

fn push_spaced(text: &mut Text, numbers: &[u64]) -> Result<(), NoMemory>
    ensures { OnOk result (text.new ≡ text.old ++ flat_map spaced numbers.now) }
{
    for number in numbers {
        text.push(b' ')?;
        push_number(text, *number)?;
    }
    Ok(())
}

fn push_line(text: &mut Text, first: u64, others: &[u64]) -> Result<(), NoMemory>
    ensures { OnOk result (text.new ≡ text.old ++ numbers_text first others.now) }
{
    push_number(text, first)?;
    push_rest(text, others)
}

fn push_inputs(text: &mut Text, words: &[InputWord]) -> Result<(), NoMemory>
    requires { sum (input_word_widths words.now) ≤ 2 ^ 60 }
    ensures { OnOk result (text.new ≡ text.old ++ laid input_line_count input_word_text 1 words.now) }
{
    let mut variable: u64 = 1;
    for word in words {
        push_input_word(text, variable, word.width)?;
        variable += word.width as u64;
    }
    Ok(())
}

// The lines of this many inputs from a variable on.
fn push_input_word(text: &mut Text, variable: u64, width: u32) -> Result<(), NoMemory>
    requires { variable ≤ 2 ^ 62 }
    ensures { OnOk result (text.new ≡ text.old ++ input_lines variable width) }
{
    for k in 0..width {
        push_line(text, 2 * (variable + k as u64), &[])?;
    }
    Ok(())
}

fn push_latches(text: &mut Text, first: u64, words: &[LatchWord]) -> Result<(), NoMemory>
    requires first { first ≤ 2 ^ 60 + 1 }
    requires count { sum (latch_widths words.now) ≤ 2 ^ 60 }
    requires nexts { All HasNexts words.now }
    ensures { OnOk result (text.new ≡ text.old ++ laid latch_width_of latch_word_text first words.now) }
{
    let mut variable = first;
    for word in words {
        push_latch_word(text, variable, word.first, word.nexts.as_slice())?;
        variable += word.first.width() as u64;
    }
    Ok(())
}

// The lines of a word of latches from a variable on.
fn push_latch_word(
    text: &mut Text,
    variable: u64,
    first: Bits,
    nexts: &[Lit],
) -> Result<(), NoMemory>
    requires variable { variable ≤ 2 ^ 62 }
    requires count { length nexts.now ≡ first.width }
    ensures { OnOk result (text.new ≡ text.old ++ latch_lines variable first nexts.now) }
{
    let number = first.number();
    for k in 0..first.width() {
        let next = nexts[k as usize];
        push_latch(
            text,
            2 * (variable + k as u64),
            next,
            (number >> k) % 2 == 1,
        )?;
    }
    Ok(())
}

// The line of a latch. A reset is written where it is 1.
fn push_latch(text: &mut Text, lit: Lit, next: Lit, reset: bool) -> Result<(), NoMemory>
    ensures { OnOk result (text.new ≡ text.old ++ numbers_text lit (next ∷ reset_text reset)) }
{
    if reset {
        push_line(text, lit, &[next, 1])
    } else {
        push_line(text, lit, &[next])
    }
}

fn push_outputs(text: &mut Text, outputs: &[OutputBit]) -> Result<(), NoMemory>
    ensures { OnOk result (text.new ≡ text.old ++ flat_map output_text outputs.now) }
{
    for output in outputs {
        push_line(text, output.lit, &[])?;
    }
    Ok(())
}

fn push_gates(text: &mut Text, first: u64, gates: &[Gate]) -> Result<(), NoMemory>
    requires first { first ≤ 2 ^ 60 + 1 }
    requires count { length gates.now ≤ 2 ^ 60 }
    ensures { OnOk result (text.new ≡ text.old ++ laid one_of gate_text first gates.now) }
{
    for (k, gate) in gates.iter().enumerate() {
        push_line(text, 2 * (first + k as u64), &[gate.left, gate.right])?;
    }
    Ok(())
}

fn push_input_symbols(text: &mut Text, words: &[InputWord]) -> Result<(), NoMemory>
    requires { sum (input_word_widths words.now) ≤ 2 ^ 60 }
    ensures { OnOk result (text.new ≡ text.old ++ laid input_line_count input_symbols 0 words.now) }
{
    let mut index: u64 = 0;
    for word in words {
        push_word_symbols(text, b'i', index, word.name.as_slice(), word.width)?;
        index += word.width as u64;
    }
    Ok(())
}

fn push_latch_symbols(text: &mut Text, words: &[LatchWord]) -> Result<(), NoMemory>
    requires { sum (latch_widths words.now) ≤ 2 ^ 60 }
    ensures { OnOk result (text.new ≡ text.old ++ laid latch_width_of latch_symbols 0 words.now) }
{
    let mut index: u64 = 0;
    for word in words {
        push_word_symbols(text, b'l', index, word.name.as_slice(), word.first.width())?;
        index += word.first.width() as u64;
    }
    Ok(())
}

// The symbols of a word's bits, the first with this index.
fn push_word_symbols(
    text: &mut Text,
    kind: u8,
    index: u64,
    name: &[u8],
    width: u32,
) -> Result<(), NoMemory>
    requires { index ≤ 2 ^ 62 }
    ensures { OnOk result (text.new ≡ text.old ++ word_symbols kind index name.now width) }
{
    for k in 0..width {
        push_bit_symbol(text, kind, index + k as u64, name, k as u64)?;
    }
    Ok(())
}

// The symbol of a bit of a word.
fn push_bit_symbol(
    text: &mut Text,
    kind: u8,
    index: u64,
    name: &[u8],
    k: u64,
) -> Result<(), NoMemory>
    ensures { OnOk result (text.new ≡ text.old ++ symbol_text kind index (bit_name name.now k)) }
{
    text.push(kind)?;
    push_number(text, index)?;
    text.push(b' ')?;
    text.extend_from_slice(name)?;
    text.push(b'[')?;
    push_number(text, k)?;
    text.extend_from_slice(b"]\n")
}

fn push_output_symbols(text: &mut Text, outputs: &[OutputBit]) -> Result<(), NoMemory>
    ensures { OnOk result (text.new ≡ text.old ++ laid one_of output_symbol 0 outputs.now) }
{
    for (k, output) in outputs.iter().enumerate() {
        push_symbol(text, b'o', k as u64, output.name.as_slice())?;
    }
    Ok(())
}

fn push_symbol(text: &mut Text, kind: u8, index: u64, name: &[u8]) -> Result<(), NoMemory>
    ensures { OnOk result (text.new ≡ text.old ++ symbol_text kind index name.now) }
{
    text.push(kind)?;
    push_number(text, index)?;
    text.push(b' ')?;
    text.extend_from_slice(name)?;
    text.push(b'\n')
}
