//! Reports: the reader of stimuli.

ghost use Rattle.std.specs.Prelude.{◌≡◌, ◌+◌, ◌<◌, ◌^◌, List, [], All, IfOk, IfSome, IfNone, OnOk, length, slice_index_or, false, Some, None, Ok, Err};
ghost use Rattle.kw_base.specs.Fault.{IfFault};
ghost use Rattle.one_rule.specs.Stimulus.{Assignment as AssignmentOf, Assigns, IsLine};
ghost use Rattle.stim_report.specs.Assignments.{assignment_of, behind_equals, name_and_value};
ghost use Rattle.stim_report.specs.inner.FirstNames.{AreFirst};
ghost use Rattle.stim_report.specs.inner.Given.{AreGiven};
ghost use Rattle.stim_report.specs.inner.Reading.{ReadsWord};
ghost use Rattle.stim_report.specs.Shapes.{widths_of};
ghost use Rattle.stim_report.specs.Stimuli as texts;
ghost use Rattle.stim_report.specs.Stimuli.{at_place, stimulus_of};
ghost use Rattle.typed_core.specs.Valid.{IsWidth};

use crate::given::{clear_given, none_given};
use crate::names::InputNames;
use crate::value::{bits_of, numeral_of};
use crate::{NameWidth, Shape};
use kw_base::fault_number::{INPUT_TOO_WIDE, MALFORMED_ASSIGNMENT, UNKNOWN_INPUT};
use kw_base::texts::{Separator, next_line, next_word};
use kw_base::{Fault, Place, Refusal};
use kw_bits::{Bits, NoMemory};
use one_rule::Stimulus;
use std::alloc::Global;

/// The stimulus of a text whose first line has this number in its source, for the inputs of a shape, or the fault of
/// the first assignment that has one: 30 where it is malformed or assigns an input for the second time in its line, 31
/// where no input has its name, 32 where its value is too wide. Its place is that of the assignment's first byte.
pub fn read_stimulus(
    alloc: Global,
    bytes: &[u8],
    first_line: u32,
    shape: &Shape,
) -> Result<Stimulus, Refusal>
    requires few { length shape.now.inputs < 2 ^ 32 }
    requires widths { All IsWidth (widths_of shape.now.inputs) }
    ensures stimulus { IfOk result (λ stimulus. stimulus_of shape.now first_line bytes.now ≡ Ok stimulus) }
    ensures fault { IfFault result (λ fault. stimulus_of shape.now first_line bytes.now ≡ Err fault) }
{
    let inputs = shape.inputs.as_slice();
    let names = InputNames::new(alloc, inputs)?;
    let mut given = none_given(alloc, inputs.len())?;
    let mut stimulus = Stimulus::new(alloc, widths(alloc, inputs)?);
    let mut number = first_line;
    let mut rest = bytes;
    while let Some(line) = next_line(rest) {
        let assignments = read_line(alloc, inputs, &names, &mut given, line.bytes, number)?;
        stimulus.push_line(assignments)?;
        number = number.saturating_add(1);
        rest = line.rest;
    }
    Ok(stimulus)
}

// The widths of inputs.
fn widths(alloc: Global, inputs: &[NameWidth]) -> Result<Vec<u32>, NoMemory>
    ensures { IfOk result (λ widths. widths.items ≡ widths_of inputs.now) }
{
    let mut widths = Vec::new(alloc);
    for input in inputs {
        widths.push(input.width)?;
    }
    Ok(widths)
}

// The assignments of the line of this number. No input is given before it, and none after it.
fn read_line(
    alloc: Global,
    inputs: &[NameWidth],
    names: &InputNames,
    given: &mut Vec<bool>,
    bytes: &[u8],
    number: u32,
) -> Result<Vec<(u32, Bits)>, Refusal>
    requires widths { All IsWidth (widths_of inputs.now) }
    requires names { AreFirst names.now.names names.now.firsts.items inputs.now }
    requires count { length given.old.items ≡ length inputs.now }
    requires given { AreGiven given.old.items [] }
    ensures line { IfOk result (λ line. texts.line_of inputs.now number bytes.now ≡ Ok line.items) }
    ensures fits { IfOk result (λ line. IsLine (widths_of inputs.now) line.items) }
    ensures fault { IfFault result (λ fault. texts.line_of inputs.now number bytes.now ≡ Err fault) }
    ensures count { OnOk result (length given.new.items ≡ length inputs.now) }
    ensures given { OnOk result (AreGiven given.new.items []) }
{
    let mut line: Vec<(u32, Bits)> = Vec::new(alloc);
    let mut column: usize = 1;
    let mut rest = bytes;
    while let Some(word) = next_word(rest, Separator::Blank) {
        let start = place(number, column + word.blanks);
        read_word(inputs, names, given, &mut line, word.bytes, start)?;
        column += word.blanks + word.bytes.len();
        rest = word.rest;
    }
    clear_given(given, line.as_slice());
    Ok(line)
}

// Adds what a word at a place assigns to its line.
fn read_word(
    inputs: &[NameWidth],
    names: &InputNames,
    given: &mut Vec<bool>,
    line: &mut Vec<(u32, Bits)>,
    word: &[u8],
    start: Place,
) -> Result<(), Refusal>
    requires widths { All IsWidth (widths_of inputs.now) }
    requires names { AreFirst names.now.names names.now.firsts.items inputs.now }
    requires count { length given.old.items ≡ length inputs.now }
    requires given { AreGiven given.old.items line.old.items }
    requires fits { IsLine (widths_of inputs.now) line.old.items }
    ensures reads { ReadsWord result (at_place start (assignment_of inputs.now line.old.items word.now)) line.old.items line.new.items }
    ensures count { OnOk result (length given.new.items ≡ length inputs.now) }
    ensures given { OnOk result (AreGiven given.new.items line.new.items) }
    ensures fits { OnOk result (IsLine (widths_of inputs.now) line.new.items) }
{
    let expected = match line.last() {
        Some(last) => last.0.saturating_add(1),
        None => 0,
    };
    match read_assignment(inputs, names, given.as_slice(), word, expected) {
        Ok(assignment) => {
            let input = assignment.0 as usize;
            line.push(assignment)?;
            given[input] = true;
            Ok(())
        }
        Err(fault) => Err(Refusal::Fault(Fault::new(fault, start))),
    }
}

// The place of a column in a line.
fn place(line: u32, column: usize) -> Place
    ensures { result ≡ texts.place line column }
{
    match u32::try_from(column) {
        Ok(column) => Place { line, column },
        Err(_) => Place {
            line,
            column: u32::MAX,
        },
    }
}

// What a word assigns, where these inputs are given before it in its line, or the number of its fault. Most lines
// assign the inputs in their order, so one is expected, and any may come.
fn read_assignment(
    inputs: &[NameWidth],
    names: &InputNames,
    given: &[bool],
    word: &[u8],
    expected: u32,
) -> Result<(u32, Bits), u32>
    requires widths { All IsWidth (widths_of inputs.now) }
    requires names { AreFirst names.now.names names.now.firsts.items inputs.now }
    requires count { length given.now ≡ length inputs.now }
    ensures is { (line : List AssignmentOf) → AreGiven given.now line → result ≡ assignment_of inputs.now line word.now }
    ensures assigns { IfOk result (λ a. Assigns (widths_of inputs.now) a) }
    ensures new { IfOk result (λ a. slice_index_or given.now a.0 false ≡ false) }
{
    let Some(parts) = name_and_value(word) else {
        return Err(MALFORMED_ASSIGNMENT);
    };
    let Some(value) = numeral_of(parts.value) else {
        return Err(MALFORMED_ASSIGNMENT);
    };
    let Some(input) = names.find(inputs, parts.name, expected) else {
        return Err(UNKNOWN_INPUT);
    };
    if given[input as usize] {
        return Err(MALFORMED_ASSIGNMENT);
    }
    match bits_of(value.radix, value.digits, inputs[input as usize].width) {
        Some(bits) => Ok((input, bits)),
        None => Err(INPUT_TOO_WIDE),
    }
}

/// A name and a value.
#[derive(Clone, Copy)]
struct Parts<'a> {
    name: &'a [u8],
    value: &'a [u8],
}

// What comes before the last `=` of a word, if anything does, and what comes after it.
fn name_and_value(word: &[u8]) -> Option<Parts<'_>>
    ensures found { IfSome result (λ parts. name_and_value word.now ≡ Some (parts.name.now, parts.value.now)) }
    ensures absent { IfNone result (name_and_value word.now ≡ None) }
{
    let start = start_of_value(word);
    if start < 2 {
        return None;
    }
    let (name, _) = word.split_at(start - 1);
    let (_, value) = word.split_at(start);
    Some(Parts { name, value })
}

// Where the bytes begin that have no `=` after them.
#[tactic(auto, using(crate::proofs::Equals::equals))]
fn start_of_value(word: &[u8]) -> usize
    ensures { result + behind_equals word.now ≡ length word.now }
{
    let mut start = word.len();
    while start > 0 && word[start - 1] != b'=' {
        start -= 1;
    }
    start
}
