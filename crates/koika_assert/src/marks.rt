//! Reports: lines with a `bad` line for each marked output.

// The `bad` lines that marks of outputs are written as.
ghost use Rattle.std.specs.Prelude.{◌≡◌, ◌+◌, ◌<◌, ◌^◌, ◌∷◌, ◌++◌, [], IfOk, OnOk, All, length, filter};
ghost use Rattle.btor2_model.specs.Acceptance.{IsAccepted};
ghost use Rattle.btor2_net.specs.Layout.{AreLaidOut};
ghost use Rattle.btor2_net.specs.TidyLines.{AreTidy};
ghost use Rattle.btor2_net.specs.Translations.{AreCounted};
ghost use Rattle.koika_assert.specs.Bads as bads;
ghost use Rattle.koika_assert.specs.inner.Widths as widths;

use crate::copies::{copied_arguments, copied_line, copied_lines, copied_symbol};
use btor2_model::{FormRule, id_at, number_at};
use btor2_text::{Argument, Keyword, Line, Lines};
use kw_bits::NoMemory;
use std::alloc::Global;

/// The lines, and after them for each mark a bad line of the output of one bit that has this number, with its symbol.
pub fn add_bads(alloc: Global, lines: &Lines, marks: &[u32]) -> Result<Lines, NoMemory>
    requires accepted { IsAccepted lines.now }
    requires ids { AreCounted lines.now }
    requires marks { All (λ mark. mark < length (bads.flag_lines lines.now)) marks.now }
    ensures lines { IfOk result (λ all. all ≡ bads.with_bads lines.now marks.now) }
    ensures accepted { IfOk result IsAccepted }
    ensures ids { IfOk result AreCounted }
    ensures parts { IfOk result (bads.HasSameParts lines.now) }
    ensures run { IfOk result (bads.RunsAlike lines.now) }
    ensures violations { IfOk result (bads.ShowsMarks lines.now marks.now) }
    ensures tidy { IfOk result (λ all. AreTidy lines.now → AreTidy all) }
    ensures layout { IfOk result (λ all. AreLaidOut lines.now → AreLaidOut all) }
{
    marked_lines(alloc, lines.as_slice(), marks)
}

// The lines, and a bad line after them for each mark.
fn marked_lines(alloc: Global, lines: &[Line], marks: &[u32]) -> Result<Lines, NoMemory>
    requires accepted { IsAccepted lines.now }
    requires ids { AreCounted lines.now }
    requires marks { All (λ mark. mark < length (bads.flag_lines lines.now)) marks.now }
    ensures lines { IfOk result (λ all. all ≡ bads.with_bads lines.now marks.now) }
    ensures few { IfOk result (λ all. length all < 2 ^ 64) }
{
    let flags = flag_lines(alloc, lines)?;
    let mut all = copied_lines(alloc, lines)?;
    for mark in marks {
        push_bad(alloc, &mut all, flags.get(*mark as usize))?;
    }
    let _count = all.len();
    Ok(all)
}

// Adds a bad line that marks an output's value.
fn push_bad(alloc: Global, all: &mut Lines, output: &Line) -> Result<(), NoMemory>
    ensures { OnOk result (all.new ≡ all.old ++ bads.bad_line (length all.old + 1) output.now ∷ []) }
{
    let id = all.as_slice().len() as u64 + 1;
    all.push(bad_line(alloc, id, output)?)
}

// A bad line that marks an output's value.
fn bad_line(alloc: Global, id: u64, output: &Line) -> Result<Line, NoMemory>
    ensures { IfOk result (λ bad. bad ≡ bads.bad_line id output.now) }
{
    Ok(Line {
        id,
        keyword: Keyword::Bad,
        arguments: copied_arguments(alloc, output.arguments.as_slice())?,
        symbol: copied_symbol(alloc, &output.symbol)?,
        number: id.min(u64::from(u32::MAX)) as u32,
    })
}

// The outputs of one bit.
fn flag_lines(alloc: Global, lines: &[Line]) -> Result<Lines, NoMemory>
    requires accepted { IsAccepted lines.now }
    requires ids { AreCounted lines.now }
    ensures { IfOk result (λ flags. flags ≡ bads.flag_lines lines.now) }
{
    narrow_lines(alloc, lines)
}

// The outputs whose value's line has a sort of one bit.
fn narrow_lines(alloc: Global, lines: &[Line]) -> Result<Lines, NoMemory>
    ensures { IfOk result (λ narrow. narrow ≡ filter (widths.is_narrow lines.now) lines.now) }
{
    let mut narrow = Lines::new(alloc);
    for line in lines {
        if is_narrow(lines, line) {
            narrow.push(copied_line(alloc, line)?)?;
        }
    }
    Ok(narrow)
}

// Whether a line is an output of a value whose sort has one bit.
fn is_narrow(lines: &[Line], line: &Line) -> bool
    ensures { result ≡ widths.is_narrow lines.now line.now }
{
    FormRule::of(line.keyword).is_output()
        && written_width(lines, id_at(line.arguments.as_slice(), 0)) == 1
}

// The width in the line of a value's sort, where ids are counted.
fn written_width(lines: &[Line], id: u64) -> u32
    ensures { result ≡ widths.written_width lines.now id }
{
    let sort = id_at(arguments_of(lines, id), 0);
    number_at(arguments_of(lines, sort), 1)
}

// The arguments of the line of an id, where ids are counted, or else none.
fn arguments_of(lines: &[Line], id: u64) -> &[Argument]
    ensures { result.now ≡ widths.arguments_of lines.now id }
{
    if id == 0 {
        return &[];
    }
    match lines.get(id as usize - 1) {
        Some(line) => line.arguments.as_slice(),
        None => &[],
    }
}
