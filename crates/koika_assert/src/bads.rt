//! Reports: a BTOR2 file that has the `bad` lines of another as outputs too.

// The `bad` lines of a BTOR2 file.
ghost use Rattle.std.specs.Prelude.{◌≡◌, IfOk, None};
ghost use Rattle.btor2_text.specs.Printable.{ArePrintable};
ghost use Rattle.btor2_model.specs.Acceptance.{first_fault};
ghost use Rattle.koika_assert.specs.Bads as bads;

use crate::copies::{copied_arguments, copied_symbol};
use btor2_model::{Btor, accept};
use btor2_text::{Keyword, Line, Lines};
use kw_base::Refusal;
use kw_bits::NoMemory;
use std::alloc::Global;

/// The text with each bad line an output in its place. Its outputs show those of the text, and which bad lines are
/// violated.
pub fn bads_beside_outputs(alloc: Global, text: &Btor) -> Result<Btor, NoMemory>
    ensures lines { IfOk result (λ shown. shown ≡ bads.bads_beside_outputs text.now) }
    ensures beside { IfOk result (bads.ShowsBeside text.now) }
{
    let lines = turned_lines(alloc, text.lines().as_slice())?;
    accepted(alloc, lines)
}

// The text of lines without a fault.
fn accepted(alloc: Global, lines: Lines) -> Result<Btor, NoMemory>
    requires forms { ArePrintable lines }
    requires fine { first_fault lines ≡ None }
    ensures { IfOk result (λ text. text ≡ lines) }
{
    match accept(alloc, lines) {
        Ok(text) => Ok(text),
        Err(Refusal::NoMemory) => Err(NoMemory),
        Err(Refusal::Fault(_)) => unreachable!(),
    }
}

// The lines, each bad line an output.
fn turned_lines(alloc: Global, lines: &[Line]) -> Result<Lines, NoMemory>
    ensures { IfOk result (λ shown. shown ≡ bads.bads_beside_outputs lines.now) }
{
    let mut shown = Lines::new(alloc);
    for line in lines {
        shown.push(turned(alloc, line)?)?;
    }
    Ok(shown)
}

// A copy of a line, an output where it is a bad line.
fn turned(alloc: Global, line: &Line) -> Result<Line, NoMemory>
    ensures { IfOk result (λ shown. shown ≡ bads.turned line.now) }
{
    Ok(Line {
        id: line.id,
        keyword: as_output(line.keyword),
        arguments: copied_arguments(alloc, line.arguments.as_slice())?,
        symbol: copied_symbol(alloc, &line.symbol)?,
        number: line.number,
    })
}

fn as_output(keyword: Keyword) -> Keyword
    ensures { result ≡ bads.as_output keyword }
{
    match keyword {
        Keyword::Bad => Keyword::Output,
        other => other,
    }
}
