//! Reports: copies of lines.

// Copies of lines.
ghost use Rattle.std.specs.Prelude.{◌≡◌, IfOk};

use btor2_text::{Argument, Line, Lines};
use kw_bits::{NoMemory, Sequence, Text};
use std::alloc::Global;

/// A copy of lines.
pub(crate) fn copied_lines(alloc: Global, lines: &[Line]) -> Result<Lines, NoMemory>
    ensures { IfOk result (λ copy. copy ≡ lines.now) }
{
    let mut copy = Lines::new(alloc);
    for line in lines {
        copy.push(copied_line(alloc, line)?)?;
    }
    Ok(copy)
}

/// A copy of a line.
pub(crate) fn copied_line(alloc: Global, line: &Line) -> Result<Line, NoMemory>
    ensures { IfOk result (λ copy. copy ≡ line.now) }
{
    Ok(Line {
        id: line.id,
        keyword: line.keyword,
        arguments: copied_arguments(alloc, line.arguments.as_slice())?,
        symbol: copied_symbol(alloc, &line.symbol)?,
        number: line.number,
    })
}

pub(crate) fn copied_arguments(
    alloc: Global,
    arguments: &[Argument],
) -> Result<Sequence<Argument>, NoMemory>
    ensures { IfOk result (λ copy. copy ≡ arguments.now) }
{
    let mut copy = Sequence::new(alloc);
    for argument in arguments {
        copy.push(copied_argument(alloc, argument)?)?;
    }
    Ok(copy)
}

fn copied_argument(alloc: Global, argument: &Argument) -> Result<Argument, NoMemory>
    ensures { IfOk result (λ copy. copy ≡ argument.now) }
{
    Ok(match argument {
        Argument::Bitvec => Argument::Bitvec,
        Argument::Id(id) => Argument::Id(*id),
        Argument::Number(number) => Argument::Number(*number),
        Argument::Numeral(digits) => Argument::Numeral(Text::from_slice(alloc, digits.as_slice())?),
    })
}

pub(crate) fn copied_symbol(alloc: Global, symbol: &Option<Text>) -> Result<Option<Text>, NoMemory>
    ensures { IfOk result (λ copy. copy ≡ symbol.now) }
{
    match symbol {
        Some(symbol) => Ok(Some(Text::from_slice(alloc, symbol.as_slice())?)),
        None => Ok(None),
    }
}
