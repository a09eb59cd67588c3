//! Circuits: lines of BTOR2 as text.

ghost use Rattle.std.specs.Prelude.{◌≡◌, ◌++◌, ◌∷◌, [], IfOk, OnOk};
ghost use Rattle.std.specs.List.{flat_map};
ghost use Rattle.std.specs.Option.{option_to_list};
ghost use Rattle.btor2_text.specs.Printable.{ArePrintable, numbered_from};
ghost use Rattle.btor2_text.specs.Printing.{line_text, spaced, spaced_argument, text_of};
ghost use Rattle.btor2_text.specs.Reading.{AreLinesOf};

use crate::{Argument, Line, Lines};
use itoa::Buffer;
use kw_bits::{NoMemory, Text};
use std::alloc::Global;

/// The text of lines: each on a line of its own, its tokens with one space between them.
pub fn print_lines(alloc: Global, lines: &Lines) -> Result<Text, NoMemory>
    ensures text { IfOk result (λ text. text ≡ text_of lines.now) }
    ensures read_again { IfOk result (λ text. ArePrintable lines.now → AreLinesOf text (numbered_from 1 lines.now)) }
{
    let mut text = Text::new(alloc);
    for line in lines.as_slice() {
        push_line(&mut text, line)?;
    }
    Ok(text)
}

// Adds the text of a line.
fn push_line(text: &mut Text, line: &Line) -> Result<(), NoMemory>
    ensures { OnOk result (text.new ≡ text.old ++ line_text line.now) }
{
    let mut buffer = Buffer::new();
    text.extend_from_slice(buffer.format(line.id).as_bytes())?;
    push_spaced(text, line.keyword.text())?;
    push_arguments(text, line.arguments.as_slice())?;
    push_symbol(text, &line.symbol)?;
    text.push(b'\n')
}

// Adds the tokens of arguments, each after a space.
fn push_arguments(text: &mut Text, arguments: &[Argument]) -> Result<(), NoMemory>
    ensures { OnOk result (text.new ≡ text.old ++ flat_map spaced_argument arguments.now) }
{
    for argument in arguments {
        push_argument(text, argument)?;
    }
    Ok(())
}

// Adds a symbol after a space, if there is one.
fn push_symbol(text: &mut Text, symbol: &Option<Text>) -> Result<(), NoMemory>
    ensures { OnOk result (text.new ≡ text.old ++ flat_map spaced (option_to_list symbol.now)) }
{
    match symbol {
        Some(symbol) => push_spaced(text, symbol.as_slice()),
        None => Ok(()),
    }
}

// Adds a space and the token of an argument.
fn push_argument(text: &mut Text, argument: &Argument) -> Result<(), NoMemory>
    ensures { OnOk result (text.new ≡ text.old ++ spaced_argument argument.now) }
{
    let mut buffer = Buffer::new();
    match argument {
        Argument::Bitvec => push_spaced(text, b"bitvec"),
        Argument::Id(id) => push_spaced(text, buffer.format(*id).as_bytes()),
        Argument::Number(number) => push_spaced(text, buffer.format(*number).as_bytes()),
        Argument::Numeral(digits) => push_spaced(text, digits.as_slice()),
    }
}

// Adds a space and a token.
fn push_spaced(text: &mut Text, token: &[u8]) -> Result<(), NoMemory>
    ensures { OnOk result (text.new ≡ text.old ++ spaced token.now) }
{
    text.push(b' ')?;
    text.extend_from_slice(token)
}
