//! Trees: single tokens as text, in their one written form.

ghost use Rattle.std.specs.Prelude.{◌≡◌, OnOk};
ghost use Rattle.koika_syntax.specs.Tree.{literal_leaves, name_leaves, number_leaves, sign, width_leaves, word};
ghost use Rattle.koika_print.specs.Printed.{blank_after_symbol};
ghost use Rattle.koika_print.specs.inner.Printed.{Prints, comma_behind, else_behind};

use itoa::Buffer;
use koika_syntax::{Keyword, Literal, Name, Number, Symbol, Width};
use kw_bits::{NoMemory, Text};

/// Writes a keyword.
pub(crate) fn word(out: &mut Text, keyword: Keyword) -> Result<(), NoMemory>
    ensures { OnOk result (Prints out.old out.new (word keyword)) }
{
    out.extend_from_slice(keyword.text())?;
    out.push(b' ')
}

/// Writes a comma after items, if there are any.
pub(crate) fn comma_behind(out: &mut Text, items: usize) -> Result<(), NoMemory>
    ensures { OnOk result (Prints out.old out.new (comma_behind items)) }
{
    if items > 0 {
        return sign(out, Symbol::Comma);
    }
    Ok(())
}

/// Writes `else` after arms, if there are any.
pub(crate) fn else_behind(out: &mut Text, arms: usize) -> Result<(), NoMemory>
    ensures { OnOk result (Prints out.old out.new (else_behind arms)) }
{
    if arms > 0 {
        return word(out, Keyword::Else);
    }
    Ok(())
}

/// Writes a symbol.
pub(crate) fn sign(out: &mut Text, symbol: Symbol) -> Result<(), NoMemory>
    ensures { OnOk result (Prints out.old out.new (sign symbol)) }
{
    out.extend_from_slice(symbol.text())?;
    out.push(separator(symbol))
}

// What comes after a symbol.
fn separator(symbol: Symbol) -> u8
    ensures { result ≡ blank_after_symbol symbol }
{
    match symbol {
        Symbol::Semicolon | Symbol::LeftBrace | Symbol::RightBrace => b'\n',
        _ => b' ',
    }
}

pub(crate) fn name(out: &mut Text, name: &Name) -> Result<(), NoMemory>
    ensures { OnOk result (Prints out.old out.new (name_leaves name.now)) }
{
    out.extend_from_slice(name.text.as_slice())?;
    out.push(b' ')
}

pub(crate) fn number(out: &mut Text, number: Number) -> Result<(), NoMemory>
    ensures { OnOk result (Prints out.old out.new (number_leaves number)) }
{
    let mut buffer = Buffer::new();
    out.extend_from_slice(buffer.format(number.value).as_bytes())?;
    out.push(b' ')
}

pub(crate) fn literal(out: &mut Text, literal: Literal) -> Result<(), NoMemory>
    ensures { OnOk result (Prints out.old out.new (literal_leaves literal)) }
{
    let mut buffer = Buffer::new();
    out.extend_from_slice(buffer.format(literal.bits.width()).as_bytes())?;
    out.extend_from_slice(b"'d")?;
    out.extend_from_slice(buffer.format(literal.bits.number()).as_bytes())?;
    out.push(b' ')
}

/// Writes `bits N`.
pub(crate) fn width(out: &mut Text, width: Width) -> Result<(), NoMemory>
    ensures { OnOk result (Prints out.old out.new (width_leaves width)) }
{
    word(out, Keyword::Bits)?;
    number(out, width.number)
}
