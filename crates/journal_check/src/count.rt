//! Journals: how many lines a text has.
ghost use Rattle.std.specs.Prelude.{◌≡◌, length};
ghost use Rattle.kw_base.specs.Texts.{lines_of};
ghost use Rattle.journal_check.specs.Reading.{number_after};

use kw_base::texts::next_line;

/// The number of the line after a text whose first line has this number.
pub fn line_after(first_line: u32, text: &[u8]) -> u32
    ensures { result ≡ number_after first_line (length (lines_of text.now)) }
{
    let mut number = first_line;
    let mut rest = text;
    while let Some(line) = next_line(rest) {
        number = number.saturating_add(1);
        rest = line.rest;
    }
    number
}
