//! Reports: a source cut at its line `%%`.

ghost use Rattle.std.specs.Prelude.{◌≡◌, ◌≤◌, ◌+◌, length};
ghost use Rattle.std.specs.List.{join_with_byte};
ghost use Rattle.kw_base.specs.Place.{capped};
ghost use Rattle.kw_base.specs.Texts.{pieces_after};
ghost use Rattle.kw_base.specs.declared.texts.Separator.TheVariants as at;
ghost use Rattle.stim_report.specs.Cuts as cuts;
ghost use Rattle.stim_report.specs.Cuts.{parts_of};

use kw_base::texts::{Separator, cut, without_return};

/// What a source consists of.
#[derive(Clone, Copy, Debug)]
pub struct SourceParts<'a> {
    /// The bytes before the line `%%`, or all where there is no such line.
    pub design: &'a [u8],
    /// The bytes after that line.
    pub stimulus: &'a [u8],
    /// The number of the line that they begin with, counted from 1 in the source.
    pub first_line: u32,
}

/// The design and the stimulus of a source of at most 268,435,456 bytes, cut at its first line `%%`.
pub fn source_parts(bytes: &[u8]) -> SourceParts<'_>
    requires { length bytes.now ≤ 268435456 }
    ensures design { result.design.now ≡ (parts_of bytes.now).design }
    ensures stimulus { result.stimulus.now ≡ (parts_of bytes.now).stimulus }
    ensures first_line { result.first_line ≡ (parts_of bytes.now).first_line }
    ensures within { length result.design.now ≤ length bytes.now }
{
    let mut lines: usize = 0;
    let mut rest = Some(bytes);
    while let Some(text) = rest {
        let (line, behind) = cut(text, Separator::LineFeed);
        if is_mark(line) {
            let (design, _) = bytes.split_at(bytes.len() - text.len());
            return SourceParts {
                design,
                stimulus: text_behind(behind),
                first_line: line_number(lines, 2),
            };
        }
        lines += 1;
        rest = behind;
    }
    let end = line_number(lines, 1);
    SourceParts {
        design: bytes,
        stimulus: &[],
        first_line: end,
    }
}

// What comes after a line feed, if there is one.
fn text_behind(behind: Option<&[u8]>) -> &[u8]
    ensures { result.now ≡ join_with_byte 10 (pieces_after at.LineFeed behind.entry) }
{
    match behind {
        Some(text) => text,
        None => &[],
    }
}

fn is_mark(line: &[u8]) -> bool
    ensures { result ≡ cuts.is_mark line.now }
{
    without_return(line) == b"%%".as_slice()
}

// The number of a line this many after some lines.
fn line_number(lines: usize, behind: u32) -> u32
    ensures { result ≡ capped (lines + behind) }
{
    match u32::try_from(lines) {
        Ok(lines) => lines.saturating_add(behind),
        Err(_) => u32::MAX,
    }
}
