//! AIGER texts cut into lines and words.

ghost use Rattle.std.specs.Prelude.{◌≡◌, [], IfSome, IfNone};
ghost use Rattle.kw_base.specs.Texts.{front_of, is_blank, rest_of};
ghost use Rattle.aiger_text.specs.Cuts as cuts;
ghost use Rattle.aiger_text.specs.Cuts.{IsCutFrom, lines_of, not_blank};

use kw_base::texts::{Line, Separator, next_whole_line, split_before, without_blanks};

/// A line without the carriage returns at its end.
fn without_returns(line: &[u8]) -> &[u8]
    ensures { result.now ≡ cuts.without_returns line.now }
{
    let mut front = line;
    while let Some((last, rest)) = front.split_last() {
        if *last != b'\r' {
            return front;
        }
        front = rest;
    }
    front
}

/// The first line of a text, if it has a byte, without the carriage returns at its end.
pub(crate) fn next_stripped_line(text: &[u8]) -> Option<Line<'_>>
    ensures found { IfSome result (IsCutFrom text.now) }
    ensures absent { IfNone result (lines_of text.now ≡ []) }
{
    let Some(line) = next_whole_line(text) else {
        return None;
    };
    Some(Line {
        bytes: without_returns(line.bytes),
        rest: line.rest,
    })
}

/// The bytes that aren't blank after the blanks at the front, and the bytes after them.
pub(crate) fn split_word(bytes: &[u8]) -> (&[u8], &[u8])
    ensures front { result.0.now ≡ front_of not_blank (rest_of is_blank bytes.now) }
    ensures rest { result.1.now ≡ rest_of not_blank (rest_of is_blank bytes.now) }
{
    split_before(without_blanks(bytes), Separator::Blank)
}
