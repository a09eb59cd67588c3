//! Circuits: the reader of BTOR2 files, from a text to its lines or its first fault.

ghost use Rattle.std.specs.Prelude.{◌≡◌, ◌∷◌, ◌↔◌, IsTrue, List, IfOk};
ghost use Rattle.kw_base.specs.Fault.{IfFault, IsOkUnlessNoMemory, IsFaultUnlessNoMemory};
ghost use Rattle.kw_base.specs.declared.fault.Fault.{Fault as FaultOf};
ghost use Rattle.btor2_text.specs.Cut.{tokens_of, words_of};
ghost use Rattle.btor2_text.specs.inner.Flaws.{IsRefusal, GivesLine, GivesForm};
ghost use Rattle.btor2_text.specs.Forms.{keyword_text};
ghost use Rattle.btor2_text.specs.Lines.{IsArraySort, IsLeftOut};
ghost use Rattle.btor2_text.specs.Printable.{ArePrintable};
ghost use Rattle.btor2_text.specs.Reading.{AreLinesOf, IsFirstFaultOf};
ghost use Rattle.btor2_text.specs.declared.line.Line.{Line as LineOf};

use crate::argument::{has_minus, read_arguments, read_id, read_symbol, skip_tokens};
use crate::cut::next_token;
use crate::keyword::is_left_out;
use crate::{Keyword, Line, Lines};
use kw_base::texts::{Separator, Word, before_first, cut};
use kw_base::{Fault, Place, Refusal, fault_number};
use kw_bits::{Failure, Sequence};
use std::alloc::Global;

/// Why a row of tokens is no line.
#[derive(Clone, Copy, Debug, PartialEq, Eq)]
pub(crate) enum Unread {
    /// It is of no form.
    Malformed,
    /// It is of a form that BTOR2 has and this project leaves out.
    LeftOut,
}

// The refusal of the line of this number.
fn refusal(failure: Failure<Unread>, number: u32) -> Refusal
    ensures { IsRefusal failure number result }
{
    let place = Place {
        line: number,
        column: 1,
    };
    match failure {
        Failure::Why(Unread::Malformed) => {
            Refusal::Fault(Fault::new(fault_number::MALFORMED_LINE, place))
        }
        Failure::Why(Unread::LeftOut) => {
            Refusal::Fault(Fault::new(fault_number::FORM_LEFT_OUT, place))
        }
        Failure::NoMemory => Refusal::NoMemory,
    }
}

/// The lines of a BTOR2 text, or the fault of its first faulty line: 54 for a form of BTOR2 that is left out, 50 for
/// any other line that is of no form. A line after line 4,294,967,295 is given that number.
pub fn read_lines(alloc: Global, text: &[u8]) -> Result<Lines, Refusal>
    ensures lines { IfOk result (AreLinesOf text.now) }
    ensures printable { IfOk result ArePrintable }
    ensures fault { IfFault result (IsFirstFaultOf text.now) }

    // The lines of a text are one list, its first fault is one, and no text has both.
    ensures accepted { (lines : List LineOf) → AreLinesOf text.now lines → IsOkUnlessNoMemory result (λ found. found ≡ lines) }
    ensures refused { (fault : FaultOf) → IsFirstFaultOf text.now fault → IsFaultUnlessNoMemory result fault }
{
    let mut lines = Sequence::new(alloc);
    let mut number: u32 = 0;
    let mut rest = Some(text);
    while let Some(text) = rest {
        let (line, after) = cut(text, Separator::LineFeed);
        number = number.saturating_add(1);
        match read_line(alloc, line, number) {
            Ok(Some(line)) => lines.push(line)?,
            Ok(None) => (),
            Err(flaw) => return Err(refusal(flaw, number)),
        }
        rest = after;
    }
    Ok(lines)
}

// What the line of this number is: nothing, where it has no token.
fn read_line(alloc: Global, line: &[u8], number: u32) -> Result<Option<Line>, Failure<Unread>>
    ensures { GivesLine number (tokens_of line.now) result }
{
    let Some(id) = next_token(before_first(line, Separator::Semicolon)) else {
        return Ok(None);
    };
    let Some(word) = next_token(id.rest) else {
        return Err(Failure::Why(Unread::Malformed));
    };
    if is_left_out(word.bytes) || is_array_sort(word) {
        return Err(Failure::Why(Unread::LeftOut));
    }
    match Keyword::of_word(word.bytes) {
        Some(keyword) => Ok(Some(read_form(alloc, keyword, id.bytes, word.rest, number)?)),
        None => Err(Failure::Why(Unread::Malformed)),
    }
}

// Whether these are a keyword and a token of a sort of arrays.
fn is_array_sort(word: Word<'_>) -> bool
    ensures { IsTrue result ↔ IsArraySort word.entry.bytes.now (words_of word.entry.rest.now) }
{
    match next_token(word.rest) {
        Some(next) => word.bytes == Keyword::Sort.text() && next.bytes == b"array".as_slice(),
        None => false,
    }
}

// The line of this keyword whose id is a token, and whose other tokens follow the keyword.
fn read_form(
    alloc: Global,
    keyword: Keyword,
    id: &[u8],
    bytes: &[u8],
    number: u32,
) -> Result<Line, Failure<Unread>>
    requires { ¬ IsLeftOut (id.now ∷ keyword_text keyword ∷ words_of bytes.now) }
    ensures { GivesForm number (id.now ∷ keyword_text keyword ∷ words_of bytes.now) result }
{
    let kinds = keyword.kinds();
    let Some(rest) = skip_tokens(kinds.len(), bytes) else {
        return Err(Failure::Why(Unread::Malformed));
    };
    let symbol = read_symbol(alloc, rest)?;
    if has_minus(kinds, bytes) {
        return Err(Failure::Why(Unread::LeftOut));
    }
    let id = read_id(id)?;
    let arguments = read_arguments(alloc, kinds, bytes)?;
    Ok(Line {
        id,
        keyword,
        arguments,
        symbol,
        number,
    })
}
