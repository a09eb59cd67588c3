//! The header of an AIGER text, and the sections that it counts.

ghost use Rattle.std.specs.Prelude.{◌≡◌};
ghost use Rattle.aiger_text.specs.Cuts.{words_of};
ghost use Rattle.aiger_text.specs.Headers as headers;

use crate::numbers::{Next, next_number};
use kw_base::texts::{Separator, next_word};

/// The numbers of a header: the greatest variable, and how many lines of each kind follow.
#[derive(Clone, Copy, Debug, PartialEq, Eq)]
pub(crate) struct Header {
    pub(crate) most: u64,
    pub(crate) inputs: u64,
    pub(crate) latches: u64,
    pub(crate) outputs: u64,
    pub(crate) gates: u64,
}

/// What a line after the header is for.
#[derive(Clone, Copy, Debug, PartialEq, Eq)]
pub(crate) enum Section {
    Input,
    Latch,
    Output,
    Gate,
    Symbol,
}

/// The header that a line is, if it is one.
pub(crate) fn header_of(line: &[u8]) -> Option<Header>
    ensures { result ≡ headers.header_of (words_of line.now) }
{
    let word = next_word(line, Separator::Blank)?;
    if word.bytes != b"aag".as_slice() {
        return None;
    }
    let Next::Number(most, rest) = next_number(word.rest) else {
        return None;
    };
    let Next::Number(inputs, rest) = next_number(rest) else {
        return None;
    };
    let Next::Number(latches, rest) = next_number(rest) else {
        return None;
    };
    let Next::Number(outputs, rest) = next_number(rest) else {
        return None;
    };
    let Next::Number(gates, rest) = next_number(rest) else {
        return None;
    };
    let Next::End = next_number(rest) else {
        return None;
    };
    if most < inputs || most - inputs < latches || most - inputs - latches < gates {
        return None;
    }
    Some(Header {
        most,
        inputs,
        latches,
        outputs,
        gates,
    })
}
