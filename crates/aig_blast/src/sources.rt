//! The literals of sources, word after word.

ghost use Rattle.std.specs.Prelude.{◌≡◌, ◌+◌, ◌≤◌, ◌^◌, IfOk, sum};
ghost use Rattle.aig_blast.specs.inner.Sources.{source_word as source_word_lem, source_words as source_words_lem};

use crate::gate::Lit;
use crate::graph::Graph;
use kw_bits::{NoMemory, Sequence};
use std::alloc::Global;

/// The literals of a word, bit 0 first.
pub(crate) type Word = Sequence<Lit>;

/// The words of sources of these widths after this many others, and how many sources there are then.
pub(crate) fn source_words(
    alloc: Global,
    start: u64,
    widths: &[u32],
) -> Result<(Sequence<Word>, u64), NoMemory>
    requires { start ≤ 2 ^ 60 }
    ensures words { IfOk result (λ r. r.0 ≡ source_words_lem start widths.now) }
    ensures count { IfOk result (λ r. r.1 ≡ start + sum widths.now) }
    ensures few { IfOk result (λ r. r.1 ≤ 2 ^ 60) }
{
    let mut words = Sequence::new(alloc);
    let mut next = start;
    for width in widths {
        let after = sources_after(next, *width)?;
        words.push(source_word(alloc, next, *width)?)?;
        next = after;
    }
    Ok((words, next))
}

// How many sources there are after a word of this many more.
fn sources_after(before: u64, width: u32) -> Result<u64, NoMemory>
    requires { before ≤ 2 ^ 60 }
    ensures count { IfOk result (λ count. count ≡ before + width) }
    ensures few { IfOk result (λ count. count ≤ 2 ^ 60) }
{
    let count = before + width as u64;
    if count > Graph::MOST_VARIABLES {
        return Err(NoMemory);
    }
    Ok(count)
}

// The literals of this many sources after others.
fn source_word(alloc: Global, start: u64, width: u32) -> Result<Word, NoMemory>
    requires { start ≤ 2 ^ 60 }
    ensures { IfOk result (λ word. word ≡ source_word_lem start width) }
{
    let mut word = Sequence::new(alloc);
    for k in 0..width {
        word.push(2 * (start + k as u64) + 2)?;
    }
    Ok(word)
}
