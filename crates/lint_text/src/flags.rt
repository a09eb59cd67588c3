//! Lint's text: lists of flags.

ghost use Rattle.std.specs.Prelude.{◌≡◌, IfOk, replicate, false, slice_index_or};
ghost use Rattle.lint_text.specs.Findings.{is_set};

use kw_bits::{NoMemory, Sequence};
use std::alloc::Global;

/// Whether the flag of this number is set.
pub(crate) fn is_set(flags: &Sequence<bool>, number: usize) -> bool
    ensures { result ≡ is_set flags.now number }
{
    flag_or(flags, number, false)
}

/// The flag of this number, if there is one.
pub(crate) fn flag_or(flags: &Sequence<bool>, number: usize, other: bool) -> bool
    ensures { result ≡ slice_index_or flags.now number other }
{
    if number < flags.len() {
        flags[number]
    } else {
        other
    }
}

/// That many flags, none of them set.
pub(crate) fn no_flags(alloc: Global, count: usize) -> Result<Sequence<bool>, NoMemory>
    ensures { IfOk result (λ flags. flags ≡ replicate count false) }
{
    let mut flags = Sequence::new(alloc);
    for _ in 0..count {
        flags.push(false)?;
    }
    Ok(flags)
}
