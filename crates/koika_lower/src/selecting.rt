//! Lowering: parts of values, and their replacement.

ghost use Rattle.std.specs.Prelude.{◌≡◌, ◌+◌, ◌≤◌, IfOk};
ghost use Rattle.koika_lower.specs.inner.Applied.{AllFit, IsReplaced, IsSelected, IsWithHigh, IsWithLow, SelectionFits, lowest_bit, lowest_of_all, part_width, range_at, width_of_all};

use crate::lowered::{Lowered, slice, two};
use koika_check::Selection;
use kw_bits::NoMemory;
use std::alloc::Global;
use typed_core::{Action, TwoOp};

/// Some of the bits of a value: the lowest of them, and how many they are.
#[derive(Clone, Copy)]
pub(crate) struct Range {
    pub lowest: u32,
    pub width: u32,
}

/// The bits of a selected part.
pub(crate) fn range_of(selection: Selection) -> Range
    ensures { SelectionFits selection → result ≡ range_at (lowest_bit selection) (part_width selection) }
{
    match selection {
        Selection::Field { lowest, width, .. } => Range { lowest, width },
        Selection::Item { index, width } => Range {
            lowest: index.saturating_mul(width),
            width,
        },
        Selection::Bits { high, low } => Range {
            lowest: low,
            width: high.saturating_sub(low).saturating_add(1),
        },
    }
}

/// The bits of a part, of a part of that, and so on, of a value of that many bits.
pub(crate) fn range_of_all(selections: &[Selection], width: u32) -> Range
    ensures { AllFit selections.now width → result ≡ range_at (lowest_of_all selections.now) (width_of_all selections.now width) }
{
    match selections.split_first() {
        Some((selection, rest)) => {
            let part = range_of(*selection);
            let inner = range_of_all(rest, part.width);
            Range {
                lowest: part.lowest.saturating_add(inner.lowest),
                width: inner.width,
            }
        }
        None => Range { lowest: 0, width },
    }
}

/// A part of a value. All its bits are the value itself.
pub(crate) fn selected(
    alloc: Global,
    selections: &[Selection],
    whole: Lowered,
) -> Result<Lowered, NoMemory>
    ensures { IfOk result (λ l. AllFit selections.now whole.width → IsSelected selections.now whole l) }
{
    let range = range_of_all(selections, whole.width);
    if range.width == whole.width {
        return Ok(whole);
    }
    let upper = range.lowest.saturating_add(range.width).saturating_sub(1);
    let action = slice(alloc, whole.action, upper, range.lowest)?;
    Ok(Lowered {
        action,
        width: range.width,
    })
}

/// The innermost name but one, of that many bits, with a range of its bits replaced by the innermost name.
pub(crate) fn replaced(alloc: Global, range: Range, width: u32) -> Result<Action, NoMemory>
    ensures { IfOk result (λ action. range.lowest + range.width ≤ width → width ≤ 128 → IsReplaced range width action) }
{
    let above = range.lowest.saturating_add(range.width);
    let action = with_high(alloc, above, width, Action::Local(0))?;
    with_low(alloc, range.lowest, action)
}

// The highest bits of the innermost name but one, from a bound on, above others.
fn with_high(alloc: Global, above: u32, width: u32, part: Action) -> Result<Action, NoMemory>
    ensures { IfOk result (IsWithHigh above width part) }
{
    if above < width {
        let high = slice(alloc, Action::Local(1), width - 1, above)?;
        two(alloc, TwoOp::Concat, high, part)
    } else {
        Ok(part)
    }
}

// The lowest bits of the innermost name but one below others.
fn with_low(alloc: Global, lowest: u32, part: Action) -> Result<Action, NoMemory>
    ensures { IfOk result (IsWithLow lowest part) }
{
    if lowest > 0 {
        let low = slice(alloc, Action::Local(1), lowest - 1, 0)?;
        two(alloc, TwoOp::Concat, part, low)
    } else {
        Ok(part)
    }
}
