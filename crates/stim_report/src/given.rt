//! Reports: which inputs a line of a stimulus has assigned so far.

// Which inputs a line assigns.
ghost use Rattle.std.specs.Prelude.{◌≡◌, ◌<◌, IfOk, [], length};
ghost use Rattle.stim_report.specs.inner.Given.{AreGiven};

use kw_bits::{Bits, NoMemory};
use std::alloc::Global;

/// No input is assigned.
pub(crate) fn none_given(alloc: Global, inputs: usize) -> Result<Vec<bool>, NoMemory>
    ensures count { IfOk result (λ given. length given.items ≡ inputs) }
    ensures given { IfOk result (λ given. AreGiven given.items []) }
{
    Ok(vec![in alloc; false; inputs]?)
}

/// Takes back what a line assigned.
pub(crate) fn clear_given(given: &mut Vec<bool>, line: &[(u32, Bits)])
    requires { AreGiven given.old.items line.now }
    ensures count { length given.new.items ≡ length given.old.items }
    ensures given { AreGiven given.new.items [] }
{
    for assignment in line {
        let input = assignment.0 as usize;
        given[input] = false;
    }
}
