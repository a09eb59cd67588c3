//! Program: the watch on a design's assertions.

ghost use Rattle.std.specs.Prelude.{◌≡◌, [], IfOk};
ghost use Rattle.koika_check.specs.Typing.{IsTypedDesign};
ghost use Rattle.koika_assert.specs.Violations.{watched};
ghost use Rattle.front_end.specs.Marks.{marks_of};

use front_end::marked_names;
use koika_assert::Watch;
use koika_check::Checked;
use kw_bits::{NoMemory, Sequence};
use std::alloc::Global;

/// A watch on the rules of a design that are marked as assertions, with no rows yet.
pub fn watch_of(alloc: Global, design: &Checked) -> Result<Watch, NoMemory>
    requires { IsTypedDesign design.now }
    ensures { IfOk result (λ watch. watch ≡ watched (marks_of design.now).names (marks_of design.now).rules []) }
{
    let names = marked_names(alloc, design)?;
    let marks = Sequence::from_slice(alloc, design.asserts())?;
    Watch::new(alloc, names, marks)
}
