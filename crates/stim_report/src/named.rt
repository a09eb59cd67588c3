//! Reports: names and widths, and lists of them made from lists of what has them.

ghost use Rattle.std.specs.Prelude.{◌≡◌, IfOk, Ok, map};

use crate::shape::NameWidth;
use kw_bits::{NoMemory, Sequence, Text};
use std::alloc::Global;

impl NameWidth {
    /// This name with this width. The only error is to be out of memory.
    pub fn of(alloc: Global, name: &[u8], width: u32) -> Result<NameWidth, NoMemory>
        ensures { IfOk result (λ named. named ≡ record { name = name.now; width = width }) }
    {
        let name = Text::from_slice(alloc, name)?;
        Ok(NameWidth { name, width })
    }
}

/// What `make` gives for each item, in order, or its first error. Where a function f of the items says what a call
/// gives, the result is f of each item.
pub fn try_map<T, U: Drop, F: Fn(&T) -> Result<U, NoMemory>>(
    alloc: Global,
    items: &[T],
    make: F,
) -> Result<Sequence<U>, NoMemory>
    requires { F.IsAlwaysCallable make }
    ensures { (f : T → U) → ((x : _) (y : U) → F.post make x (Ok y) → y ≡ f x.now) →
        IfOk result (λ all. all ≡ map f items.now) }
{
    let mut all = Sequence::new(alloc);
    for item in items {
        all.push(make(item)?)?;
    }
    Ok(all)
}
