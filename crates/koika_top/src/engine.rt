//! Engines: what an engine is, a run that is made in batches.

ghost use Rattle.std.specs.Prelude.{◌≡◌, ◌≤◌, ◌<◌, ℕ, List, IfOk, OnOk, drop};
ghost use Rattle.front_end.specs.Marks.{Marks};
ghost use Rattle.koika_top.specs.inner.Engines.{AreRows};
ghost use Rattle.koika_top.specs.inner.Telling.{GoesOnFrom, TakesRows};
ghost use Rattle.one_rule.specs.declared.rows.Row.{Row};
ghost use Rattle.stim_report.specs.Shapes.{RowsFit};

use crate::ends::Ends;
use crate::teller::Teller;
use kw_bits::NoMemory;
use one_rule::Rows;
use std::alloc::Global;
use stim_report::Shape;

/// A run that is made in batches. The one loop that writes a run takes any engine.
pub(crate) trait Engine {
    /// The rows of its first cycles.
    ghost rows_to: { Self → ℕ → List Row };

    /// The cycle up to which it has run.
    ghost at: { Self → ℕ };

    /// What it keeps between batches.
    ghost stands: { Self → Type 0 };

    /// The rows from the cycle up to which it has run to this one, up to which it then has.
    fn batch(&mut self, alloc: Global, to: u32) -> Result<Rows, NoMemory>
        requires stands { stands self.old }
        requires order { at self.old ≤ to }
        requires few { to ≤ 16777216 }
        ensures rows { IfOk result (λ rows. rows ≡ drop (at self.old) (rows_to self.old to)) }
        ensures same { OnOk result (rows_to self.new ≡ rows_to self.old) }
        ensures at { OnOk result (at self.new ≡ to) }
        ensures stands { OnOk result (stands self.new) };

    /// Runs on to a later cycle, and lets a teller take the rows from one to the other. What the teller writes of them is
    /// lost, so this is for tellers that write nothing before the last batch. An engine may do it without making rows.
    fn count(
        &mut self,
        alloc: Global,
        ends: Ends,
        shape: &Shape,
        teller: &mut Teller,
    ) -> Result<(), NoMemory>
        requires stands { stands self.old }
        requires at { at self.old ≡ ends.from }
        requires order { ends.from < ends.to }
        requires few { ends.to ≤ 16777216 }
        requires run { AreRows (rows_to self.old) }
        requires fit { (n : ℕ) → RowsFit shape.now (rows_to self.old n) }
        requires goes_on { GoesOnFrom teller.old shape.now ends.from }
        ensures same { OnOk result (rows_to self.new ≡ rows_to self.old) }
        ensures at { OnOk result (at self.new ≡ ends.to) }
        ensures stands { OnOk result (stands self.new) }
        ensures rows { OnOk result ((marks : Marks) →
            TakesRows shape.now marks teller.old teller.new (drop ends.from (rows_to self.old ends.to))) };
}
