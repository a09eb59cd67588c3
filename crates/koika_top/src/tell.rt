//! Engines: the one loop, which runs an engine in batches and writes what is shown of them.

ghost use Rattle.std.specs.Prelude.{◌≡◌, ◌≤◌, ℕ, [], OnOk, drop};
ghost use Rattle.stim_report.specs.Shapes.{RowsFit};
ghost use Rattle.koika_top.specs.inner.Engines.{AreRows};
ghost use Rattle.front_end.specs.Marks.{Marks};
ghost use Rattle.front_end.specs.Streams.{stream};
ghost use Rattle.koika_top.specs.inner.Telling.{GoesOnFrom, HasRows, TakesRows, all_told, marks_in, part_of_batch, shown_by};
ghost use Rattle.front_end.specs.Told.{Told};

use crate::ends::Ends;
use crate::engine::Engine;
use crate::teller::Teller;
use front_end::{BATCH, Untold, write_text};
use kw_io::Sink;
use std::alloc::Global;
use stim_report::Shape;

/// Runs an engine for these cycles, and writes what a teller that has no rows yet tells of its rows, batch by batch.
pub(crate) fn tell<E: Engine, K: Sink>(
    alloc: Global,
    engine: &mut E,
    cycles: u32,
    shape: &Shape,
    mut teller: Teller,
    sink: &mut K,
) -> Result<(), Untold>
    requires few { cycles ≤ 16777216 }
    requires stands { E.stands engine.old }
    requires at { E.at engine.old ≡ 0 }
    requires run { AreRows (E.rows_to engine.old) }
    requires fit { (n : ℕ) → RowsFit shape.now (E.rows_to engine.old n) }
    requires none { HasRows teller shape.now (marks_in teller) [] }
    ensures { Told (all_told (shown_by teller) shape.now (marks_in teller) (E.rows_to engine.old cycles))
        (stream K.written K.faults sink.old sink.new) result }
{
    let mut from = cycles.min(BATCH);
    let first = Ends { from: 0, to: from };
    tell_batch(alloc, engine, first, shape, &mut teller, sink)?;
    while from < cycles {
        let to = cycles.min(from + BATCH);
        let next = Ends { from, to };
        tell_batch(alloc, engine, next, shape, &mut teller, sink)?;
        from = to;
    }
    let ending = teller.ending(alloc)?;
    write_text(sink, ending.as_slice())
}

// Runs the cycles of a batch, and writes what the teller tells of its rows now. Where it tells nothing before the end, it
// takes the rows as the engine counts them.
fn tell_batch<E: Engine, K: Sink>(
    alloc: Global,
    engine: &mut E,
    ends: Ends,
    shape: &Shape,
    teller: &mut Teller,
    sink: &mut K,
) -> Result<(), Untold>
    requires stands { E.stands engine.old }
    requires at { E.at engine.old ≡ ends.from }
    requires order { ends.from ≤ ends.to }
    requires few { ends.to ≤ 16777216 }
    requires run { AreRows (E.rows_to engine.old) }
    requires fit { (n : ℕ) → RowsFit shape.now (E.rows_to engine.old n) }
    requires goes_on { GoesOnFrom teller.old shape.now ends.from }
    ensures same { OnOk result (E.rows_to engine.new ≡ E.rows_to engine.old) }
    ensures at { OnOk result (E.at engine.new ≡ ends.to) }
    ensures stands { OnOk result (E.stands engine.new) }
    ensures rows { OnOk result ((marks : Marks) →
        TakesRows shape.now marks teller.old teller.new (drop ends.from (E.rows_to engine.old ends.to))) }
    ensures told { Told
        (part_of_batch (shown_by teller.old) shape.now (drop ends.from (E.rows_to engine.old ends.to)) ends.from)
        (stream K.written K.faults sink.old sink.new) result }
{
    if teller.writes_rows() || ends.from == ends.to {
        return tell_rows(alloc, engine, ends, shape, teller, sink);
    }
    engine.count(alloc, ends, shape, teller)?;
    Ok(())
}

// Runs the cycles of a batch and tells its rows.
fn tell_rows<E: Engine, K: Sink>(
    alloc: Global,
    engine: &mut E,
    ends: Ends,
    shape: &Shape,
    teller: &mut Teller,
    sink: &mut K,
) -> Result<(), Untold>
    requires stands { E.stands engine.old }
    requires at { E.at engine.old ≡ ends.from }
    requires order { ends.from ≤ ends.to }
    requires few { ends.to ≤ 16777216 }
    requires run { AreRows (E.rows_to engine.old) }
    requires fit { (n : ℕ) → RowsFit shape.now (E.rows_to engine.old n) }
    requires goes_on { GoesOnFrom teller.old shape.now ends.from }
    ensures same { OnOk result (E.rows_to engine.new ≡ E.rows_to engine.old) }
    ensures at { OnOk result (E.at engine.new ≡ ends.to) }
    ensures stands { OnOk result (E.stands engine.new) }
    ensures rows { OnOk result ((marks : Marks) →
        TakesRows shape.now marks teller.old teller.new (drop ends.from (E.rows_to engine.old ends.to))) }
    ensures told { Told
        (part_of_batch (shown_by teller.old) shape.now (drop ends.from (E.rows_to engine.old ends.to)) ends.from)
        (stream K.written K.faults sink.old sink.new) result }
{
    let rows = engine.batch(alloc, ends.to)?;
    let text = teller.take(alloc, shape, &rows, ends.from)?;
    write_text(sink, text.as_slice())
}
