//! Core: a table that keeps an entry for each input.

ghost use Rattle.std.specs.Prelude.{◌≡◌, ◌^◌, ◌≤◌, ◌↔◌, length, slice_get, All, Some, IsOk, IfOk, codes};
ghost use Rattle.kw_bits.specs.BitVector.{BitVector};
ghost use Rattle.kw_bits.specs.Laws.{HasWidth};
ghost use Rattle.kw_bits.specs.Tables.{IsTable};

use kw_bits::{Bits, Sequence, TableSpec};
use std::error::Error;
use std::fmt;
use std::marker::Model;

/// A table from bit vectors of 1 to 12 bits to bit vectors of one width, with an entry for each input.
#[derive(Debug, Drop)]
pub struct Table {
    spec: TableSpec,
}

impl Model for Table {
    ghost use Rattle.kw_bits.specs.Tables.{IsTable};
    ghost use Rattle.kw_bits.specs.declared.table.TableSpec.{TableSpec};

    ghost Value = { TableSpec };

    ghost view = { λ t. t.spec };

    ghost invariant = { λ t. IsTable t.spec };
}

impl Table {
    /// The table of these entries, in order of the input. A table of `in_width` bits needs 2 to the `in_width` of them.
    pub fn new(in_width: u32, out_width: u32, entries: Vec<Bits>) -> Result<Table, TableLength>
        requires some_input { 1 ≤ in_width }
        requires few_inputs { in_width ≤ TableSpec.MAX_IN_WIDTH }
        requires entries { All (λ (entry : BitVector). HasWidth entry out_width) entries.items }
        ensures ok { IsOk result ↔ (length entries.items ≡ 2 ^ in_width) }
        ensures table { IfOk result
            (λ table. table ≡ record { in_width = in_width; out_width = out_width; entries = entries.items }) }
    {
        if entries.len() != 1 << in_width {
            return Err(TableLength);
        }
        let entries = Sequence::from_vec(entries);
        Ok(Table {
            spec: TableSpec {
                in_width,
                out_width,
                entries,
            },
        })
    }

    /// How many bits an input has.
    pub fn in_width(&self) -> u32
        ensures width { result ≡ self.now.in_width }
        ensures table { IsTable self.now }
    {
        self.spec.in_width
    }

    /// How many bits an entry has.
    pub fn out_width(&self) -> u32
        ensures width { result ≡ self.now.out_width }
        ensures table { IsTable self.now }
    {
        self.spec.out_width
    }

    /// The entry of this input.
    pub fn look(&self, x: Bits) -> Bits
        requires { x.width ≡ self.now.in_width }
        ensures entry { slice_get self.now.entries x.number ≡ Some result }
        ensures width { HasWidth result self.now.out_width }
    {
        *self.spec.entries.get(x.number() as usize)
    }
}

/// There isn't an entry for each input, or there are more.
#[derive(Clone, Copy, Debug, PartialEq, Eq)]
pub struct TableLength;

impl fmt::Display for TableLength {
    ghost output = { λ _. Some (codes "a table needs one entry for each input") };

    fn fmt<W: fmt::Write>(&self, f: &mut fmt::Formatter<W>) -> fmt::Result {
        f.write_str("a table needs one entry for each input")
    }
}

impl Error for TableLength {}
