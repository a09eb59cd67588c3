//! Tables: functions of bit vectors that are given by the list of their values.
//!
//! Contracts see a `Table` as a `TableSpec` that has an entry for each input, and cite `IsTable` of `kw_bits`. The `Externs`
//! of `one_rule`, which rules ask as they are evaluated, keep one for each table of a design.
#![tactic(auto)]

mod table;

pub use table::{Table, TableLength};
