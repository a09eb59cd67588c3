//! Engines: externs as a design's tables and the values of its host functions.

use crate::externs::values::HostValues;
use ext_table::Table;
use kw_bits::Sequence;

/// What the actions of a design ask of the outside: its tables and the values of its host functions.
#[derive(Drop)]
pub struct Externs {
    pub(crate) tables: Sequence<Table>,
    pub(crate) hosts: Sequence<HostValues>,
}
