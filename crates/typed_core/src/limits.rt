//! Core: limits of designs.

use kw_bits::TableSpec;

/// A register has this many ports, numbered from 0.
pub const PORTS: u32 = 4;

/// A design has at most this many registers.
pub const MAX_REGISTERS: usize = 256;

/// A design has at most this many inputs.
pub const MAX_INPUTS: usize = 256;

/// A design has at most this many rules.
pub const MAX_RULES: usize = 256;

/// A scheduler has at most this many nodes.
pub const MAX_NODES: usize = 1024;

/// A table's input has at most this many bits.
pub const MAX_TABLE_IN_WIDTH: u32 = TableSpec::MAX_IN_WIDTH;
