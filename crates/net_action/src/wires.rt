//! Circuits: logs as wires.

use kw_bits::Sequence;
use net_graph::NetId;

/// A log as wires: which ports of each register were read and written, and with what. Each list has `PORTS` wires of
/// each register, by port.
#[derive(Drop)]
pub struct LogWires {
    /// Whether the register was read at the port.
    pub was_read: Sequence<NetId>,
    /// Whether it was written there.
    pub was_written: Sequence<NetId>,
    /// The value that was written there, which counts where one was.
    pub values: Sequence<NetId>,
}

/// What a rule runs after: the registers at the start of the cycle, and the scheduler log.
#[derive(Drop)]
pub struct PortWires {
    /// The value of each register at the start of the cycle.
    pub start: Sequence<NetId>,
    pub log: LogWires,
}

/// A rule as wires. Its log counts where it fires.
#[derive(Drop)]
pub struct RuleNet {
    /// Whether the rule reaches its end.
    pub fires: NetId,
    pub log: LogWires,
}
