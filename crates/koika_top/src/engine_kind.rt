//! Program: how the run of a design is made.

/// How the run of a design is made.
#[derive(Clone, Copy, Debug, PartialEq, Eq)]
pub enum EngineKind {
    /// Rule by rule, as the scheduler tries them.
    Plain,
    /// By the circuit that the design is compiled to.
    Circuit,
    /// Rule by rule, by that many workers: 1 to 64.
    Workers(u32),
}
