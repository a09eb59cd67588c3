//! Program: what is shown of a run.

/// What is shown of a run.
#[derive(Clone, Copy, Debug, PartialEq, Eq)]
pub enum Shown {
    /// A line for each cycle.
    Report,
    /// How often each rule fired, and the last registers.
    Summary,
}
