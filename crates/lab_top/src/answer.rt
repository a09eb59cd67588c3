//! Answers: what the lab answers.

use kw_base::Fault;
use kw_bits::Text;

/// What the lab answers to its arguments and its source.
#[derive(Debug, Drop)]
pub enum LabAnswer {
    /// The arguments are invalid.
    Usage,
    /// The source is refused.
    Refused(Fault),
    /// This text.
    Written(Text),
    /// This text, which says that an assertion was violated or not watched.
    Failed(Text),
}
