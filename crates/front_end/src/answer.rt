//! Answers: what a program answers.

use kw_base::Fault;
use kw_bits::Text;

/// What a program answers to its arguments and its source.
#[derive(Debug, Drop)]
pub enum Answer {
    /// The arguments are invalid.
    Usage,
    /// The source is refused.
    Refused(Fault),
    /// This text.
    Written(Text),
}
