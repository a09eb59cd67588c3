//! Trees: why reading ends.

use kw_bits::Failure;

/// Why reading ends at the token where the cursor is.
#[derive(Clone, Copy, Debug)]
pub(crate) enum Unread {
    /// The grammar doesn't allow it, or it is missing.
    Unexpected,
    /// It opens a bracket too many.
    TooDeep,
}

/// Why reading ends: at that token, or since memory ran out.
pub(crate) type Stop = Failure<Unread>;
