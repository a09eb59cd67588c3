//! A bound that only values that cross threads meet.

/// Whether a value crosses threads is its type's to say.
pub(crate) fn crosses_threads<T: Send + Sync>(_: &T) {}
