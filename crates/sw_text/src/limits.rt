//! How long a text may be.

/// The most bytes that a text may have which is read or written as a whole.
pub const MAX_TEXT: usize = 67_108_864;
