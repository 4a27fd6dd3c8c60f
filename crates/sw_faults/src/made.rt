//! What calls of this crate give.
use std::alloc::AllocError;

/// What was made, or that there was no memory for it.
pub(crate) type Made<T> = Result<T, AllocError>;
