//! Why a step is not committed.

use thiserror::Error;

/// Why a step is not committed. Nothing has changed.
#[derive(Clone, Copy, Debug, PartialEq, Eq, Error)]
pub enum JournalFault {
    /// The step may not be the next, or is not one of this cell.
    #[error("the step is not possible")]
    NotEnabled,
    /// The history is as long as it may be.
    #[error("the journal is full")]
    Full,
    /// There is no memory for what the step stores.
    #[error("out of memory")]
    Memory,
}
