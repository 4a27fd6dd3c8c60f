//! Why a step is not added to a history.

use thiserror::Error;

/// Why a step is not added. Nothing has changed.
#[derive(Clone, Copy, Debug, PartialEq, Eq, Error)]
pub enum StepFault {
    /// The step is not possible, or begins a packet that is not its node's next.
    #[error("the step is not possible")]
    NotEnabled,
    /// There is no memory for what the step stores.
    #[error("out of memory")]
    Memory,
}
