//! Why a step is not made.
ghost use Rattle.std.specs.Prelude.{◌≡◌};
ghost use Rattle.sw_cell.specs.declared.fault.NetFault.TheVariants.{Memory};

use std::alloc::AllocError;
use thiserror::Error;

/// Why a step is not made. Nothing has changed.
#[derive(Clone, Copy, Debug, PartialEq, Eq, Error)]
pub enum NetFault {
    /// The step is not possible.
    #[error("the step is not possible")]
    NotEnabled,
    /// The step begins a packet that no flow declares.
    #[error("no flow declares the packet")]
    NotInFlow,
    /// There is no memory for what the step stores.
    #[error("out of memory")]
    Memory,
}

impl From<AllocError> for NetFault {
    ghost from_gives = { λ _ e. e ≡ Memory };

    fn from(_error: AllocError) -> NetFault {
        NetFault::Memory
    }
}
