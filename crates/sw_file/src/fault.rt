//! Why a text is not migrated.
ghost use Rattle.std.specs.Prelude.{◌≡◌};
ghost use Rattle.sw_file.specs.Seen.{refusal};

use sw_text::{FileFault, OrMemory, TextFault};
use thiserror::Error;

/// Why a text is not migrated.
#[derive(Debug, Drop, Error)]
pub enum MigrateFault {
    /// The first fault of the text: it declares no network.
    #[error("the text has a fault")]
    Text(TextFault),
    /// The text is of version 2 or 3 already.
    #[error("the file is not of version 1")]
    NotOld,
}

/// A fault of reading as one of migrating.
pub(crate) fn refusal(fault: FileFault) -> OrMemory<MigrateFault>
    ensures { result ≡ refusal fault }
{
    match fault {
        OrMemory::Fault(fault) => OrMemory::Fault(MigrateFault::Text(fault)),
        OrMemory::Memory => OrMemory::Memory,
    }
}
