//! Texts that could not be read.
ghost use Rattle.std.specs.Prelude.{◌≡◌, IfErr, IfOk};
ghost use Rattle.sw_faults.specs.Entries.{IsOfText};
ghost use Rattle.sw_text.specs.declared.fault.OrMemory.TheVariants.{Memory};

use std::alloc::AllocError;
use sw_text::FileFault;

/// Lets the fault of a text go.
///
/// # Errors
///
/// It is no fault of the text: there was no memory to read it.
pub fn text_fault(fault: FileFault) -> Result<(), AllocError>
    ensures of_the_text { IfOk result (λ _. IsOfText fault) }
    ensures unread { IfErr result (λ _. fault ≡ Memory) }
{
    match fault {
        FileFault::Fault(_) => Ok(()),
        FileFault::Memory => Err(AllocError),
    }
}
