//! A text as a document.
ghost use Rattle.toml.specs.View.{table_view};
ghost use Rattle.sw_text.specs.Gives.{Gives};
ghost use Rattle.sw_text.specs.Document.{document_of};

use crate::fault::{FileFault, TextFault};
use std::alloc::Global;
use toml::Table;

/// The table of the TOML document that the bytes are.
///
/// # Errors
///
/// The bytes are not UTF-8 or not TOML, or there is no memory for the table.
pub fn read_document(alloc: Global, bytes: &[u8]) -> Result<Table, FileFault>
    ensures { Gives (λ t. table_view t) result (document_of bytes.now) }
{
    match toml::table_from_slice(alloc, bytes) {
        Ok(table) => Ok(table),
        Err(error) => {
            if error.is_memory() {
                return Err(FileFault::Memory);
            }
            Err(FileFault::Fault(TextFault::Syntax))
        }
    }
}
