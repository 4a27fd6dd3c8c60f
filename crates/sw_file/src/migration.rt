//! Files of version 1 made files of version 2.
ghost use Rattle.std.specs.Prelude.{◌≡◌, ◌≤◌, ℕ, List, false, true, IfOk, Ok};
ghost use Rattle.toml.specs.Data.{members_depth, members_have_valid_dates};
ghost use Rattle.toml.specs.Text.{IsDocumentText};
ghost use Rattle.toml.specs.View.{table_view};
ghost use Rattle.sw_text.specs.Document.{document_of};
ghost use Rattle.sw_file.specs.Migration.{Migrates};
ghost use Rattle.sw_file.specs.Seen.{Admits};

use crate::document::{declared_network, declared_version};
use crate::fault::{MigrateFault, refusal};
use crate::order::table_ascends;
use crate::tree::migrate_table;
use std::alloc::{AllocError, Global};
use sw_text::{OrMemory, Version, read_document};
use toml::Table;

/// Refuses a table that declares no network, or one of a file of version 2 or 3.
fn admit(alloc: Global, table: &Table) -> Result<(), OrMemory<MigrateFault>>
    ensures { Admits (table_view table.now) result }
{
    match declared_network(alloc, table) {
        Ok(network) => network.discard(),
        Err(fault) => return Err(refusal(fault)),
    }
    match declared_version(alloc, table) {
        Ok(Version::One) => Ok(()),
        Ok(Version::Two | Version::Three) => Err(OrMemory::Fault(MigrateFault::NotOld)),
        Err(fault) => Err(refusal(fault)),
    }
}

/// The text of a table, which is not too deep to be read back.
fn text_of(alloc: Global, table: &Table) -> Result<Vec<u8>, AllocError>
    requires shallow { members_depth (table_view table.now) ≤ 80 }
    requires valid { members_have_valid_dates (table_view table.now) ≡ true }
    ensures text { IfOk result (λ v. IsDocumentText false (table_view table.now) v.items) }
    ensures reads_back { IfOk result (λ v. document_of v.items ≡ Ok (table_view table.now)) }
{
    match toml::table_to_string(alloc, table) {
        Ok(text) => Ok(text.into_bytes()),
        Err(_) => Err(AllocError),
    }
}

/// The text of the table made one of version 2: of each text whose document has the table, this is what migrating it gives.
fn migrated_text(alloc: Global, table: &mut Table) -> Result<Vec<u8>, OrMemory<MigrateFault>>
    ensures { (bytes : List ℕ) → document_of bytes ≡ Ok (table_view table.old) → Migrates bytes result }
{
    admit(alloc, table)?;
    table_ascends(table);
    match migrate_table(alloc, table) {
        Ok(()) => Ok(text_of(alloc, table)?),
        Err(fault) => Err(refusal(fault)),
    }
}

/// The text of the file as one of version 2: a TOML text of its tree with `version = 2`, in which each longest row of neighbouring entries of
/// a routing table, with addresses rising by one, the same list of ports and the same `delete`, is one entry: the first, with the key `last`.
///
/// # Errors
///
/// `Text`: the first fault of the text. `NotOld`: it declares a network, but is of version 2 or 3. `Memory`: there is no memory for what is
/// read and written; this tells nothing of the text.
pub fn migrate(alloc: Global, bytes: &[u8]) -> Result<Vec<u8>, OrMemory<MigrateFault>>
    ensures { Migrates bytes.now result }
{
    let mut table = read_document(alloc, bytes).map_err(refusal)?;
    migrated_text(alloc, &mut table)
}
