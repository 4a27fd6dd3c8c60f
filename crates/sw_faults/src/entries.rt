//! What the entries of a document say, as far as they say it.
ghost use Rattle.std.specs.Prelude.{◌≡◌, IfOk, map, option_and_then, option_map};
ghost use Rattle.toml.specs.Data.{as_integer, get_member};
ghost use Rattle.toml.specs.View.{table_view, view};
ghost use Rattle.sw_text.specs.Keys.{key_text};
ghost use Rattle.sw_text.specs.Table.{in_range};
ghost use Rattle.sw_faults.specs.Entries.{number_in, range_in, tables_of, text_in, text_of};

use crate::lookup::{member_of, value_of};
use crate::unread::text_fault;
use std::alloc::{AllocError, Global};
use sw_text::{Key, Section, TableEntry};
use sw_topo::limits::{FIRST_LOGICAL, LAST_LOGICAL};
use toml::{Table, Value};

/// The text at a key of a table of the document.
pub fn text_of(document: &Table, section: Section, key: Key) -> Option<&str>
    ensures { option_map (λ t. t.now) result ≡ text_of section key (table_view document.now) }
{
    match value_of(document, section, key.text()) {
        Some(value) => value.as_str(),
        None => None,
    }
}

/// The tables of a list of a table.
///
/// # Errors
///
/// There is no memory for the list.
pub(crate) fn tables_of<'a>(
    alloc: Global,
    table: &'a Table,
    list: Key,
) -> Result<Vec<&'a Table>, AllocError>
    ensures { IfOk result (λ v. map (λ t. table_view t.now) v.items ≡ tables_of list (table_view table.now)) }
{
    let entry = TableEntry {
        section: Section::Document,
        table,
    };
    match entry.tables_or_none(alloc, list) {
        Ok(tables) => Ok(tables),
        Err(fault) => {
            text_fault(fault)?;
            Ok(Vec::new(alloc))
        }
    }
}

/// The text at a key of a table.
pub(crate) fn text_in(table: &Table, key: Key) -> Option<&str>
    ensures { option_map (λ t. t.now) result ≡ text_in key (table_view table.now) }
{
    match member_of(Some(table), key.text()) {
        Some(value) => value.as_str(),
        None => None,
    }
}

/// The number that a value is, if it is one of these.
fn number_of(value: &Value, low: u64, high: u64) -> Option<u64>
    ensures { result ≡ option_and_then (in_range low high) (as_integer (view value.now)) }
{
    let Some(number) = value.as_integer() else {
        return None;
    };
    match u64::try_from(number) {
        Ok(number) if low <= number && number <= high => Some(number),
        _ => None,
    }
}

/// The number at a key of a table, if it is one of these.
pub(crate) fn number_in(table: &Table, key: Key, low: u64, high: u64) -> Option<u64>
    ensures { result ≡ number_in key low high (table_view table.now) }
{
    match member_of(Some(table), key.text()) {
        Some(value) => number_of(value, low, high),
        None => None,
    }
}

/// The first and the last address of an entry of a routing table.
pub(crate) fn range_in(route: &Table) -> Option<(u64, u64)>
    ensures { result ≡ range_in (table_view route.now) }
{
    let Some(first) = number_in(route, Key::Address, FIRST_LOGICAL, LAST_LOGICAL) else {
        return None;
    };
    let Some(value) = member_of(Some(route), Key::Last.text()) else {
        return Some((first, first));
    };
    match number_of(value, first, LAST_LOGICAL) {
        Some(last) => Some((first, last)),
        None => None,
    }
}
