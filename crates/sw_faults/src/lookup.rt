//! Tables and values of a document, by where they stand.
ghost use Rattle.std.specs.Prelude.{◌≡◌, option_and_then, option_map};
ghost use Rattle.toml.specs.Data.{get_member};
ghost use Rattle.toml.specs.View.{table_view, view};
ghost use Rattle.sw_faults.specs.Lookup.{entry_of, inner_of, table_at, table_of, value_of};

use sw_text::{Key, Section, Standing};
use toml::{Table, Value};

/// What stands at this key of a table, if there is one.
pub(crate) fn member_of<'a>(table: Option<&'a Table>, key: &str) -> Option<&'a Value>
    ensures { option_map (λ v. view v.now) result ≡ option_and_then (get_member key.now) (option_map (λ t. table_view t.now) table.entry) }
{
    match table {
        Some(table) => table.get(key),
        None => None,
    }
}

/// The table at a key of a table, if there is one.
fn inner_of(table: Option<&Table>, key: Key) -> Option<&Table>
    ensures { option_map (λ t. table_view t.now) result ≡ option_and_then (inner_of key) (option_map (λ t. table_view t.now) table.entry) }
{
    match member_of(table, key.text()) {
        Some(value) => value.as_table(),
        None => None,
    }
}

/// The table at a place of the list at a key of a table, if there is one.
fn entry_of(table: Option<&Table>, key: Key, number: usize) -> Option<&Table>
    ensures { option_map (λ t. table_view t.now) result ≡ option_and_then (entry_of key number) (option_map (λ t. table_view t.now) table.entry) }
{
    let Some(list) = member_of(table, key.text()) else {
        return None;
    };
    match list.get(number) {
        Some(value) => value.as_table(),
        None => None,
    }
}

/// The table that stands so in a table, if there is one.
fn table_at(table: Option<&Table>, place: Standing) -> Option<&Table>
    ensures { option_map (λ t. table_view t.now) result ≡ option_and_then (table_at place) (option_map (λ t. table_view t.now) table.entry) }
{
    match place.number {
        Some(number) => entry_of(table, place.key, number),
        None => inner_of(table, place.key),
    }
}

/// The table of a section, where the document has one.
pub(crate) fn table_of(document: &Table, section: Section) -> Option<&Table>
    ensures { option_map (λ t. table_view t.now) result ≡ table_of section (table_view document.now) }
{
    let all = Some(document);
    let Some(place) = section.standing() else {
        return all;
    };
    match place.within.standing() {
        Some(outer) => table_at(table_at(all, outer), place),
        None => table_at(all, place),
    }
}

/// The value at a key of a section, where the document has one.
pub(crate) fn value_of<'a>(document: &'a Table, section: Section, key: &str) -> Option<&'a Value>
    ensures { option_map (λ v. view v.now) result ≡ value_of section key.now (table_view document.now) }
{
    member_of(table_of(document, section), key)
}
