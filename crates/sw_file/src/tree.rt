//! The tree of a file made one of version 2.
ghost use Rattle.std.specs.Prelude.{◌≡◌, List, map, IfOk, Ok, OnOk};
ghost use Rattle.toml.specs.Data.{Members, table as table_data};
ghost use Rattle.toml.specs.View.{view, table_view};
ghost use Rattle.sw_text.specs.Gives.{Gives};
ghost use Rattle.sw_text.specs.declared.keys.Key.TheVariants.{Route};
ghost use Rattle.sw_file.specs.Tree.{with_key, with_tables, row_table, merged_switch, new_switches, as_values, migrated};
ghost use Rattle.sw_file.specs.Rows.{rows};
ghost use Rattle.sw_file.specs.Seen.{entry_view, row_view};

use crate::rows::{RouteEntry, Row, entry_of, rows};
use std::alloc::{AllocError, Global};
use sw_text::{FileFault, Key, Section, TableEntry};
use toml::value::Array;
use toml::{Table, Value};

fn put(alloc: Global, table: &mut Table, key: Key, value: Value) -> Result<(), AllocError>
    ensures { OnOk result (table_view table.new ≡ with_key key (view value) (table_view table.old)) }
{
    let name = String::from_str(alloc, key.text())?;
    table.insert(name, value)?;
    Ok(())
}

/// Makes the tables the value of the key, if the table has it.
fn put_tables(alloc: Global, table: &mut Table, key: Key, tables: Array) -> Result<(), AllocError>
    ensures { (listed : List Members) → map view tables.items ≡ map table_data listed → OnOk result (table_view table.new ≡ with_tables key listed (table_view table.old)) }
{
    if !table.contains_key(key.text()) {
        return Ok(());
    }
    put(alloc, table, key, Value::Array(tables))
}

fn copy(table: &Table) -> Result<Table, AllocError>
    ensures { IfOk result (λ t. table_view t ≡ table_view table.now) }
{
    table.clone()
}

fn row_table(alloc: Global, row: &Row) -> Result<Table, AllocError>
    ensures { IfOk result (λ t. table_view t ≡ row_table (row_view row.now)) }
{
    let mut table = copy(row.first.table)?;
    if row.first.address != row.last {
        put(
            alloc,
            &mut table,
            Key::Last,
            Value::Integer(row.last as i64),
        )?;
    }
    Ok(table)
}

/// A copy of the switch's table, with an entry for each row of these.
fn merged_table<'a>(
    alloc: Global,
    table: &Table,
    entries: &'a [RouteEntry<'a>],
) -> Result<Table, FileFault>
    ensures { Gives (λ t. table_view t) result (Ok (with_tables Route (map row_table (rows (map entry_view entries.now))) (table_view table.now))) }
{
    let rows = rows(alloc, entries)?;
    let mut routes = Vec::new(alloc);
    for row in &rows {
        let route = row_table(alloc, row)?;
        routes.push(Value::Table(route))?;
    }
    let mut merged = copy(table)?;
    match put_tables(alloc, &mut merged, Key::Route, routes) {
        Ok(()) => Ok(merged),
        Err(_) => {
            drop(merged);
            Err(FileFault::Memory)
        }
    }
}

#[tactic(auto, unfolding(crate::specs::Tree::merged_switch))]
fn merged_switch(alloc: Global, table: &Table) -> Result<Table, FileFault>
    ensures { Gives (λ t. table_view t) result (merged_switch (table_view table.now)) }
{
    let switch = TableEntry {
        section: Section::Document,
        table,
    };
    let tables = switch.tables_or_none(alloc, Key::Route)?;
    let mut entries = Vec::new(alloc);
    for route in &tables {
        let entry = entry_of(alloc, route)?;
        entries.push(entry)?;
    }
    merged_table(alloc, table, &entries)
}

/// The tables of the document's switches, their routing tables merged.
#[tactic(auto, unfolding(crate::specs::Tree::new_switches))]
fn new_switches(alloc: Global, table: &Table) -> Result<Array, FileFault>
    ensures { Gives (λ v. map view v.items) result (as_values (new_switches (table_view table.now))) }
{
    let document = TableEntry {
        section: Section::Document,
        table,
    };
    let tables = document.tables_or_none(alloc, Key::Switch)?;
    let mut switches = Vec::new(alloc);
    for table in &tables {
        let switch = merged_switch(alloc, table)?;
        switches.push(Value::Table(switch))?;
    }
    Ok(switches)
}

/// Makes the document's table one of version 2.
#[tactic(auto, unfolding(crate::specs::Tree::migrated))]
pub(crate) fn migrate_table(alloc: Global, document: &mut Table) -> Result<(), FileFault>
    ensures { Gives (λ _. table_view document.new) result (migrated (table_view document.old)) }
{
    let switches = new_switches(alloc, document)?;
    put(alloc, document, Key::Version, Value::Integer(2))?;
    put_tables(alloc, document, Key::Switch, switches)?;
    Ok(())
}
