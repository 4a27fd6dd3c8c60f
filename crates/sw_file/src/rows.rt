//! The entries of a routing table, and their rows.
ghost use Rattle.std.specs.Prelude.{◌≡◌, map, IfOk};
ghost use Rattle.toml.specs.View.{table_view};
ghost use Rattle.sw_text.specs.Gives.{Gives};
ghost use Rattle.sw_file.specs.Rows.{alone, goes_on, rows};
ghost use Rattle.sw_file.specs.Tree.{entry_of};
ghost use Rattle.sw_file.specs.Seen.{entry_view, row_view};

use std::alloc::{AllocError, Global};
use sw_text::{FileFault, Key, Section, TableEntry};
use sw_topo::limits::{FIRST_LOGICAL, LAST_LOGICAL, MAX_PORT};
use toml::Table;

/// An entry of a routing table as it is written.
#[derive(Drop)]
pub(crate) struct RouteEntry<'a> {
    pub(crate) table: &'a Table,
    pub(crate) address: u8,
    pub(crate) ports: Vec<u8>,
    pub(crate) delete: bool,
}

/// Neighbouring entries that one entry can say: the first of them, and the address of the last.
#[derive(Clone, Copy)]
pub(crate) struct Row<'a> {
    pub(crate) first: &'a RouteEntry<'a>,
    pub(crate) last: u8,
}

#[tactic(auto, unfolding(crate::specs::Tree::entry_of))]
pub(crate) fn entry_of<'a>(alloc: Global, table: &'a Table) -> Result<RouteEntry<'a>, FileFault>
    ensures { Gives (λ e. entry_view e) result (entry_of (table_view table.now)) }
{
    let route = TableEntry {
        section: Section::Document,
        table,
    };
    let address = route.number(Key::Address, FIRST_LOGICAL, LAST_LOGICAL)?;
    let ports = route.numbers(alloc, Key::Ports, MAX_PORT as u8)?;
    let delete = route.flag_or_false(Key::Delete)?;
    Ok(RouteEntry {
        table,
        address: address as u8,
        ports,
        delete,
    })
}

fn single_row<'a>(entry: &'a RouteEntry<'a>) -> Row<'a>
    ensures { row_view result ≡ alone (entry_view entry.now) }
{
    Row {
        first: entry,
        last: entry.address,
    }
}

fn goes_on(row: &Row, entry: &RouteEntry) -> bool
    ensures { result ≡ goes_on (row_view row.now) (entry_view entry.now) }
{
    entry.address as u16 == row.last as u16 + 1
        && entry.ports.as_slice() == row.first.ports.as_slice()
        && entry.delete == row.first.delete
}

/// The entries as rows, each the longest.
pub(crate) fn rows<'a>(
    alloc: Global,
    entries: &'a [RouteEntry<'a>],
) -> Result<Vec<Row<'a>>, AllocError>
    ensures { IfOk result (λ v. map row_view v.items ≡ rows (map entry_view entries.now)) }
{
    let mut done = Vec::new(alloc);
    let Some((first, rest)) = entries.split_first() else {
        return Ok(done);
    };
    let mut row = single_row(first);
    for entry in rest {
        if goes_on(&row, entry) {
            row.last = entry.address;
        } else {
            done.push(row)?;
            row = single_row(entry);
        }
    }
    done.push(row)?;
    Ok(done)
}
