//! What is asked of an entry.
ghost use Rattle.std.specs.Prelude.{◌≡◌};
ghost use Rattle.toml.specs.View.{table_view};
ghost use Rattle.sw_faults.specs.Passing.{has_number, has_text, passes};

use crate::entries::{number_in, range_in, text_in};
use sw_text::Key;
use sw_topo::limits::MAX_PORT;
use toml::Table;

/// What is asked of an entry.
#[derive(Clone, Copy)]
pub(crate) enum Test<'a> {
    /// Has it this name?
    Named(&'a str),
    /// Has the link an end at the unit of this name?
    IsAt(&'a str),
    /// Has the link an end at this port of the switch of this name?
    HasPort(&'a str, u64),
    /// Is the entry of a routing table for an address from the first to the last?
    Overlaps(u64, u64),
}

/// Whether this text stands at a key.
fn has_text(table: &Table, key: Key, text: &str) -> bool
    ensures { result ≡ has_text key text.now (table_view table.now) }
{
    match text_in(table, key) {
        Some(found) => found == text,
        None => false,
    }
}

/// Whether this port stands at a key.
fn has_number(table: &Table, key: Key, port: u64) -> bool
    ensures { result ≡ has_number key port (table_view table.now) }
{
    match number_in(table, key, 0, MAX_PORT) {
        Some(found) => found == port,
        None => false,
    }
}

/// Whether an entry passes.
pub(crate) fn passes(test: &Test<'_>, table: &Table) -> bool
    ensures { result ≡ passes test.now (table_view table.now) }
{
    match test {
        Test::Named(name) => has_text(table, Key::Name, name),
        Test::IsAt(name) => has_text(table, Key::A, name) || has_text(table, Key::B, name),
        Test::HasPort(name, port) => {
            (has_text(table, Key::A, name) && has_number(table, Key::APort, *port))
                || (has_text(table, Key::B, name) && has_number(table, Key::BPort, *port))
        }
        Test::Overlaps(first, last) => match range_in(table) {
            Some((begin, end)) => *first <= end && begin <= *last,
            None => false,
        },
    }
}
