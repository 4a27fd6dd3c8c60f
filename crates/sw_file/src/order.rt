//! The order of a table's keys.
ghost use Rattle.std.specs.Prelude.{◌≡◌, true};
ghost use Rattle.toml.specs.Data.{is_sorted, items_are_sorted, members_are_sorted};
ghost use Rattle.toml.specs.View.{view, array_view, table_view};

use toml::value::Array;
use toml::{Table, Value};

#[cycle(ascend)]
fn value_ascends(value: &Value)
    ensures { is_sorted (view value.now) ≡ true }
{
    match value {
        Value::Array(array) => array_ascends(array),
        Value::Table(table) => table_ascends(table),
        _ => (),
    }
}

#[cycle(ascend)]
fn array_ascends(array: &Array)
    ensures { items_are_sorted (array_view array.now) ≡ true }
{
    'items: for item in array {
        value_ascends(item);
    }
}

/// The keys of the table ascend, and so do those of each table inside: so each member is the one that its key finds. A map says it of its
/// own keys alone, hence the walk.
#[cycle(ascend)]
pub(crate) fn table_ascends(table: &Table)
    ensures { members_are_sorted (table_view table.now) ≡ true }
{
    'members: for (_key, member) in table.iter() {
        value_ascends(member);
    }
}
