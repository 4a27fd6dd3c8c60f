//! Which entries of a list pass.
ghost use Rattle.std.specs.Prelude.{◌≡◌, IfOk};
ghost use Rattle.toml.specs.View.{table_view};
ghost use Rattle.sw_faults.specs.Finding.{first_index, indices_of};
ghost use Rattle.sw_faults.specs.Passing.{passes};

use crate::entries::tables_of;
use crate::passing::{Test, passes};
use std::alloc::{AllocError, Global};
use sw_text::Key;
use toml::Table;

/// The places of the entries of a list of a table that pass.
pub(crate) fn indices_of(
    alloc: Global,
    table: &Table,
    list: Key,
    test: &Test<'_>,
) -> Result<Vec<usize>, AllocError>
    ensures { IfOk result (λ v. v.items ≡ indices_of (passes test.now) list (table_view table.now)) }
{
    let tables = tables_of(alloc, table, list)?;
    let mut places = Vec::new(alloc);
    for (place, table) in tables.iter().enumerate() {
        if !passes(test, table) {
            continue;
        }
        places.push(place)?;
    }
    Ok(places)
}

/// The place of the first entry of a list of a table that passes.
pub(crate) fn first_index(
    alloc: Global,
    table: &Table,
    list: Key,
    test: &Test<'_>,
) -> Result<Option<usize>, AllocError>
    ensures { IfOk result (λ o. o ≡ first_index (passes test.now) list (table_view table.now)) }
{
    let places = indices_of(alloc, table, list, test)?;
    match places.as_slice() {
        [] => Ok(None),
        [place, ..] => Ok(Some(*place)),
    }
}
