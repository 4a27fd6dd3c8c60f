//! The names of the entries of a document.
ghost use Rattle.std.specs.Prelude.{◌≡◌, ◌++◌, IfOk, map};
ghost use Rattle.toml.specs.View.{table_view};
ghost use Rattle.sw_faults.specs.FileNames.{names_of};

use crate::entries::{tables_of, text_in};
use std::alloc::{AllocError, Global};
use sw_text::Key;
use toml::Table;

/// Adds the names of a list of the document.
///
/// # Errors
///
/// There is no memory for the list.
pub(crate) fn add_names<'a>(
    alloc: Global,
    document: &'a Table,
    list: Key,
    names: &mut Vec<&'a str>,
) -> Result<(), AllocError>
    ensures { IfOk result (λ _. map (λ t. t.now) names.new.items ≡ map (λ t. t.now) names.old.items ++ names_of list (table_view document.now)) }
{
    let tables = tables_of(alloc, document, list)?;
    for table in &tables {
        let Some(name) = text_in(table, Key::Name) else {
            continue;
        };
        names.push(name)?;
    }
    Ok(())
}

/// The names of a list of the document.
///
/// # Errors
///
/// There is no memory for the list.
pub(crate) fn names_of<'a>(
    alloc: Global,
    document: &'a Table,
    list: Key,
) -> Result<Vec<&'a str>, AllocError>
    ensures { IfOk result (λ v. map (λ t. t.now) v.items ≡ names_of list (table_view document.now)) }
{
    let mut names = Vec::new(alloc);
    add_names(alloc, document, list, &mut names)?;
    Ok(names)
}
