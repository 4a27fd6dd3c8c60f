//! Rows of a table of waits, and further waits in them.
ghost use Rattle.std.specs.Prelude.{◌≡◌, ◌<◌, ◌∷◌, [], All, IfOk, OnOk, length, map};
ghost use Rattle.sw_graph.specs.Rows.{IsGraph};
ghost use Rattle.sw_margin.specs.Waits.{AreWith, IsWithin};

use std::alloc::{AllocError, Global};

/// The same rows.
fn copy(alloc: Global, rows: &[Vec<u16>]) -> Result<Vec<Vec<u16>>, AllocError>
    ensures { IfOk result (λ v. map (λ r. r.items) v.items ≡ map (λ r. r.items) rows.now) }
{
    let mut copy = Vec::new(alloc);
    for row in rows {
        copy.push(Vec::from_slice(alloc, row)?)?;
    }
    Ok(copy)
}

/// Adds one channel to the row of another.
fn add_wait(rows: &mut [Vec<u16>], from: u16, to: u16) -> Result<(), AllocError>
    requires { from < length rows.old }
    ensures { OnOk result (AreWith rows.old ((from, to) ∷ []) rows.new) }
{
    rows[usize::from(from)].push(to)?;
    Ok(())
}

/// Adds to each row the channels for which its channel further waits.
fn add_waits(rows: &mut [Vec<u16>], waits: &[(u16, u16)]) -> Result<(), AllocError>
    requires { All (IsWithin (length rows.old)) waits.now }
    ensures { OnOk result (AreWith rows.old waits.now rows.new) }
{
    for wait in waits {
        add_wait(rows, wait.0, wait.1)?;
    }
    Ok(())
}

/// The rows with these further waits.
pub(crate) fn with_waits(
    alloc: Global,
    rows: &[Vec<u16>],
    waits: &[(u16, u16)],
) -> Result<Vec<Vec<u16>>, AllocError>
    requires graph { IsGraph rows.now }
    requires within { All (IsWithin (length rows.now)) waits.now }
    ensures with { IfOk result (λ v. AreWith rows.now waits.now v.items) }
    ensures graph { IfOk result (λ v. IsGraph v.items) }
{
    let mut more = copy(alloc, rows)?;
    add_waits(&mut more, waits)?;
    Ok(more)
}
