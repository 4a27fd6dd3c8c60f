//! Rows of numbers: how they are made, and a relation that is given by rows, as steps.
ghost use Rattle.std.specs.Prelude.{◌≡◌, ◌<◌, ◌++◌, ◌∷◌, ℕ, All, IfOk, OnErr, OnOk, [], if◌then◌else◌, length};
ghost use Rattle.sw_graph.specs.Reached.{IsListing, Reached};
ghost use Rattle.sw_graph.specs.Reversing.{IsRowSet};
ghost use Rattle.sw_graph.specs.Rows.{IsGraph, row};

use crate::least::reached;
use crate::steps::Steps;
use std::alloc::{AllocError, Global};

/// As many empty rows.
///
/// # Errors
///
/// There is no memory for them.
pub fn empty_rows(alloc: Global, count: usize) -> Result<Vec<Vec<u16>>, AllocError>
    ensures size { IfOk result (λ v. length v.items ≡ count) }
    ensures empty { IfOk result (λ v. (c : ℕ) → row v.items c ≡ []) }
{
    let mut rows = Vec::new(alloc);
    for _ in 0..count {
        rows.push(Vec::new(alloc))?;
    }
    Ok(rows)
}

/// Adds the number at the end of the row at that place, if it is to be there.
///
/// # Errors
///
/// There is no memory for it.
pub fn add_to_row(
    rows: &mut [Vec<u16>],
    place: usize,
    is_there: bool,
    number: u16,
) -> Result<(), AllocError>
    requires { place < length rows.old }
    ensures added { OnOk result (IsRowSet rows.old place (if is_there then row rows.old place ++ number ∷ [] else row rows.old place) rows.new) }
    ensures as_before { OnErr result (IsRowSet rows.old place (row rows.old place) rows.new) }
{
    if is_there {
        rows[place].push(number)?;
    }
    Ok(())
}

/// The row of a member.
pub(crate) fn row_of(rows: &[Vec<u16>], c: u16) -> &[u16]
    requires { c < length rows.now }
    ensures { result.now ≡ row rows.now c }
{
    &rows[usize::from(c)]
}

/// The steps of rows.
#[derive(Drop)]
struct Rows<'a> {
    rows: &'a [Vec<u16>],
}

impl Steps for Rows<'_> {
    ghost use Rattle.std.specs.Prelude.{length};
    ghost use Rattle.sw_graph.specs.Rows.{row};

    ghost bound = { λ s. length s.rows.now };

    ghost next = { λ s n. row s.rows.now n };

    fn push_next(&self, number: usize, to: &mut Vec<usize>) -> Result<(), AllocError> {
        for d in &self.rows[number] {
            to.push(usize::from(*d))?;
        }
        Ok(())
    }
}

/// The numbers that steps lead to from the start, itself among them, in rising order.
pub(crate) fn reached_over(
    alloc: Global,
    rows: &[Vec<u16>],
    start: u16,
) -> Result<Vec<usize>, AllocError>
    requires graph { IsGraph rows.now }
    requires inside { start < length rows.now }
    ensures listing { IfOk result (λ v. IsListing (Reached (row rows.now) start) v.items) }
    ensures below { IfOk result (λ v. All (λ n. n < length rows.now) v.items) }
{
    reached(alloc, &Rows { rows }, rows.len(), usize::from(start))
}
