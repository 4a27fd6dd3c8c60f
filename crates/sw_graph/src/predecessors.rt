//! From the successors of each member to its predecessors.
ghost use Rattle.std.specs.Prelude.{◌<◌, ◌≤◌, All, IfOk, OnOk, length};
ghost use Rattle.sw_graph.specs.Reversing.{AreAdded};
ghost use Rattle.sw_graph.specs.Rows.{IsGraph, IsReversed};

use crate::rows::empty_rows;
use std::alloc::{AllocError, Global};

/// Adds c to the row of each of the members.
fn add_to_each(rows: &mut [Vec<u16>], members: &[u16], c: u16) -> Result<(), AllocError>
    requires { All (λ d. d < length rows.old) members.now }
    ensures { OnOk result (AreAdded members.now c rows.old rows.new) }
{
    for d in members {
        rows[usize::from(*d)].push(c)?;
    }
    Ok(())
}

/// The predecessors of each member, in rising order: the relation turned round.
///
/// The members are the numbers below the count of rows, at most 65,535, and `successors[c]` lists
/// the members to which a step leads from `c`, in any order, also more than once; a predecessor is
/// listed as often.
///
/// # Errors
///
/// There is no memory for the rows.
pub fn predecessors_of(alloc: Global, successors: &[Vec<u16>]) -> Result<Vec<Vec<u16>>, AllocError>
    requires few { length successors.now ≤ 65535 }
    requires graph { IsGraph successors.now }
    ensures { IfOk result (λ v. IsReversed successors.now v.items) }
{
    let mut predecessors = empty_rows(alloc, successors.len())?;
    for c in 0..successors.len() {
        add_to_each(&mut predecessors, &successors[c], c as u16)?;
    }
    Ok(predecessors)
}
