//! The members of a component.
ghost use Rattle.std.specs.Prelude.{◌≡◌, ◌<◌, ◌≤◌, All, IfOk, filter, length};
ghost use Rattle.std.specs.List.Sorted.{IsStrictlyIncreasing};
ghost use Rattle.sw_graph.specs.Reached.{IsListing, Reached};
ghost use Rattle.sw_graph.specs.Rows.{IsGraph, row};
ghost use Rattle.sw_graph.specs.Walks.{holds};

use crate::rows::reached_over;
use std::alloc::{AllocError, Global};

/// The numbers that are among the others too, as members.
fn in_both(alloc: Global, numbers: &[usize], others: &[usize]) -> Result<Vec<u16>, AllocError>
    requires small { All (λ c. c < 65536) numbers.now }
    requires rising { IsStrictlyIncreasing others.now }
    ensures { IfOk result (λ v. v.items ≡ filter (holds others.now) numbers.now) }
{
    let mut members = Vec::new(alloc);
    for c in numbers {
        if others.binary_search(c).is_ok() {
            members.push(*c as u16)?;
        }
    }
    Ok(members)
}

/// The numbers to which steps lead from c, and from which steps lead to it.
pub(crate) fn together(
    alloc: Global,
    successors: &[Vec<u16>],
    predecessors: &[Vec<u16>],
    c: u16,
) -> Result<Vec<u16>, AllocError>
    requires few { length successors.now ≤ 65535 }
    requires same { length predecessors.now ≡ length successors.now }
    requires graph { IsGraph successors.now }
    requires graph2 { IsGraph predecessors.now }
    requires inside { c < length successors.now }
    ensures { IfOk result (λ v. IsListing (λ d. Reached (row successors.now) c d × Reached (row predecessors.now) c d) v.items) }
{
    let ahead = reached_over(alloc, successors, c)?;
    let back = reached_over(alloc, predecessors, c)?;
    in_both(alloc, &ahead, &back)
}
