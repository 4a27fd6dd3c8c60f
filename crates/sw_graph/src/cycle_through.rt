//! A shortest way from a number back to it.
ghost use Rattle.std.specs.Prelude.{◌≡◌, ◌<◌, ◌↔◌, IfOk, IsTrue, Some, length};
ghost use Rattle.sw_graph.specs.Levels.{Chain};
ghost use Rattle.sw_graph.specs.Rows.{IsGraph, IsReversed, Leads};
ghost use Rattle.sw_graph.specs.Searches.{AreKnown, IsLeastOf, steps_to};
ghost use Rattle.sw_graph.specs.Shortest.{IsFewest, IsShortestFrom};

use crate::cycle::lesser_of;
use crate::rows::row_of;
use crate::search::{none_known, search};
use std::alloc::{AllocError, Global};

/// Is this the known count of steps?
fn is_at(steps: &[Option<u16>], d: u16, count: u16) -> bool
    ensures { IsTrue result ↔ (steps_to steps.now d ≡ Some count) }
{
    match steps.get(usize::from(d)).copied().unwrap_or(None) {
        Some(known) => known == count,
        None => false,
    }
}

/// The least of the numbers that has this count of steps.
fn least_at(ds: &[u16], steps: &[Option<u16>], count: u16) -> Option<u16>
    ensures { IsLeastOf ds.now (λ d. steps_to steps.now d ≡ Some count) result }
{
    let mut least = None;
    for d in ds {
        if is_at(steps, *d, count) {
            least = Some(lesser_of(least, *d));
        }
    }
    least
}

/// The way from the start back to it, of that many steps, where the fewest steps from each number to
/// the start are known up to one less.
fn way_round(
    alloc: Global,
    successors: &[Vec<u16>],
    steps: &[Option<u16>],
    start: u16,
    count: u16,
) -> Result<Vec<u16>, AllocError>
    requires graph { IsGraph successors.now }
    requires inside { start < length successors.now }
    requires fewest { IsFewest (Leads successors.now) start start count }
    requires known { AreKnown (λ j d. Chain (Leads successors.now) j d start) count steps.now }
    ensures { IfOk result (λ v. IsShortestFrom (Leads successors.now) start count v.items) }
{
    let mut way = Vec::new(alloc);
    let mut now = start;
    for done in 1..count {
        way.push(now)?;
        now = least_at(row_of(successors, now), steps, count - done).unwrap();
    }
    way.push(now)?;
    Ok(way)
}

/// The shortest cycle through the start, of that many members.
pub(crate) fn cycle_through(
    alloc: Global,
    successors: &[Vec<u16>],
    predecessors: &[Vec<u16>],
    start: u16,
    count: u16,
) -> Result<Vec<u16>, AllocError>
    requires graph { IsGraph successors.now }
    requires reversed { IsReversed successors.now predecessors.now }
    requires inside { start < length successors.now }
    requires fewest { IsFewest (Leads successors.now) start start count }
    ensures { IfOk result (λ v. IsShortestFrom (Leads successors.now) start count v.items) }
{
    let mut steps = none_known(alloc, predecessors.len())?;
    search(alloc, predecessors, start, count, &mut steps)?;
    way_round(alloc, successors, &steps, start, count)
}
