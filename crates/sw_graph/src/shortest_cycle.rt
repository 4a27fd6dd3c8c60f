//! The least member of a component through which a shortest cycle goes.
ghost use Rattle.std.specs.Prelude.{◌≡◌, ◌<◌, All, IfOk, length, slice_index};
ghost use Rattle.std.specs.List.Sorted.{IsStrictlyIncreasing};
ghost use Rattle.sw_graph.specs.Rows.{IsGraph, Leads};
ghost use Rattle.sw_graph.specs.Bests.{IsBest};
ghost use Rattle.sw_graph.specs.Shortest.{IsFewest};

use crate::search::fewest_round;
use std::alloc::{AllocError, Global};

/// A cycle that is known: where it begins, and how many members it has.
#[derive(Clone, Copy)]
pub(crate) struct KnownCycle {
    pub(crate) start: u16,
    pub(crate) length: u16,
}

/// The least of the members with a shortest cycle, where the first has a cycle.
pub(crate) fn shortest_cycle(
    alloc: Global,
    rows: &[Vec<u16>],
    members: &[u16],
    first: KnownCycle,
) -> Result<KnownCycle, AllocError>
    requires graph { IsGraph rows.now }
    requires inside { All (λ c. c < length rows.now) members.now }
    requires rising { IsStrictlyIncreasing members.now }
    requires begins { (0 < length members.now) × (slice_index members.now 0 ≡ first.start) }
    requires first { IsFewest (Leads rows.now) first.start first.start first.length }
    ensures { IfOk result (IsBest (Leads rows.now) members.now) }
{
    let mut best = first;
    for c in members {
        // only a shorter cycle than what is known is looked for
        let Some(length) = fewest_round(alloc, rows, *c, best.length - 1)? else {
            continue;
        };
        best = KnownCycle { start: *c, length };
    }
    Ok(best)
}
