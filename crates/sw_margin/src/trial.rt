//! Does a network stay free?
ghost use Rattle.std.specs.Prelude.{◌≡◌, ◌≤◌, ◌↔◌, All, IfOk, IsTrue, length};
ghost use Rattle.sw_flow.specs.Places.{ends_of};
ghost use Rattle.sw_graph.specs.Levels.{HasCycle};
ghost use Rattle.sw_graph.specs.Rows.{IsGraph, Leads};
ghost use Rattle.sw_margin.specs.Bends.{IsBend};
ghost use Rattle.sw_margin.specs.Rising.{LeadsWith};
ghost use Rattle.sw_margin.specs.Waits.{AreDependencies, IsWithin};

use crate::bend::Bend;
use crate::rising::found_soon;
use crate::rows::with_waits;
use std::alloc::{AllocError, Global};
use sw_config::Network;
use sw_graph::{Order, order};
use sw_search::VerdictWorkers;

/// Has the relation no cycle?
fn has_no_cycle<W: VerdictWorkers>(
    workers: &W,
    alloc: Global,
    rows: &[Vec<u16>],
) -> Result<bool, AllocError>
    requires few { length rows.now ≤ 65535 }
    requires graph { IsGraph rows.now }
    ensures { IfOk result (λ b. IsTrue b ↔ (HasCycle (Leads rows.now) → ⊥)) }
{
    match order(workers, alloc, rows)? {
        Order::Levels(_) => Ok(true),
        Order::Cycle(_) => Ok(false),
    }
}

/// Has the relation with the steps of the rows and these further steps no cycle?
///
/// `rows` lists for each member those to which a step leads from it. `known` may have numbers of all members that rise along the rows: then only what
/// the further steps reach is searched. It may be empty, and nothing depends on what it has.
///
/// # Errors
///
/// There is no memory for the search.
pub fn has_no_cycle_with<W: VerdictWorkers>(
    workers: &W,
    alloc: Global,
    rows: &[Vec<u16>],
    known: &[u16],
    waits: &[(u16, u16)],
) -> Result<bool, AllocError>
    requires few { length rows.now ≤ 65535 }
    requires graph { IsGraph rows.now }
    requires within { All (IsWithin (length rows.now)) waits.now }
    ensures { IfOk result (λ b. IsTrue b ↔ (HasCycle (LeadsWith rows.now waits.now) → ⊥)) }
{
    if let Some(told) = found_soon(alloc, rows, known, waits)? {
        return Ok(told);
    }
    let more = with_waits(alloc, rows, waits)?;
    has_no_cycle(workers, alloc, &more)
}

/// What is told of the node or flow of that number, where these waits come with it. `known` has numbers that rise along the rows, or is empty.
pub(crate) fn bend<W: VerdictWorkers>(
    workers: &W,
    alloc: Global,
    network: &Network,
    rows: &[Vec<u16>],
    known: &[u16],
    number: u16,
    waits: &[(u16, u16)],
) -> Result<Bend, AllocError>
    requires rows { AreDependencies network.now rows.now }
    requires within { All (IsWithin (length (ends_of network.now))) waits.now }
    ensures { IfOk result (IsBend network.now waits.now number) }
{
    // There are at most 2,048.
    let _channels = network.channels();
    let stays_free = has_no_cycle_with(workers, alloc, rows, known, waits)?;
    Ok(Bend { number, stays_free })
}
