//! The order of a relation.
ghost use Rattle.std.specs.Prelude.{IfOk, length, ◌≤◌};
ghost use Rattle.sw_graph.specs.Answers.{Answers};
ghost use Rattle.sw_graph.specs.Rows.{IsGraph, Leads, Precedes};

use crate::answer::Order;
use crate::cycle::{first_left, shown_cycle};
use crate::predecessors::predecessors_of;
use crate::round_workers::RoundWorkers;
use crate::rounds::take_rounds;
use std::alloc::{AllocError, Global};

/// The levels of the members where the relation has no cycle, and else the cycle to show.
///
/// The members are the numbers below the count of rows, at most 65,535, and `successors[c]` lists
/// the members to which a step leads from `c`, in any order, also more than once.
///
/// # Errors
///
/// There is no memory for the levels or the cycle.
pub fn order<W: RoundWorkers>(
    workers: &W,
    alloc: Global,
    successors: &[Vec<u16>],
) -> Result<Order, AllocError>
    requires few { length successors.now ≤ 65535 }
    requires graph { IsGraph successors.now }
    ensures { IfOk result (Answers (Leads successors.now) (length successors.now)) }
{
    let predecessors = predecessors_of(alloc, successors)?;
    answer(workers, alloc, &predecessors)
}

/// The same of a relation that is given by the predecessors of each member.
fn answer<W: RoundWorkers>(
    workers: &W,
    alloc: Global,
    predecessors: &[Vec<u16>],
) -> Result<Order, AllocError>
    requires few { length predecessors.now ≤ 65535 }
    requires graph { IsGraph predecessors.now }
    ensures { IfOk result (Answers (Precedes predecessors.now) (length predecessors.now)) }
{
    let mut levels = vec![in alloc; 0u16; predecessors.len()]?;
    let mut done = vec![in alloc; false; predecessors.len()]?;
    take_rounds(workers, alloc, predecessors, &mut levels, &mut done)?;
    let Some(start) = first_left(&done) else {
        return Ok(Order::Levels(levels));
    };
    let cycle = shown_cycle(alloc, predecessors, &done, start)?;
    Ok(Order::Cycle(cycle))
}
