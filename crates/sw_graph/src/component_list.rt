//! The components of a relation.
ghost use Rattle.std.specs.Prelude.{◌≡◌, ◌+◌, ◌<◌, ◌≤◌, IfOk, OnOk, false, length};
ghost use Rattle.std.specs.List.{list_any};
ghost use Rattle.sw_graph.specs.Cycles.{IsLeast};
ghost use Rattle.sw_graph.specs.Rows.{IsGraph, IsReversed, Leads};
ghost use Rattle.sw_graph.specs.Walks.{holds};
ghost use Rattle.sw_graph.specs.Components.{AreComponents, AreComponentsBelow, AreTogether};
ghost use Rattle.sw_graph.specs.Shortest.{IsFewest};

use crate::component::Component;
use crate::cycle_through::cycle_through;
use crate::predecessors::predecessors_of;
use crate::search::fewest_round;
use crate::shortest_cycle::{KnownCycle, shortest_cycle};
use crate::together::together;
use std::alloc::{AllocError, Global};

/// Adds the component of c, which leads to itself in so many steps and no fewer, and is a member of none
/// of the components.
fn push_component(
    alloc: Global,
    successors: &[Vec<u16>],
    predecessors: &[Vec<u16>],
    c: u16,
    count: u16,
    components: &mut Vec<Component>,
) -> Result<(), AllocError>
    requires few { length successors.now ≤ 65535 }
    requires graph { IsGraph successors.now }
    requires reversed { IsReversed successors.now predecessors.now }
    requires inside { c < length successors.now }
    requires fewest { IsFewest (Leads successors.now) c c count }
    requires least { IsLeast (AreTogether (Leads successors.now) c) c }
    requires below { AreComponentsBelow (Leads successors.now) c components.old.items }
    requires untaken { list_any (λ p. holds p.members.items c) components.old.items ≡ false }
    ensures { OnOk result (AreComponentsBelow (Leads successors.now) (c + 1) components.new.items) }
{
    let members = together(alloc, successors, predecessors, c)?;
    let first = KnownCycle {
        start: c,
        length: count,
    };
    let best = shortest_cycle(alloc, successors, &members, first)?;
    let cycle = cycle_through(alloc, successors, predecessors, best.start, best.length)?;
    components.push(Component { members, cycle })?;
    Ok(())
}

/// Adds the component of c, if c lies on a cycle and is a member of none of the components.
fn add_component(
    alloc: Global,
    successors: &[Vec<u16>],
    predecessors: &[Vec<u16>],
    c: u16,
    components: &mut Vec<Component>,
) -> Result<(), AllocError>
    requires few { length successors.now ≤ 65535 }
    requires graph { IsGraph successors.now }
    requires reversed { IsReversed successors.now predecessors.now }
    requires inside { c < length successors.now }
    requires below { AreComponentsBelow (Leads successors.now) c components.old.items }
    ensures { OnOk result (AreComponentsBelow (Leads successors.now) (c + 1) components.new.items) }
{
    for component in components.iter() {
        if component.members.contains(&c) {
            return Ok(());
        }
    }
    match fewest_round(alloc, successors, c, successors.len() as u16)? {
        Some(count) => push_component(alloc, successors, predecessors, c, count, components),
        None => Ok(()),
    }
}

/// The components of the relation, in the order of their least members, each with a shortest cycle. A
/// number that lies on no cycle is in no component.
///
/// The members are the numbers below the count of rows, at most 65,535, and `successors[c]` lists
/// the members to which a step leads from `c`, in any order, also more than once.
///
/// From each member the steps are gone along once, in a component no further than a cycle shorter than
/// those that are known could go.
///
/// # Errors
///
/// There is no memory for the components, or for what finds them.
pub fn components(alloc: Global, successors: &[Vec<u16>]) -> Result<Vec<Component>, AllocError>
    requires few { length successors.now ≤ 65535 }
    requires graph { IsGraph successors.now }
    ensures { IfOk result (λ v. AreComponents (Leads successors.now) v.items) }
{
    let predecessors = predecessors_of(alloc, successors)?;
    let mut components = Vec::new(alloc);
    for c in 0..successors.len() as u16 {
        add_component(alloc, successors, &predecessors, c, &mut components)?;
    }
    Ok(components)
}
