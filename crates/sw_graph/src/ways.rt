//! Ways over steps.
ghost use Rattle.std.specs.Prelude.{◌≡◌, ◌<◌, ℕ, All, Contains, IfOk, MatchOption, OnOk, [], option_map, slice_index};
ghost use Rattle.sw_graph.specs.Ways.{EndsAt, IsWay, IsWayIfReached};
ghost use Rattle.sw_graph.specs.Parents.{AreParents};
ghost use Rattle.sw_graph.specs.Reached.{Reached};

use crate::least::add_next;
use crate::steps::Steps;
use crate::walk::Walk;
use std::alloc::{AllocError, Global};

/// Walks along the steps from the start until no number is new, with a parent for each number of the walk.
fn walk_with_parents<S: Steps>(
    alloc: Global,
    steps: &S,
    start: usize,
    walk: &mut Walk,
    parents: &mut Vec<usize>,
) -> Result<(), AllocError>
    requires bound { walk.old.bound ≡ S.bound steps.now }
    requires start { start < walk.old.bound }
    requires inside { (n : ℕ) → n < walk.old.bound → All (λ m. m < walk.old.bound) (S.next steps.now n) }
    requires numbers { walk.old.numbers ≡ [] }
    requires parents { parents.old.items ≡ [] }
    ensures first { OnOk result (slice_index walk.new.numbers 0 ≡ start) }
    ensures parents { OnOk result (AreParents (S.next steps.now) walk.new.numbers parents.new.items) }
    ensures complete { OnOk result ((n : ℕ) → Reached (S.next steps.now) start n → Contains walk.new.numbers n) }
{
    walk.add(start)?;
    parents.push(0)?;
    let mut next = Vec::new(alloc);
    let mut done = 0;
    while done < walk.len() {
        add_next(steps, done, &mut next, walk)?;
        parents.resize(walk.len(), done)?;
        done += 1;
    }
    Ok(())
}

/// The way from the first of the numbers to the goal, over the places of the parents; none where the goal is none of the numbers.
fn way_to<S: Steps>(
    alloc: Global,
    steps: &S,
    walk: &Walk,
    parents: &[usize],
    goal: usize,
) -> Result<Option<Vec<usize>>, AllocError>
    requires { AreParents (S.next steps.now) walk.now.numbers parents.now }
    ensures { IfOk result (λ found. MatchOption found (Contains walk.now.numbers goal → ⊥) (λ v. IsWay (S.next steps.now) (slice_index walk.now.numbers 0) goal v.items)) }
{
    let Some(mut at) = walk.place_of(goal) else {
        return Ok(None);
    };
    let mut way = Vec::new(alloc);
    way.push(goal)?;
    while at > 0 {
        at = parents[at];
        way.push(walk.at(at))?;
    }
    way.reverse();
    Ok(Some(way))
}

/// A way over steps from the start to the goal, with both; none where the steps don't lead there.
///
/// The time is linear in the bound, the numbers reached and the steps from them.
///
/// # Errors
///
/// There is no memory for the numbers or the way.
pub fn way<S: Steps>(
    alloc: Global,
    steps: &S,
    bound: usize,
    start: usize,
    goal: usize,
) -> Result<Option<Vec<usize>>, AllocError>
    requires bound { bound ≡ S.bound steps.now }
    requires start { start < bound }
    requires inside { (n : ℕ) → n < bound → All (λ m. m < bound) (S.next steps.now n) }
    ensures { IfOk result (λ found. IsWayIfReached (S.next steps.now) start goal (option_map (λ v. v.items) found)) }
{
    let mut walk = Walk::new(alloc, bound)?;
    let mut parents = Vec::new(alloc);
    walk_with_parents(alloc, steps, start, &mut walk, &mut parents)?;
    way_to(alloc, steps, &walk, &parents, goal)
}
