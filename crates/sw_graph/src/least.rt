//! The walk itself.
ghost use Rattle.std.specs.Prelude.{◌≡◌, ◌<◌, ◌≤◌, ℕ, All, IfOk, OnOk, length, slice_index};
ghost use Rattle.sw_graph.specs.Walks.{with_all};
ghost use Rattle.sw_graph.specs.Reached.{Reached, IsListing};

use crate::steps::Steps;
use crate::walk::Walk;
use std::alloc::{AllocError, Global};

/// Adds to the walk the numbers that a step leads to from the one at this place; `next` lends the room for them.
pub(crate) fn add_next<S: Steps>(
    steps: &S,
    place: usize,
    next: &mut Vec<usize>,
    walk: &mut Walk,
) -> Result<(), AllocError>
    requires place { place < length walk.old.numbers }
    requires bound { walk.old.bound ≡ S.bound steps.now }
    requires inside { (n : ℕ) → n < walk.old.bound → All (λ m. m < walk.old.bound) (S.next steps.now n) }
    ensures bound { walk.new.bound ≡ walk.old.bound }
    ensures numbers { OnOk result (walk.new.numbers ≡ with_all walk.old.numbers (S.next steps.now (slice_index walk.old.numbers place))) }
{
    next.clear();
    steps.push_next(walk.at(place), next)?;
    for number in next.iter() {
        walk.add(*number)?;
    }
    Ok(())
}

/// The numbers that steps lead to from the start, itself among them, in rising order.
///
/// The time is linear in the bound, the numbers reached and the steps from them: few numbers are sorted, and many read off marks.
///
/// # Errors
///
/// There is no memory for the numbers.
pub fn reached<S: Steps>(
    alloc: Global,
    steps: &S,
    bound: usize,
    start: usize,
) -> Result<Vec<usize>, AllocError>
    requires bound { bound ≡ S.bound steps.now }
    requires start { start < bound }
    requires inside { (n : ℕ) → n < bound → All (λ m. m < bound) (S.next steps.now n) }
    ensures listing { IfOk result (λ v. IsListing (Reached (S.next steps.now) start) v.items) }
    ensures below { IfOk result (λ v. All (λ n. n < bound) v.items) }
{
    let mut walk = Walk::new(alloc, bound)?;
    walk.add(start)?;
    let mut next = Vec::new(alloc);
    let mut done = 0;
    while done < walk.len() {
        add_next(steps, done, &mut next, &mut walk)?;
        done += 1;
    }
    walk.into_sorted()
}
