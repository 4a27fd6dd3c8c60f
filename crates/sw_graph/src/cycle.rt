//! The walk back from the least member that is left, and the cycle that it closes.
ghost use Rattle.std.specs.Prelude.{◌≡◌, ℕ, ◌<◌, ◌≤◌, IfOk, List, MatchOption, [], false, length, true};
ghost use Rattle.sw_graph.specs.Cycles.{IsShownCycle};
ghost use Rattle.sw_graph.specs.Levels.{HasCycle};
ghost use Rattle.sw_graph.specs.Rounds.{IsPeeled, is_marked};
ghost use Rattle.sw_graph.specs.Rows.{IsGraph, Precedes, row};
ghost use Rattle.sw_graph.specs.Walking.{GoesOn, IsFirstLeft, IsLeastLeft, IsSince, IsWalk, lesser, times};

use crate::marks::is_marked;
use crate::rows::row_of;
use crate::turn::turned;
use std::alloc::{AllocError, Global};

/// The first member that is not done.
pub fn first_left(done: &[bool]) -> Option<u16>
    requires { length done.now ≤ 65535 }
    ensures { MatchOption result ((d : ℕ) → d < length done.now → is_marked done.now d ≡ true) (IsFirstLeft done.now) }
{
    for (c, peeled) in done.iter().enumerate() {
        if !*peeled {
            return Some(c as u16);
        }
    }
    None
}

/// The lesser number of what there is and c.
pub(crate) fn lesser_of(least: Option<u16>, c: u16) -> u16
    ensures { result ≡ lesser least c }
{
    match least {
        Some(other) => other.min(c),
        None => c,
    }
}

/// The least predecessor that is not done, of a member that is not done.
fn least_before(predecessors: &[Vec<u16>], done: &[bool], c: u16) -> u16
    requires inside { c < length predecessors.now }
    requires left { is_marked done.now c ≡ false }
    requires goes_on { GoesOn predecessors.now done.now }
    ensures { IsLeastLeft (row predecessors.now c) done.now result }
{
    let mut least = None;
    for other in row_of(predecessors, c) {
        if !is_marked(done, *other) {
            least = Some(lesser_of(least, *other));
        }
    }
    least.unwrap()
}

/// Walks back from start until a member comes again, and tells which.
fn walk_back(
    alloc: Global,
    start: u16,
    predecessors: &[Vec<u16>],
    done: &[bool],
    path: &mut Vec<u16>,
) -> Result<u16, AllocError>
    requires graph { IsGraph predecessors.now }
    requires inside { start < length predecessors.now }
    requires left { is_marked done.now start ≡ false }
    requires goes_on { GoesOn predecessors.now done.now }
    requires path { path.old.items ≡ [] }
    ensures { IfOk result (λ again. IsWalk predecessors.now done.now start path.new.items again) }
{
    let mut seen = vec![in alloc; false; predecessors.len()]?;
    let mut now = start;
    while !seen[usize::from(now)] {
        seen[usize::from(now)] = true;
        path.push(now)?;
        now = least_before(predecessors, done, now);
    }
    Ok(now)
}

/// The part of a walk since the member that comes again.
fn since(path: &[u16], again: u16) -> &[u16]
    requires { 0 < times path.now again }
    ensures { IsSince path.now again result.now }
{
    let mut from = 0;
    while path[from] != again {
        from += 1;
    }
    &path[from..]
}

/// The cycle to show, where the first member that is not done is start.
///
/// # Errors
///
/// There is no memory for the walk or the cycle.
pub fn shown_cycle(
    alloc: Global,
    predecessors: &[Vec<u16>],
    done: &[bool],
    start: u16,
) -> Result<Vec<u16>, AllocError>
    requires graph { IsGraph predecessors.now }
    requires peeled { (levels : List ℕ) × IsPeeled predecessors.now levels done.now }
    requires first { IsFirstLeft done.now start }
    ensures { IfOk result (λ v. HasCycle (Precedes predecessors.now) × IsShownCycle (Precedes predecessors.now) v.items) }
{
    let mut path = Vec::new(alloc);
    let again = walk_back(alloc, start, predecessors, done, &mut path)?;
    turned(alloc, since(&path, again))
}
