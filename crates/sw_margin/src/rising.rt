//! Whether a relation has a cycle, told by numbers that rise along its steps, or by a circle of them.
ghost use Rattle.std.specs.Prelude.{◌≡◌, ◌≤◌, ◌<◌, ◌↔◌, All, IfOk, IfSome, IsTrue, length};
ghost use Rattle.sw_graph.specs.Levels.{HasCycle};
ghost use Rattle.sw_graph.specs.Rows.{Leads};
ghost use Rattle.sw_margin.specs.Rising.{LeadsWith, Rise, number_at};

use crate::search::{Found, searched};
use std::alloc::{AllocError, Global};

/// What stands at that place of the list, and 0 behind its end.
fn at(numbers: &[u16], place: u16) -> u16
    ensures { result ≡ number_at numbers.now place }
{
    match numbers.get(usize::from(place)) {
        Some(number) => *number,
        None => 0,
    }
}

/// Do the numbers rise from this one to each of these members?
fn rise_to(numbers: &[u16], from: u16, members: &[u16]) -> bool
    ensures { IsTrue result → All (λ d. from < number_at numbers.now d) members.now }
{
    for member in members {
        if from >= at(numbers, *member) {
            return false;
        }
    }
    true
}

/// Do the numbers rise along each step of the rows?
fn rise(numbers: &[u16], rows: &[Vec<u16>]) -> bool
    requires few { length rows.now ≤ 65535 }
    ensures { IsTrue result → Rise (number_at numbers.now) (Leads rows.now) }
{
    for member in 0..rows.len() as u16 {
        if !rise_to(numbers, at(numbers, member), &rows[usize::from(member)]) {
            return false;
        }
    }
    true
}

/// Do the numbers rise along each of these further steps?
fn rise_along(numbers: &[u16], more: &[(u16, u16)]) -> bool
    ensures { IsTrue result → All (λ step. number_at numbers.now step.0 < number_at numbers.now step.1) more.now }
{
    for step in more {
        if at(numbers, step.0) >= at(numbers, step.1) {
            return false;
        }
    }
    true
}

/// Does a step lead from the one member to the other, in its row or as a further one?
fn leads(rows: &[Vec<u16>], more: &[(u16, u16)], from: u16, to: u16) -> bool
    ensures { IsTrue result → LeadsWith rows.now more.now from to }
{
    match rows.get(usize::from(from)) {
        Some(row) => row.contains(&to) || more.contains(&(from, to)),
        None => false,
    }
}

/// Does a step lead from each of these members to the next, and from the last to the first?
fn close(rows: &[Vec<u16>], more: &[(u16, u16)], members: &[u16]) -> bool
    ensures { IsTrue result → HasCycle (LeadsWith rows.now more.now) }
{
    let Some(first) = members.first() else {
        return false;
    };
    let mut last = *first;
    for member in &members[1..] {
        if !leads(rows, more, last, *member) {
            return false;
        }
        last = *member;
    }
    leads(rows, more, last, *first)
}

/// Does what was found tell that there is no cycle, or that there is one?
fn told_by(rows: &[Vec<u16>], more: &[(u16, u16)], found: &Found) -> Option<bool>
    requires few { length rows.now ≤ 65535 }
    ensures { IfSome result (λ told. IsTrue told ↔ (HasCycle (LeadsWith rows.now more.now) → ⊥)) }
{
    match found {
        Found::Numbers(numbers) => {
            if rise(numbers, rows) && rise_along(numbers, more) {
                return Some(true);
            }
            None
        }
        Found::Circle(members) => {
            if close(rows, more, members) {
                return Some(false);
            }
            None
        }
    }
}

/// Whether the relation with the steps of the rows and these further ones has no cycle, if one search tells it: None where several further steps
/// lead from one member.
///
/// `known` may have numbers of all members that rise along the rows: then only what the further steps reach is searched. It may be empty.
///
/// The time is linear in the rows, the steps in them, and the further steps, besides those of a circle.
///
/// # Errors
///
/// There is no memory for the search.
pub(crate) fn found_soon(
    alloc: Global,
    rows: &[Vec<u16>],
    known: &[u16],
    more: &[(u16, u16)],
) -> Result<Option<bool>, AllocError>
    requires few { length rows.now ≤ 65535 }
    ensures { IfOk result (λ told. IfSome told (λ free. IsTrue free ↔ (HasCycle (LeadsWith rows.now more.now) → ⊥))) }
{
    let found = searched(alloc, rows, known, more)?;
    Ok(told_by(rows, more, &found))
}
