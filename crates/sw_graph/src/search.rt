//! The search for the numbers that steps lead to, level by level, until one leads back.
ghost use Rattle.std.specs.Prelude.{◌≡◌, ◌∷◌, ◌<◌, ◌≤◌, All, IfOk, MatchOption, None, OnOk, [], length, replicate};
ghost use Rattle.std.specs.List.{flat_map, list_any};
ghost use Rattle.sw_graph.specs.Rows.{IsGraph, Leads, row};
ghost use Rattle.sw_graph.specs.Walks.{holds};
ghost use Rattle.sw_graph.specs.Searches.{AreAdded, IsSearch, NoRound};
ghost use Rattle.sw_graph.specs.Shortest.{IsFewest};

use crate::rows::row_of;
use std::alloc::{AllocError, Global};

/// Adds those of the numbers that are new to which a step leads from these, with their count of steps.
fn add_next(
    rows: &[Vec<u16>],
    from: &[u16],
    count: u16,
    steps: &mut [Option<u16>],
    level: &mut Vec<u16>,
) -> Result<(), AllocError>
    requires graph { IsGraph rows.now }
    requires size { length steps.old ≡ length rows.now }
    requires inside { All (λ c. c < length rows.now) from.now }
    ensures { OnOk result (AreAdded (flat_map (row rows.now) from.now) count steps.old steps.new level.old.items level.new.items) }
{
    for c in from {
        for d in row_of(rows, *c) {
            let at = usize::from(*d);
            if steps[at].is_none() {
                level.push(*d)?;
                steps[at] = Some(count);
            }
        }
    }
    Ok(())
}

/// Does a step lead from one of these numbers to d?
fn one_leads(rows: &[Vec<u16>], from: &[u16], d: u16) -> bool
    requires { All (λ c. c < length rows.now) from.now }
    ensures { result ≡ list_any (λ c. holds (row rows.now c) d) from.now }
{
    for c in from {
        if row_of(rows, *c).contains(&d) {
            return true;
        }
    }
    false
}

/// No count of steps for as many numbers.
pub(crate) fn none_known(alloc: Global, count: usize) -> Result<Vec<Option<u16>>, AllocError>
    ensures { IfOk result (λ v. v.items ≡ replicate count None) }
{
    vec![in alloc; None; count]
}

/// Searches for the numbers that steps lead to from the start, until they lead back to it or to no
/// new number, for at most so many steps. The fewest steps from the start to each number are noted
/// where they become known, and those from the start back to it, at least one, are told.
pub(crate) fn search(
    alloc: Global,
    rows: &[Vec<u16>],
    start: u16,
    most: u16,
    steps: &mut [Option<u16>],
) -> Result<Option<u16>, AllocError>
    requires graph { IsGraph rows.now }
    requires inside { start < length rows.now }
    requires steps { steps.old ≡ replicate (length rows.now) None }
    ensures { IfOk result (λ round. IsSearch (Leads rows.now) start most steps.new round) }
{
    let mut level = Vec::new(alloc);
    level.push(start)?;
    steps[usize::from(start)] = Some(0);
    let mut count = 0;
    while count < most {
        if level.is_empty() {
            return Ok(None);
        }
        count += 1;
        if one_leads(rows, &level, start) {
            return Ok(Some(count));
        }
        let mut next = Vec::new(alloc);
        add_next(rows, &level, count, steps, &mut next)?;
        level = next;
    }
    Ok(None)
}

/// The fewest steps from the start back to it, at least one, if there are at most so many.
pub(crate) fn fewest_round(
    alloc: Global,
    rows: &[Vec<u16>],
    start: u16,
    most: u16,
) -> Result<Option<u16>, AllocError>
    requires graph { IsGraph rows.now }
    requires inside { start < length rows.now }
    ensures { IfOk result (λ o. MatchOption o (NoRound (Leads rows.now) start most) (λ n. (n ≤ most) × IsFewest (Leads rows.now) start start n)) }
{
    let mut steps = none_known(alloc, rows.len())?;
    search(alloc, rows, start, most, &mut steps)
}
