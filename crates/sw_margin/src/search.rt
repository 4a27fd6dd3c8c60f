//! A search along the steps of a relation. Of what it finds nothing is proved: whoever asks looks at it.
ghost use Rattle.std.specs.Prelude.{◌≤◌, length};

use std::alloc::{AllocError, Global};

/// What a search finds of a relation.
#[derive(Drop)]
pub(crate) enum Found {
    /// A number for each member, which rises along each step.
    Numbers(Vec<u16>),
    /// Members with a step from each to the next, and from the last to the first.
    Circle(Vec<u16>),
}

/// A member on the way of a search, and how many steps from it were taken.
#[derive(Clone, Copy)]
struct Stop {
    member: u16,
    taken: usize,
}

/// How far a search has come.
#[derive(Drop)]
struct Search {
    /// The way that it goes.
    way: Vec<Stop>,
    /// Of each member, whether it is on that way.
    is_on_way: Vec<bool>,
    /// The number of each member: of those that were left that of the search, of the others the known one, or 0.
    numbers: Vec<u16>,
    /// The greatest of the known numbers that are used.
    known_up_to: u16,
    /// The number of the member that is left next. It falls: when a member is left, all to which it leads have their numbers.
    next_number: u16,
}

/// Are there known numbers of all members, and greater ones for a search?
fn are_used(members: u16, known: &[u16]) -> bool {
    known.len() == usize::from(members) && members <= u16::MAX / 2
}

/// The numbers of so many members before a search: the known ones where these are used, else 0 for each.
fn numbers_before(alloc: Global, members: u16, known: &[u16]) -> Result<Vec<u16>, AllocError> {
    if are_used(members, known) {
        Vec::from_slice(alloc, known)
    } else {
        vec![in alloc; 0u16; usize::from(members)]
    }
}

impl Search {
    /// A search that has not begun, among so many members.
    fn new(alloc: Global, members: u16, known: &[u16]) -> Result<Search, AllocError> {
        let known_up_to = if are_used(members, known) { members } else { 0 };
        Ok(Search {
            way: Vec::new(alloc),
            is_on_way: vec![in alloc; false; usize::from(members)]?,
            numbers: numbers_before(alloc, members, known)?,
            known_up_to,
            next_number: members.saturating_add(known_up_to),
        })
    }

    /// Is the member on the way?
    fn is_on_way(&self, member: u16) -> bool {
        match self.is_on_way.get(usize::from(member)) {
            Some(is_on_way) => *is_on_way,
            None => false,
        }
    }

    /// The number of a member, and 0 where it has none.
    fn number_of(&self, member: u16) -> u16 {
        match self.numbers.get(usize::from(member)) {
            Some(number) => *number,
            None => 0,
        }
    }

    /// Goes to a member.
    fn enter(&mut self, member: u16) -> Result<(), AllocError> {
        self.way.push(Stop { member, taken: 0 })?;
        if let Some(is_on_way) = self.is_on_way.get_mut(usize::from(member)) {
            *is_on_way = true;
        }
        Ok(())
    }

    /// Takes the next step from the last member of the way, and tells how many were taken before.
    fn take_step(&mut self) -> Option<Stop> {
        let stop = self.way.last_mut()?;
        let before = *stop;
        stop.taken = before.taken.saturating_add(1);
        Some(before)
    }

    /// Leaves that member, the last of the way.
    fn leave(&mut self, member: u16) {
        let _left = self.way.pop();
        let next_number = self.next_number;
        if let Some(is_on_way) = self.is_on_way.get_mut(usize::from(member)) {
            *is_on_way = false;
        }
        if let Some(number) = self.numbers.get_mut(usize::from(member)) {
            *number = next_number;
            self.next_number = next_number.saturating_sub(1);
        }
    }

    /// The members of the way from that one on.
    fn way_from(&self, alloc: Global, member: u16) -> Result<Vec<u16>, AllocError> {
        let mut members = Vec::new(alloc);
        for stop in &self.way {
            if stop.member == member || !members.is_empty() {
                members.push(stop.member)?;
            }
        }
        Ok(members)
    }
}

/// For each of so many members one of the further steps from it.
fn further_steps(
    alloc: Global,
    members: u16,
    more: &[(u16, u16)],
) -> Result<Vec<Option<u16>>, AllocError> {
    let mut further = vec![in alloc; None; usize::from(members)]?;
    for (from, to) in more {
        if let Some(step) = further.get_mut(usize::from(*from)) {
            *step = Some(*to);
        }
    }
    Ok(further)
}

/// Where the next step leads that was not taken yet: those of the row come first.
fn next_from(rows: &[Vec<u16>], further: &[Option<u16>], stop: Stop) -> Option<u16> {
    let row = rows.get(usize::from(stop.member))?;
    if let Some(member) = row.get(stop.taken) {
        return Some(*member);
    }
    if stop.taken > row.len() {
        return None;
    }
    *further.get(usize::from(stop.member))?
}

/// Goes over all steps from the start to members that were not left yet. The members of a circle, if there is one.
fn circle_from(
    alloc: Global,
    rows: &[Vec<u16>],
    further: &[Option<u16>],
    search: &mut Search,
    start: u16,
) -> Result<Option<Vec<u16>>, AllocError> {
    if search.number_of(start) > search.known_up_to {
        return Ok(None);
    }
    search.enter(start)?;
    for _ in 0..u64::MAX {
        let Some(stop) = search.take_step() else {
            return Ok(None);
        };
        let Some(next) = next_from(rows, further, stop) else {
            search.leave(stop.member);
            continue;
        };
        if search.is_on_way(next) {
            return Ok(Some(search.way_from(alloc, next)?));
        }
        if search.number_of(next) <= search.known_up_to {
            search.enter(next)?;
        }
    }
    Ok(None)
}

/// Searches along the steps of the rows and the further ones for a circle: from the ends of the further ones, and from the members that have no number
/// then. Without a circle each member has a number, above those of all that lead to it.
///
/// `known` has numbers of all members that rise along the rows, or is empty. What the search leaves gets greater ones.
pub(crate) fn searched(
    alloc: Global,
    rows: &[Vec<u16>],
    known: &[u16],
    more: &[(u16, u16)],
) -> Result<Found, AllocError>
    requires few { length rows.now ≤ 65535 }
{
    let members = rows.len() as u16;
    let further = further_steps(alloc, members, more)?;
    let mut search = Search::new(alloc, members, known)?;
    for (_, to) in more {
        if let Some(circle) = circle_from(alloc, rows, &further, &mut search, *to)? {
            return Ok(Found::Circle(circle));
        }
    }
    for start in 0..members {
        if search.number_of(start) != 0 {
            continue;
        }
        if let Some(circle) = circle_from(alloc, rows, &further, &mut search, start)? {
            return Ok(Found::Circle(circle));
        }
    }
    let Search { numbers, .. } = search;
    Ok(Found::Numbers(numbers))
}

/// Numbers of all members that rise along the rows. None where these have a circle.
pub(crate) fn numbers_along(alloc: Global, rows: &[Vec<u16>]) -> Result<Vec<u16>, AllocError>
    requires few { length rows.now ≤ 65535 }
{
    match searched(alloc, rows, &[], &[])? {
        Found::Numbers(numbers) => Ok(numbers),
        Found::Circle(_) => Ok(Vec::new(alloc)),
    }
}
