//! The levels of the members that are not behind a cycle, found in rounds.
ghost use Rattle.std.specs.Prelude.{◌≡◌, ◌<◌, ◌≤◌, All, OnOk, false, filter, length, not, replicate};
ghost use Rattle.sw_graph.specs.Rounds.{AreTaken, IsPeeled, is_marked};
ghost use Rattle.sw_graph.specs.Rows.{IsGraph};

use crate::marks::is_marked;
use crate::round_workers::RoundWorkers;
use std::alloc::{AllocError, Global};

/// Makes the round the level of the members, and marks them as done.
fn take_all(members: &[u16], round: u16, levels: &mut [u16], done: &mut [bool])
    requires size { length levels.old ≡ length done.old }
    requires inside { All (λ c. c < length done.old) members.now }
    ensures { AreTaken round members.now levels.old levels.new done.old done.new }
{
    for c in members {
        levels[usize::from(*c)] = round;
        done[usize::from(*c)] = true;
    }
}

/// Leaves out the members that are done.
fn drop_done(left: &mut Vec<u16>, done: &[bool])
    ensures { left.new.items ≡ filter (λ c. not (is_marked done.now c)) left.old.items }
{
    let mut kept = 0;
    for at in 0..left.len() {
        let c = left[at];
        if !is_marked(done, c) {
            left[kept] = c;
            kept += 1;
        }
    }
    left.truncate(kept);
}

/// Peels members off in rounds, where none is done: each takes those that are left of which all
/// predecessors were taken in earlier rounds, and the number of the round is their level.
///
/// # Errors
///
/// There is no memory for a round.
pub fn take_rounds<W: RoundWorkers>(
    workers: &W,
    alloc: Global,
    predecessors: &[Vec<u16>],
    levels: &mut [u16],
    done: &mut [bool],
) -> Result<(), AllocError>
    requires few { length predecessors.now ≤ 65535 }
    requires graph { IsGraph predecessors.now }
    requires levels { levels.old ≡ replicate (length predecessors.now) 0 }
    requires done { done.old ≡ replicate (length predecessors.now) false }
    ensures { OnOk result (IsPeeled predecessors.now levels.new done.new) }
{
    let mut left = Vec::new(alloc);
    for member in 0..predecessors.len() as u16 {
        left.push(member)?;
    }
    let mut round = 0;
    loop {
        let free = workers.free_members(alloc, predecessors, done, &left)?;
        if free.is_empty() {
            return Ok(());
        }
        take_all(&free, round, levels, done);
        drop_done(&mut left, done);
        round += 1;
    }
}
