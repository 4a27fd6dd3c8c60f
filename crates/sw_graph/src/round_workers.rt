//! The members that a round takes, side by side or one by one.
ghost use Rattle.std.specs.Prelude.{◌↔◌, ◌<◌, All, IfOk, IsTrue, length};
ghost use Rattle.std.specs.Thread.{IsSync};
ghost use Rattle.sw_graph.specs.Rounds.{AllDone, AreFree};
ghost use Rattle.sw_graph.specs.Rows.{row};

use crate::marks::is_marked;
use crate::rows::row_of;
use crate::{OneByOne, SideBySide, Workers, side_by_side};
use std::alloc::{AllocError, Global};
use std::thread::Threads;

/// The fewest members that a thread is started for. Below twice as many a round goes through one
/// thread: to look at a member's predecessors takes some hundred nanoseconds, and a thread some ten
/// microseconds to start.
const LEAST_PIECE: usize = 1024;

/// Whether all of the members are done.
fn all_done(members: &[u16], done: &[bool]) -> bool
    ensures { IsTrue result ↔ AllDone done.now members.now }
{
    for c in members {
        if !is_marked(done, *c) {
            return false;
        }
    }
    true
}

/// Who finds the members that a round takes.
pub trait RoundWorkers: Workers {
    /// The members that are left of which all predecessors are done.
    ///
    /// # Errors
    ///
    /// There is no memory for the list.
    fn free_members(
        &self,
        alloc: Global,
        predecessors: &[Vec<u16>],
        done: &[bool],
        left: &[u16],
    ) -> Result<Vec<u16>, AllocError>
        requires shared { IsSync Self.Shared.row }
        requires inside { All (λ c. c < length predecessors.now) left.now }
        ensures { IfOk result (λ v. AreFree predecessors.now done.now left.now v.items) };
}

impl<R: Threads + Sync> RoundWorkers for SideBySide<'_, R> {
    fn free_members(
        &self,
        alloc: Global,
        predecessors: &[Vec<u16>],
        done: &[bool],
        left: &[u16],
    ) -> Result<Vec<u16>, AllocError> {
        side_by_side::keep(
            self.handle(),
            alloc,
            left,
            LEAST_PIECE,
            |c: u16| -> bool
                requires { c < length predecessors.now }
                ensures { IsTrue result ↔ AllDone done.entry.now (row predecessors.entry.now c) }
            { all_done(row_of(predecessors, c), done) },
        )
    }
}

impl RoundWorkers for OneByOne {
    fn free_members(
        &self,
        alloc: Global,
        predecessors: &[Vec<u16>],
        done: &[bool],
        left: &[u16],
    ) -> Result<Vec<u16>, AllocError> {
        let mut free = Vec::new(alloc);
        for member in left {
            if all_done(row_of(predecessors, *member), done) {
                free.push(*member)?;
            }
        }
        Ok(free)
    }
}
