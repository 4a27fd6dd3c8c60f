//! Calls in threads. No thread is started for fewer calls than the least piece.
ghost use Rattle.std.specs.Prelude.{◌≡◌, ◌<◌, ℕ, All, IfOk, Ok, is_some};
ghost use Rattle.std.specs.List.{AllZip, range_with_len};
ghost use Rattle.sw_graph.specs.Found.{AreKept, IsFirstFound};

use rayon::prelude::*;
use std::alloc::{AllocError, Global};
use std::thread::Threads;

/// What `call` gives at each number below `count`, in order.
///
/// # Errors
///
/// A call gives an error, or there is no memory for the list.
pub fn map_all<
    R: Threads + Sync,
    T: Send + Drop,
    F: Fn(u16) -> Result<T, AllocError> + Copy + Send + Sync,
>(rt: &R, alloc: Global, count: u16, least_piece: usize, call: F) -> Result<Vec<T>, AllocError>
    requires { (number : ℕ) → number < count → F.pre call number }
    ensures { IfOk result (λ v. AllZip (λ number made. F.post call number (Ok made)) (range_with_len 0 count) v.items) }
{
    let all: Result<Vec<T>, AllocError> = (0..count)
        .into_par_iter()
        .with_min_len(least_piece)
        .map(call)
        .collect(rt, alloc)?;
    all
}

/// What `call` gives at the first number below `count` at which it gives something. It is asked at each.
pub fn first_found<R: Threads + Sync, T: Send + Drop, F: Fn(u16) -> Option<T> + Copy + Send + Sync>(
    rt: &R,
    count: u16,
    least_piece: usize,
    call: F,
) -> Option<T>
    requires { (number : ℕ) → number < count → F.pre call number }
    ensures { IsFirstFound (F.post call) (range_with_len 0 count) result }
{
    (0..count)
        .into_par_iter()
        .with_min_len(least_piece)
        .map(call)
        .find_first(
            rt,
            |found: &Option<T>| -> bool
                ensures { result ≡ is_some found.now }
            { found.is_some() },
        )
        .flatten()
}

/// Those members at which `test` tells true, in order.
///
/// # Errors
///
/// There is no memory for the list.
pub fn keep<R: Threads + Sync, F: Fn(u16) -> bool + Copy + Send + Sync>(
    rt: &R,
    alloc: Global,
    members: &[u16],
    least_piece: usize,
    test: F,
) -> Result<Vec<u16>, AllocError>
    requires { All (F.pre test) members.now }
    ensures { IfOk result (λ v. AreKept (F.post test) members.now v.items) }
{
    members
        .par_iter()
        .copied()
        .with_min_len(least_piece)
        .filter(
            |member: &u16| -> bool
                requires { F.pre test member.now }
                ensures { F.post test member.now result }
            { test(*member) },
        )
        .collect(rt, alloc)
}
