//! A walk turned round, from its least member on.
ghost use Rattle.std.specs.Prelude.{◌<◌, IfOk, length};
ghost use Rattle.sw_graph.specs.Cycles.{IsTurned};

use std::alloc::{AllocError, Global};

/// The walk in the other direction, from its least number on.
///
/// # Errors
///
/// There is no memory for the turned walk.
pub fn turned(alloc: Global, walked: &[u16]) -> Result<Vec<u16>, AllocError>
    requires { 0 < length walked.now }
    ensures { IfOk result (λ v. IsTurned walked.now v.items) }
{
    let mut lowest = 0;
    for i in 0..walked.len() {
        if walked[i] < walked[lowest] {
            lowest = i;
        }
    }
    let split = lowest + 1;
    let mut cycle = [&walked[split..], &walked[..split]].concat(alloc)?;
    cycle.reverse();
    Ok(cycle)
}
