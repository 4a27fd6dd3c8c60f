//! Whether a network is free without replies that can't happen.
ghost use Rattle.std.specs.Prelude.{◌≡◌, ◌↔◌, IfOk, IsTrue, map};
ghost use Rattle.sw_mend.specs.declared.change.Change.TheVariants.{WithoutReply};
ghost use Rattle.sw_witness.specs.Unanswered.{IsFreeWithout, never_answered};

use crate::unlimited::has_no_limits;
use std::alloc::{AllocError, Global};
use std::marker::Model;
use sw_config::Network;
use sw_mend::{Change, network_with_all};
use sw_search::{VerdictWorkers, is_free};

/// The changes that take the replies of these flows away.
fn replies_away(alloc: Global, flows: &[u16]) -> Result<Vec<Change>, AllocError>
    ensures { IfOk result (λ v. v.items ≡ map WithoutReply flows.now) }
{
    let mut changes = Vec::new(alloc);
    for flow in flows {
        changes.push(Change::WithoutReply(*flow))?;
    }
    Ok(changes)
}

/// Is there a reply that can't happen, and is the network free without these replies? Then it never locks up, though its verdict may be
/// that it is cyclic. Nothing is told of a network with limits on unanswered commands. The workers share the work.
///
/// # Errors
///
/// There is no memory for the network without them, or its verdict.
pub fn is_free_without<W: VerdictWorkers>(
    workers: &W,
    alloc: Global,
    network: &Network,
    flows: &[u16],
) -> Result<bool, AllocError>
    requires { flows.now ≡ never_answered network.now }
    ensures { IfOk result (λ b. IsTrue b ↔ IsFreeWithout network.now) }
{
    if flows.is_empty() {
        return Ok(false);
    }
    if !has_no_limits(network) {
        return Ok(false);
    }
    let changes = replies_away(alloc, flows)?;
    let left = network_with_all(alloc, network, &changes)?;
    let free = is_free(workers, alloc, &left);
    left.discard();
    free
}
