//! What `mend` finds of a network.
ghost use Rattle.std.specs.Prelude.{◌≡◌, IfOk, IfSome, is_some};
ghost use Rattle.sw_mend.specs.Mends.{ArePairMends};
ghost use Rattle.sw_search.specs.Verdicts.{IsVerdict};
ghost use Rattle.sw_changes.specs.Mendings.{AreCures, IsMending};

use std::alloc::{AllocError, Global};
use sw_config::Network;
use sw_flow::{Place, RouteFault};
use sw_mend::{Limiting, Pair, Trial, find_limiting, mends, pair_mends, unit_mends};
use sw_search::{Verdict, VerdictWorkers, decide};

/// What `mend` finds of a network. A flow is told by its number, reply flows counted on from the declared ones.
#[derive(Drop)]
pub enum Mending {
    /// Some flow is not well routed: the first such flow, the first of its places that has a fault, and the fault.
    Misrouted(u16, Place, RouteFault),
    /// The network never locks up: there is nothing to mend.
    Free,
    /// Packets may wait for one another in a circle: what frees the network.
    Cyclic(Cures),
}

/// What frees a network in which packets may wait for one another in a circle.
#[derive(Drop)]
pub struct Cures {
    /// How few commands may be unanswered for the network to be free, and with how many slots.
    pub limiting: Option<Limiting>,
    /// The single changes of parts that do.
    pub changes: Vec<Trial>,
    /// Where none does and pairs were asked for, the pairs of changes that do together.
    pub pairs: Option<Vec<Pair>>,
    /// The units whose flows make a circle: those without whose flows the network is free.
    pub units: Vec<Trial>,
}

/// The pairs that free the network, if they are to be looked for.
fn pairs_if<W: VerdictWorkers>(
    workers: &W,
    alloc: Global,
    is_wanted: bool,
    network: &Network,
) -> Result<Option<Vec<Pair>>, AllocError>
    ensures { IfOk result (λ found. (is_some found ≡ is_wanted) × IfSome found (λ told. ArePairMends network.now told.items)) }
{
    if !is_wanted {
        return Ok(None);
    }
    Ok(Some(pair_mends(workers, alloc, network)?))
}

/// What frees the network, with pairs asked for or not.
fn find_cures<W: VerdictWorkers>(
    workers: &W,
    alloc: Global,
    pairs: bool,
    network: &Network,
) -> Result<Cures, AllocError>
    ensures { IfOk result (AreCures pairs network.now) }
{
    let limiting = find_limiting(workers, alloc, network)?;
    let changes = mends(workers, alloc, network)?;
    let units = unit_mends(workers, alloc, network)?;
    let is_wanted = pairs && changes.is_empty();
    let pairs = pairs_if(workers, alloc, is_wanted, network)?;
    Ok(Cures {
        limiting,
        changes,
        pairs,
        units,
    })
}

/// What is found by the verdict on the network.
fn by_verdict<W: VerdictWorkers>(
    workers: &W,
    alloc: Global,
    pairs: bool,
    network: &Network,
    verdict: &Verdict,
) -> Result<Mending, AllocError>
    requires { IsVerdict network.now verdict.now }
    ensures { IfOk result (IsMending pairs network.now) }
{
    match verdict {
        Verdict::Misrouted(flow, place, fault) => Ok(Mending::Misrouted(*flow, *place, *fault)),
        Verdict::Cyclic(_) => {
            let cures = find_cures(workers, alloc, pairs, network)?;
            Ok(Mending::Cyclic(cures))
        }
        Verdict::Free(_) => Ok(Mending::Free),
    }
}

/// What frees the network: where channels can wait for one another limits on unanswered commands and slots, and the single changes that do; with pairs asked for, where no single change of
/// a part does, the pairs of changes that do; and the units without whose flows it is free. Else that it is free already, or the flow that is
/// not well routed. The workers share the work.
///
/// # Errors
///
/// There is no memory for the verdict, the changes or a changed network.
pub fn find_mending<W: VerdictWorkers>(
    workers: &W,
    alloc: Global,
    network: &Network,
    pairs: bool,
) -> Result<Mending, AllocError>
    ensures { IfOk result (IsMending pairs network.now) }
{
    let verdict = decide(workers, alloc, network)?;
    let found = by_verdict(workers, alloc, pairs, network, &verdict);
    drop(verdict);
    found
}
