//! Whether a network is free.
ghost use Rattle.std.specs.Prelude.{◌≡◌, ◌↔◌, IfOk, IsTrue};
ghost use Rattle.sw_search.specs.Laws.{RoutedAndFree};
ghost use Rattle.sw_search.specs.Verdicts.{says_free};

use crate::deciding::decide;
use crate::laws::one_verdict_holds;
use crate::verdict::Verdict;
use crate::workers::VerdictWorkers;
use std::alloc::{AllocError, Global};
use sw_config::Network;

/// Is it the verdict on a free network?
fn says_free(verdict: &Verdict) -> bool
    ensures { result ≡ says_free verdict.now }
{
    matches!(verdict, Verdict::Free(_))
}

/// Is each flow well routed, and can no channels wait for one another in a circle?
///
/// The workers share the work.
///
/// # Errors
///
/// There is no memory for the verdict.
pub fn is_free<W: VerdictWorkers>(
    workers: &W,
    alloc: Global,
    network: &Network,
) -> Result<bool, AllocError>
    ensures { IfOk result (λ b. IsTrue b ↔ RoutedAndFree network.now) }
{
    // Names the network, which is valid by its type.
    let _topology = network.topology();
    one_verdict_holds();
    let verdict = decide(workers, alloc, network)?;
    Ok(says_free(&verdict))
}
