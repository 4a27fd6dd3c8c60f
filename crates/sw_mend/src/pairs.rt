//! The pairs of what can be taken away that free a network.
ghost use Rattle.std.specs.Prelude.{◌≡◌, ◌++◌, List, IfOk, OnOk, map};
ghost use Rattle.sw_mend.specs.Changes.{removals};
ghost use Rattle.sw_mend.specs.Mends.{ArePairMends, AreThose, AreThosePairs, FailsAlone};
ghost use Rattle.sw_mend.specs.Spared.{AreOfCycles};
ghost use Rattle.sw_mend.specs.declared.change.Pair.{Pair};

use crate::change::{Change, Pair};
use crate::judging::{first_cycles, frees, frees_both};
use crate::listing::{PARTS_AND_UNITS, add_if, removals};
use crate::sparing::spared_by;
use crate::uses::Uses;
use std::alloc::{AllocError, Global};
use sw_config::Network;
use sw_search::VerdictWorkers;

/// What can be taken away and does not free the network alone.
fn failing_alone<W: VerdictWorkers>(
    workers: &W,
    alloc: Global,
    network: &Network,
    cycles: &mut Vec<Uses>,
) -> Result<Vec<Change>, AllocError>
    requires { AreOfCycles network.now cycles.old.items }
    ensures known { OnOk result (AreOfCycles network.now cycles.new.items) }
    ensures those { IfOk result (λ v. AreThose (FailsAlone network.now) (removals network.now) v.items) }
{
    let changes = removals(alloc, network, PARTS_AND_UNITS)?;
    let mut failing = Vec::new(alloc);
    for (number, change) in changes.iter().enumerate() {
        workers.tell_progress(number, changes.len());
        let freed = frees(workers, alloc, network, change, cycles)?;
        add_if(!freed, *change, &mut failing)?;
    }
    Ok(failing)
}

/// Adds those of the pairs of the first change and one of the others that free the network.
fn add_pairs_with<W: VerdictWorkers>(
    workers: &W,
    alloc: Global,
    network: &Network,
    first: &Change,
    others: &[Change],
    cycles: &mut Vec<Uses>,
    pairs: &mut Vec<Pair>,
) -> Result<(), AllocError>
    requires { AreOfCycles network.now cycles.old.items }
    ensures known { OnOk result (AreOfCycles network.now cycles.new.items) }
    ensures told { OnOk result ((those : List Pair) × AreThosePairs network.now (map (λ second. record { first = first.now; second = second }) others.now) those × (pairs.new.items ≡ pairs.old.items ++ those)) }
{
    let spared = spared_by(alloc, network, first, cycles)?;
    let known = cycles.len();
    for second in others {
        let pair = Pair {
            first: *first,
            second: *second,
        };
        let freed = frees_both(workers, alloc, network, &pair, &spared, known, cycles)?;
        add_if(freed, pair, pairs)?;
    }
    Ok(())
}

/// The pairs of what can be taken away that free the network together and not one of them alone, the first before the second in the order of single
/// changes, the units last, and the pairs by the first and then by the second. No split is one of a pair. Each change is tried alone, and each pair of
/// those that do not free the network: those that touch nothing of a cycle that is known are passed over, and none that is left out frees it. The
/// workers share the work of each judgement.
///
/// # Errors
///
/// There is no memory for the changes, a changed network or its verdict.
pub fn pair_mends<W: VerdictWorkers>(
    workers: &W,
    alloc: Global,
    network: &Network,
) -> Result<Vec<Pair>, AllocError>
    ensures { IfOk result (λ v. ArePairMends network.now v.items) }
{
    let mut cycles = first_cycles(workers, alloc, network)?;
    let changes = failing_alone(workers, alloc, network, &mut cycles)?;
    let mut pairs = Vec::new(alloc);
    for (number, first) in changes.iter().enumerate() {
        workers.tell_progress(number, changes.len());
        add_pairs_with(
            workers,
            alloc,
            network,
            first,
            &changes[number + 1..],
            &mut cycles,
            &mut pairs,
        )?;
    }
    Ok(pairs)
}
