//! Where a replay ends in a lock-up: what each cell has of the state.
ghost use Rattle.std.specs.Prelude.{◌≡◌, All, IfOk, option_map};
ghost use Rattle.sw_net.specs.Places.{IsIn};
ghost use Rattle.sw_net.specs.New.{IsNewNet};
ghost use Rattle.sw_schedule.specs.Locked.{ArePartsOfNet, TellsLocked, TellsLockedAt, cells_of};
ghost use Rattle.sw_schedule.specs.Replays.{IsReplayed};
ghost use Rattle.sw_schedule.specs.Reports.{report_of};

use crate::replay_report::is_locked_up;
use crate::replayed::{ReplayEnd, Replayed};
use crate::replaying::replay_on;
use crate::schedule::Schedule;
use std::alloc::{AllocError, Global};
use sw_arb::Policy;
use sw_config::Network;
use sw_net::{CellId, Net, Part, SwitchRoutes, declared_net};

/// The cells of the network: the nodes by number, and then the switches by number.
///
/// # Errors
///
/// There is no memory for them.
pub fn cells(alloc: Global, network: &Network) -> Result<Vec<CellId>, AllocError>
    ensures cells { IfOk result (λ all. all.items ≡ cells_of network.now) }
    ensures inside { IfOk result (λ all. All (IsIn network.now) all.items) }
{
    let mut all = Vec::new(alloc);
    for n in 0..network.nodes() {
        all.push(CellId::Node(n))?;
    }
    for w in 0..network.switches() {
        all.push(CellId::Switch(w))?;
    }
    Ok(all)
}

/// What each of its cells has.
fn parts(alloc: Global, net: &Net<'_, SwitchRoutes<'_>, Policy>) -> Result<Vec<Part>, AllocError>
    ensures { IfOk result (λ all. ArePartsOfNet net.now all.items) }
{
    let cells = cells(alloc, net.network())?;
    let mut all = Vec::new(alloc);
    for cell in cells.iter() {
        all.push(net.part(alloc, *cell)?)?;
    }
    Ok(all)
}

/// What each cell has where all steps were made, if the network is locked up.
fn parts_at(
    alloc: Global,
    net: &Net<'_, SwitchRoutes<'_>, Policy>,
    end: ReplayEnd,
) -> Result<Option<Vec<Part>>, AllocError>
    ensures { IfOk result (λ o. TellsLockedAt net.now end (option_map (λ all. all.items) o)) }
{
    match end {
        ReplayEnd::Made(_) => {
            if is_locked_up(net, net.undelivered()) {
                Ok(Some(parts(alloc, net)?))
            } else {
                Ok(None)
            }
        }
        ReplayEnd::Refused(_, _) => Ok(None),
    }
}

/// The replay on a network that is still empty, and what each cell has, if it ends in a lock-up.
fn replay_on_with_parts(
    alloc: Global,
    net: &mut Net<'_, SwitchRoutes<'_>, Policy>,
    schedule: &Schedule,
) -> Result<(Replayed, Option<Vec<Part>>), AllocError>
    requires { IsNewNet net.old.declared net.old }
    ensures replayed { IfOk result (λ r. IsReplayed net.old.declared schedule.now (report_of r.0)) }
    ensures parts { IfOk result (λ r. TellsLocked net.old.declared schedule.now (option_map (λ all. all.items) r.1)) }
{
    let replayed = replay_on(alloc, net, schedule)?;
    match parts_at(alloc, net, replayed.outcome) {
        Ok(parts) => Ok((replayed, parts)),
        Err(refused) => {
            drop(replayed);
            Err(refused)
        }
    }
}

/// The replay of the schedule, as [`replay`](crate::replay) makes it, and what each cell has, if all steps are made and end in a lock-up.
///
/// # Errors
///
/// There is no memory for the network, for what a step stores or for what is told.
pub fn replay_with_parts(
    alloc: Global,
    network: &Network,
    schedule: &Schedule,
) -> Result<(Replayed, Option<Vec<Part>>), AllocError>
    ensures replayed { IfOk result (λ r. IsReplayed network.now schedule.now (report_of r.0)) }
    ensures parts { IfOk result (λ r. TellsLocked network.now schedule.now (option_map (λ all. all.items) r.1)) }
{
    let mut net = declared_net(alloc, network)?;
    let told = replay_on_with_parts(alloc, &mut net, schedule);
    net.discard();
    told
}
