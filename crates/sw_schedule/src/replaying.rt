//! The replay of a schedule.
ghost use Rattle.std.specs.Prelude.{◌≡◌, IfOk};
ghost use Rattle.sw_net.specs.New.{IsNewNet};
ghost use Rattle.sw_schedule.specs.Nets.{EndsFromEmpty};
ghost use Rattle.sw_schedule.specs.Replays.{IsReplayed};
ghost use Rattle.sw_schedule.specs.Reports.{report_of};

use crate::made_steps::make_from_empty;
use crate::replay_report::is_locked_up;
use crate::replayed::Replayed;
use crate::schedule::Schedule;
use std::alloc::{AllocError, Global};
use sw_arb::Policy;
use sw_config::Network;
use sw_net::{Net, SwitchRoutes, declared_net};

/// The replay on a network that is still empty.
pub(crate) fn replay_on(
    alloc: Global,
    net: &mut Net<'_, SwitchRoutes<'_>, Policy>,
    schedule: &Schedule,
) -> Result<Replayed, AllocError>
    requires { IsNewNet net.old.declared net.old }
    ensures replayed { IfOk result (λ r. IsReplayed net.old.declared schedule.now (report_of r)) }
    ensures network { net.new.declared ≡ net.old.declared }
    ensures ends { IfOk result (λ r. EndsFromEmpty net.old.declared schedule.now r.outcome net.new) }
{
    // Tells that there are at most as many steps as a schedule may have.
    let _total = schedule.total();
    let outcome = make_from_empty(alloc, net, schedule.entries())?;
    let undelivered = net.undelivered();
    let mut came_out = Vec::new(alloc);
    for n in 0..net.network().nodes() {
        came_out.push(net.came_out(alloc, n)?)?;
    }
    Ok(Replayed {
        outcome,
        undelivered,
        stuck: is_locked_up(net, undelivered),
        came_out,
    })
}

/// Makes the steps of the schedule one after another, from the empty network on, up to the first
/// that is refused, and tells what holds then. A step that would break a limit on unanswered
/// commands is refused.
///
/// # Errors
///
/// There is no memory for the network, for what a step stores or for what is told.
pub fn replay(alloc: Global, network: &Network, schedule: &Schedule) -> Result<Replayed, AllocError>
    ensures { IfOk result (λ r. IsReplayed network.now schedule.now (report_of r)) }
{
    let mut net = declared_net(alloc, network)?;
    let replayed = replay_on(alloc, &mut net, schedule);
    net.discard();
    replayed
}
