//! The network core and what stands on it, each time from the empty state on.
ghost use Rattle.sw_load.specs.Laws.{AreDeclared};

pub(crate) mod calls;
pub(crate) mod drained;
mod show;
mod waiting;

use crate::moves::Move;
use crate::nets::calls::{Call, show_calls};
use crate::nets::drained::{Bounds, Choice, show_drain};
use crate::nets::waiting::show_waiting;
use std::alloc::Global;
use std::io;
use sw_arb::Policy;
use sw_cell::NetFault;
use sw_config::Network;
use sw_load::Load;
use sw_machine::Step;
use sw_net::{Net, SwitchRoutes, declared_net};
use sw_topo::LinkEnd;

/// The core of a network as its file declares it.
pub(crate) type Core<'n> = Net<'n, SwitchRoutes<'n>, Policy>;

/// What is done with the core.
#[derive(Clone, Copy)]
pub(crate) enum CoreWork {
    /// It is drained of the load, with the link ends so chosen.
    Drain(&'static Bounds, Choice),
    /// The load's packets begin as soon as they can.
    Wait,
    /// Single calls are made.
    Make(&'static [Call]),
}

/// Makes the step, if it can be made.
pub(crate) fn make(alloc: Global, net: &mut Core<'_>, tried: Move<'_>) -> Result<(), NetFault> {
    match tried.step(alloc) {
        Ok(step) => net.step(alloc, &step),
        Err(_) => Err(NetFault::Memory),
    }
}

/// Makes a step of the link end, if it can make one. Then, is that an FCT?
fn make_step(alloc: Global, net: &mut Core<'_>, end: LinkEnd) -> Option<bool> {
    if end.number() >= net.network().channels() {
        return None;
    }
    let made = net.step_of(alloc, end).unwrap_or(None);
    let is_fct = match &made {
        Some(step) => Some(matches!(step, Step::Move(sw_machine::Move::Fct(_)))),
        None => None,
    };
    drop(made);
    is_fct
}

/// Does it with the network's core in its empty state, and prints what came of it.
pub(crate) fn show_core(
    rt: &HostRuntime,
    network: &Network,
    load: &Load,
    work: CoreWork,
) -> io::Result<()>
    requires { AreDeclared network.now load.now }
{
    let mut net = declared_net(rt.alloc(), network)?;
    let shown = match work {
        CoreWork::Drain(bounds, choice) => show_drain(rt, network, &mut net, load, bounds, choice),
        CoreWork::Wait => show_waiting(rt, &mut net, load),
        CoreWork::Make(calls) => show_calls(rt, &mut net, calls),
    };
    net.discard();
    shown
}
