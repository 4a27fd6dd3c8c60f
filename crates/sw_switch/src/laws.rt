//! How long an input of a switch waits.
ghost use Rattle.sw_switch.specs.Waiting.{WaitingIsBounded};

use sw_arb::FairArbiter;
use sw_route::Routing;

/// An input whose packet names one output with a link is passed over by the output's arbiter fewer
/// times than the switch has linked ports, whatever else the switch does while it waits.
pub fn waiting_is_bounded<R: Routing, A: FairArbiter>()
    ensures { WaitingIsBounded R.answer A.ports A.policy }
{}
