//! Which flows are told of.
ghost use Rattle.std.specs.Prelude.{◌≡◌, ◌<◌, false, length, slice_get};
ghost use Rattle.std.specs.Option.{option_map_or};
ghost use Rattle.sw_margin.specs.Bends.{is_answerable};
ghost use Rattle.sw_margin.specs.FlowLimits.{own_limit};

use crate::way::goes_one_way;
use sw_config::Network;

/// Has the flow of that number no reply, and does it go one way?
pub(crate) fn is_answerable(network: &Network, number: u16) -> bool
    requires { number < length network.now.flows }
    ensures { result ≡ option_map_or (is_answerable network.now) (slice_get network.now.flows number) false }
{
    let flow = network.flow(number);
    flow.reply().is_none() && goes_one_way(network, flow)
}

/// How many commands of the flow of that number may be unanswered, if it has a limit of its own.
pub(crate) fn own_limit(network: &Network, number: u16) -> Option<u16>
    requires { number < length network.now.flows }
    ensures { result ≡ own_limit network.now number }
{
    match network.flow(number).reply() {
        Some(reply) => reply.outstanding(),
        None => None,
    }
}
