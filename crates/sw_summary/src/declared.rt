//! Flows that the network's file declares.
ghost use Rattle.std.specs.Prelude.{◌≡◌, ◌<◌, Some, length, slice_get};
ghost use Rattle.sw_config.specs.Valid.{IsFlow};

use sw_config::{Flow, Network};

/// The declared flow of that number.
#[tactic(auto, using(sw_topo::proofs::Lists::in_front))]
pub(crate) fn declared_flow(network: &Network, number: u16) -> &Flow
    requires { number < length network.now.flows }
    ensures flow { slice_get network.now.flows number ≡ Some result.now }
    ensures valid { IsFlow network.now.nodes result.now }
{
    network.flow(number)
}
