//! The channels that a look names.
ghost use Rattle.std.specs.Prelude.{◌≡◌, ◌↔◌, ◌<◌, ℕ, Some, IsSome, IsBitSet};
ghost use Rattle.sw_topo.specs.Wiring.{out_of};
ghost use Rattle.sw_route.specs.Looks.{NamesOutput};

use crate::look::Look;
use sw_topo::{PortSet, Topology};

/// The ports of the switch, among those that the look names, at which a channel starts (ECSS-E-ST-50-12C, network layer: group adaptive
/// routing).
pub fn outputs(topology: &Topology, switch: u16, look: Look) -> PortSet
    requires { switch < topology.now.switches }
    ensures ports { (p : ℕ) → (IsBitSet result p ↔ (IsBitSet look.ports p × IsSome (out_of topology.now.ends switch p))) }
    ensures channels { (d : ℕ) → (NamesOutput topology.now.ends switch look d ↔ ((p : ℕ) × (p < 32) × IsBitSet result p × (out_of topology.now.ends switch p ≡ Some d))) }
{
    look.ports.meet(topology.linked(switch))
}
