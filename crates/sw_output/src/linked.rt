//! The ports of a switch that have a link.
ghost use Rattle.std.specs.Prelude.{◌≡◌, ◌<◌, ◌≤◌, IfOk, length};
ghost use Rattle.sw_output.specs.LinkedPorts.{linked_ports};

use std::alloc::{AllocError, Global};
use sw_config::Network;
use sw_topo::Port;
use sw_topo::limits::PORTS;

/// Those of the first so many ports that have a link.
#[tactic(auto, unfolding(crate::specs::LinkedPorts::linked_ports))]
fn linked_among(
    alloc: Global,
    network: &Network,
    switch: u16,
    ports: u8,
) -> Result<Vec<u8>, AllocError>
    requires switch { switch < length network.now.switches }
    requires ports { ports ≤ 32 }
    ensures { IfOk result (λ v. v.items ≡ linked_ports network.now switch ports) }
{
    let mut linked = Vec::new(alloc);
    for port in 0..ports {
        let at = Port::new(port).unwrap();
        if network.topology().out_of(switch, at).is_none() {
            continue;
        }
        linked.push(port)?;
    }
    Ok(linked)
}

/// The switch's ports that have a link, in rising order.
///
/// # Errors
///
/// There is no memory for them.
pub fn linked_ports(alloc: Global, network: &Network, switch: u16) -> Result<Vec<u8>, AllocError>
    requires { switch < length network.now.switches }
    ensures { IfOk result (λ v. v.items ≡ linked_ports network.now switch 32) }
{
    linked_among(alloc, network, switch, PORTS)
}
