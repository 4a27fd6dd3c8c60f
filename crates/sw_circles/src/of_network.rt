//! Flows whose packets can come back to where they were, and flows of which none arrives.
ghost use Rattle.std.specs.Prelude.{◌≡◌, ◌<◌, IfOk, length};
ghost use Rattle.sw_config.specs.Entries.{all_flows};
ghost use Rattle.sw_circles.specs.Circlings.{AreCirclings, IsCirclingOf};

use crate::circling::{arrives, circles};
use std::alloc::{AllocError, Global};
use std::marker::Model;
use sw_flow::{Chan, Network, places};

/// A flow whose packets can come back to where they were, or of which none arrives.
#[derive(Drop)]
pub struct Circling {
    /// The flow; reply flows are counted on from the declared ones.
    pub flow: u16,
    /// The circles over which its packets can go again and again, each as its channels in order.
    pub circles: Vec<Vec<Chan>>,
    /// Whether packets come to the node where the flow ends.
    pub arrives: bool,
}

impl Model for Circling {
    ghost use Rattle.std.specs.Prelude.{map};
    ghost use Rattle.sw_circles.specs.Circlings.{CirclingView};

    ghost Value = { CirclingView };

    ghost view = { λ c. record { flow = c.flow; circles = map (λ circle. circle.items) c.circles.items; arrives = c.arrives } };
}

/// The flow of that number, if its packets can come back to where they were or none of them arrives.
///
/// # Errors
///
/// There is no memory for its circles, or for what finds them.
pub fn circling_flow(
    alloc: Global,
    network: &Network,
    flow: u16,
) -> Result<Option<Circling>, AllocError>
    requires { flow < length (all_flows network.now) }
    ensures { IfOk result (IsCirclingOf network.now flow) }
{
    let places = places(alloc, network, flow)?;
    let entry = network.flow(flow);
    let arrives = arrives(network, entry, &places);
    let circles = circles(alloc, network, entry, &places)?;
    if circles.is_empty() && arrives {
        return Ok(None);
    }
    Ok(Some(Circling {
        flow,
        circles,
        arrives,
    }))
}

/// All such flows, reply flows too, in order.
///
/// # Errors
///
/// There is no memory for them, or for what finds them.
pub fn circling_flows(alloc: Global, network: &Network) -> Result<Vec<Circling>, AllocError>
    ensures { IfOk result (λ v. AreCirclings network.now v.items) }
{
    let mut told = Vec::new(alloc);
    for flow in 0..network.flows() {
        if let Some(circling) = circling_flow(alloc, network, flow)? {
            told.push(circling)?;
        }
    }
    Ok(told)
}
