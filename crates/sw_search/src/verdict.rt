//! What is found of a network.

use sw_cert::Certificate;
use sw_cycle::Cycle;
use sw_flow::{Place, RouteFault};

/// Whether a network can lock up. Flows are told by their numbers, reply flows counted on from the declared ones.
#[derive(Drop)]
pub enum Verdict {
    /// Some flow is not well routed: the first such flow, the first of its places that has a fault, and the fault.
    Misrouted(u16, Place, RouteFault),
    /// Packets may wait for one another in a circle: a cycle of channels, with a cause for each dependency.
    Cyclic(Cycle),
    /// The network never locks up, as this certificate shows.
    Free(Certificate),
}

/// The verdict on a network, and two counts.
#[derive(Drop)]
pub struct Findings {
    /// Misrouted, cyclic or free.
    pub verdict: Verdict,
    /// How many places the flows have, reply flows too.
    pub places: u64,
    /// How many pairs of channels there are of which the second depends on the first.
    pub dependencies: u64,
}
