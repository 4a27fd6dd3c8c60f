//! Why a network can lock up, and why it can't.

use crate::tangle::Tangle;
use sw_flow::{Place, RouteFault};

/// What is told of a network. Flows are told by their numbers, reply flows counted on from the
/// declared ones.
#[derive(Drop)]
pub enum Explanation {
    /// Some flow is not well routed: the first such flow, the first of its places that has a fault,
    /// the fault, and a way of its packets from the flow's start to that place, with both.
    Misrouted {
        flow: u16,
        place: Place,
        fault: RouteFault,
        way: Vec<Place>,
    },
    /// Each flow is well routed, and packets may wait for one another in circles: the tangles, one at
    /// least, in the order of the least channels in them.
    Cyclic(Vec<Tangle>),
    /// Each flow is well routed, and no channels can wait for one another in a circle.
    Free,
}
