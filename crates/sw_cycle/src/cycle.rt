//! Cycles of dependencies between channels.

use std::marker::Model;
use sw_flow::Place;
use sw_topo::Chan;

/// Why a packet on one channel may wait for another.
#[derive(Drop)]
pub enum Cause {
    /// The target at the node of that number, where a flow with a reply ends: it takes nothing while it answers.
    Target(u16),
    /// The flow of that number goes over these places from its start on, the last two of which are on the two channels.
    Flow(u16, Vec<Place>),
}

/// Channels, and a cause for the dependency of each on the next, the last one's for that on the first.
#[derive(Drop)]
pub struct Cycle {
    /// The channels, each of which depends on the next, the last on the first.
    pub channels: Vec<Chan>,
    /// As many causes, in the order of the channels.
    pub causes: Vec<Cause>,
}

impl Model for Cycle {
    ghost use Rattle.std.specs.Prelude.{map};
    ghost use Rattle.sw_cycle.specs.Cycles.{CycleEntry, cause_of};

    ghost Value = { CycleEntry };

    ghost view = { λ c. record { channels = c.channels.items; causes = map cause_of c.causes.items } };
}
