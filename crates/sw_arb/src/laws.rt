//! What holds of lists of picks.
ghost use Rattle.sw_arb.specs.Arbiters.{PassesOverFewerTimesThanPorts};
ghost use Rattle.sw_arb.specs.LeastRecent.{LongestAgoIsPicked};

use crate::arbiter::FairArbiter;

/// A port that asks each time is passed over fewer times than the arbiter has ports, before it is
/// picked.
pub fn passed_over_fewer_times_than_ports<A: FairArbiter>()
    ensures { PassesOverFewerTimesThanPorts A.ports A.policy }
{}

/// `LeastRecent` picks the asking port whose last pick is longest ago, and of those that were not
/// picked yet the lowest.
pub fn least_recent_picks_the_longest_ago()
    ensures { LongestAgoIsPicked }
{}
