//! How many places and dependencies there are.
ghost use Rattle.sw_search.specs.Findings.{IsDependencyCount, IsPlaceCount};
ghost use Rattle.sw_search.specs.Lists.{AreListed, AreRows};

use sw_config::Network;
use sw_flow::Place;

/// How many places the flows have.
pub(crate) fn places_in(network: &Network, lists: &[Vec<Place>]) -> u64
    requires { AreListed network.now lists.now }
    ensures { IsPlaceCount network.now result }
{
    // There are at most 2,048 channels and 8,192 flows, in a network that is valid by its type.
    let _topology = network.topology();
    let _channels = network.channels();
    let _flows = network.flows();
    let mut count = 0;
    for list in lists {
        count += list.len() as u64;
    }
    count
}

/// How many dependencies there are.
pub(crate) fn dependencies_in(network: &Network, rows: &[Vec<u16>]) -> u64
    requires { AreRows network.now rows.now }
    ensures { IsDependencyCount network.now result }
{
    // There are at most 2,048.
    let _channels = network.channels();
    let mut count = 0;
    for row in rows {
        count += row.len() as u64;
    }
    count
}
