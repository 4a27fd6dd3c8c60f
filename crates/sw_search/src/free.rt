//! The certificate of a free network.
ghost use Rattle.std.specs.Prelude.{◌≡◌, ◌≤◌, length, map};
ghost use Rattle.std.specs.List.{AllByRecursion};
ghost use Rattle.sw_cert.specs.Grammar.{IsBlock};
ghost use Rattle.sw_cert.specs.Reading.{items_of};
ghost use Rattle.sw_flow.specs.Places.{ends_of};
ghost use Rattle.sw_graph.specs.Levels.{HasCycle, IsLevels};
ghost use Rattle.sw_search.specs.Lists.{AreListed};
ghost use Rattle.sw_search.specs.Verdicts.{AllWellRouted, IsFree, depends};

use sw_cert::Certificate;
use sw_config::Network;
use sw_flow::Place;

/// The certificate of these levels and places.
fn certificate(levels: Vec<u16>, places: Vec<Vec<Place>>) -> Certificate
    requires channels { length levels.items ≤ 2048 }
    requires flows { length places.items ≤ 8192 }
    requires blocks { AllByRecursion IsBlock (map items_of places.items) }
    ensures { result ≡ record { numbers = levels.items; places = map items_of places.items } }
{
    Certificate::of_text(levels, places)
}

/// The certificate of a network in which each flow is well routed and the dependencies have levels.
pub(crate) fn free(network: &Network, levels: Vec<u16>, places: Vec<Vec<Place>>) -> Certificate
    requires routed { AllWellRouted network.now }
    requires no_cycle { HasCycle (depends network.now) → ⊥ }
    requires levels { IsLevels (depends network.now) (length (ends_of network.now)) levels.items }
    requires lists { AreListed network.now places.items }
    ensures { IsFree network.now result }
{
    // There are at most 2,048 channels and 8,192 flows, in a network that is valid by its type.
    let _topology = network.topology();
    let _channels = network.channels();
    let _flows = network.flows();
    certificate(levels, places)
}
