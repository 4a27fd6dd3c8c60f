//! A flow and its places, by its number.
ghost use Rattle.std.specs.Prelude.{◌≡◌, ◌<◌, ◌≤◌, Some, length, slice_get};
ghost use Rattle.std.specs.List.{AllZip};
ghost use Rattle.sw_config.specs.Entries.{all_flows};
ghost use Rattle.sw_flow.specs.Places.{IsPlaceList};

use sw_config::{Flow, Network};
use sw_flow::Place;

/// The flow of that number, and its places.
pub(crate) fn flow_and_places<'a>(
    network: &'a Network,
    places: &'a [Vec<Place>],
    number: u16,
) -> (&'a Flow, &'a [Place])
    requires lists { AllZip (λ f ps. IsPlaceList network.now f ps.items) (all_flows network.now) places.now }
    requires inside { number < length (all_flows network.now) }
    ensures flow { slice_get (all_flows network.now) number ≡ Some result.0.now }
    ensures short { length result.0.now.address ≤ 32 }
    ensures places { IsPlaceList network.now result.0.now result.1.now }
{
    (network.flow(number), &places[usize::from(number)])
}
