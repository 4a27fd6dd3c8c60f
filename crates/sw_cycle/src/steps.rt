//! The steps of flows from a channel to another.
ghost use Rattle.std.specs.Prelude.{◌≡◌, ◌≤◌, ℕ, length, IfNone, IfSome};
ghost use Rattle.sw_flow.specs.Places.{Follows};
ghost use Rattle.sw_flow.specs.Ways.{GoesTo};

use sw_config::{Flow, Network};
use sw_flow::{Place, follows};
use sw_topo::Chan;

/// A step of a flow.
#[derive(Clone, Copy)]
pub(crate) struct PlaceStep {
    pub(crate) flow: u16,
    pub(crate) last: Place,
    pub(crate) next: Place,
}

/// The place on the second channel to which the flow goes by one step from this place, if that is on the first.
pub(crate) fn follower_between(
    network: &Network,
    flow: &Flow,
    place: Place,
    from: Chan,
    to: Chan,
) -> Option<Place>
    requires { length flow.now.address ≤ 32 }
    ensures from { IfSome result (λ next. place.channel ≡ from) }
    ensures to { IfSome result (λ next. next.channel ≡ to) }
    ensures goes { IfSome result (GoesTo network.now flow.now place) }
    ensures none { IfNone result (place.channel ≡ from → (m : ℕ) → Follows network.now flow.now place.channel place.deleted to m → ⊥) }
{
    if place.channel != from {
        return None;
    }
    let kept = Place {
        channel: to,
        deleted: place.deleted,
    };
    if follows(network, flow, place, kept) {
        return Some(kept);
    }
    let fewer = Place {
        channel: to,
        deleted: place.deleted.checked_add(1)?,
    };
    if follows(network, flow, place, fewer) {
        Some(fewer)
    } else {
        None
    }
}
