//! Certificates of given contents.
ghost use Rattle.std.specs.Prelude.{◌≡◌, ◌≤◌, ◌↔◌, IsTrue, IsSome, IfSome, map};
ghost use Rattle.std.specs.List.{AllByRecursion};
ghost use Rattle.sw_cert.specs.Grammar.{HasText, IsBlock};
ghost use Rattle.sw_cert.specs.Reading.{items_of};

use crate::certificate::Certificate;
use crate::lines::stands_before;
use sw_flow::Place;
use sw_topo::limits::{MAX_ADDRESS, MAX_CHANNELS, MAX_PLACES, MAX_WAYS};

/// Are there not too many places, none of too many deleted bytes, and does each stand before the next, by channel and then by deleted
/// bytes?
fn is_block(places: &[Place]) -> bool
    ensures { IsTrue result ↔ IsBlock places.now }
{
    if places.len() > MAX_PLACES as usize {
        return false;
    }
    let mut last = None;
    for place in places {
        // A channel's number has a text, whatever it is: the proof reads its range here.
        let _channel = place.channel.number();
        if place.deleted > MAX_ADDRESS {
            return false;
        }
        if !stands_before(last, place) {
            return false;
        }
        last = Some(*place);
    }
    true
}

fn are_blocks(flows: &[Vec<Place>]) -> bool
    ensures { IsTrue result ↔ AllByRecursion IsBlock (map items_of flows.now) }
{
    for places in flows {
        if !is_block(places) {
            return false;
        }
    }
    true
}

/// Do the contents have a text?
fn have_text(numbers: &[u16], flows: &[Vec<Place>]) -> bool
    ensures { IsTrue result ↔ HasText numbers.now (map items_of flows.now) }
{
    numbers.len() <= MAX_CHANNELS as usize && flows.len() <= MAX_WAYS as usize && are_blocks(flows)
}

impl Certificate {
    /// The certificate with these numbers, by channel, and these places, by flow; none where no text tells them: of more than
    /// 2,048 numbers, of more than 8,192 flows, of more than 67,584 places of one flow, of places that don't rise strictly by
    /// channel and then by deleted bytes, or of more than 32 deleted bytes.
    pub fn new(numbers: Vec<u16>, places: Vec<Vec<Place>>) -> Option<Certificate>
        ensures made { IsSome result ↔ HasText numbers.items (map items_of places.items) }
        ensures contents { IfSome result (λ c. c ≡ record { numbers = numbers.items; places = map items_of places.items }) }
    {
        if have_text(&numbers, &places) {
            Some(Certificate { numbers, places })
        } else {
            None
        }
    }

    /// The certificate with these numbers, by channel, and these places, by flow, which are known to
    /// have a text: `new` looks whether they have.
    pub fn of_text(numbers: Vec<u16>, places: Vec<Vec<Place>>) -> Certificate
        requires { HasText numbers.items (map items_of places.items) }
        ensures { result ≡ record { numbers = numbers.items; places = map items_of places.items } }
    {
        Certificate { numbers, places }
    }
}
