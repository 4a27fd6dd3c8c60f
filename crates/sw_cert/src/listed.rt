//! Places among those that a certificate lists.
ghost use Rattle.std.specs.Prelude.{◌≡◌, ◌+◌, ◌*◌};
ghost use Rattle.sw_cert.specs.Grammar.{IsBlock};
ghost use Rattle.sw_cert.specs.Refusals.{is_listed};
ghost use Rattle.sw_cert.specs.Ranks.{rank, is_at};

use sw_flow::Place;

/// A number that rises with the place, by channel and then by deleted bytes.
fn rank(place: Place) -> u32
    ensures { result ≡ rank place }
{
    256 * u32::from(place.channel.number()) + u32::from(place.deleted)
}

fn is_at(listed: &[Place], index: usize, place: &Place) -> bool
    ensures { result ≡ is_at listed.now index place.now }
{
    match listed.get(index) {
        Some(found) => *place == *found,
        None => false,
    }
}

/// Where a search for the place ends, which halves the list at each turn: the place stands there or nowhere.
fn index_in(listed: &[Place], place: &Place) -> usize
    requires { IsBlock listed.now }
    ensures { is_at listed.now result place.now ≡ is_listed listed.now place.now }
{
    let wanted = rank(*place);
    let mut low = 0;
    let mut high = listed.len();
    while low < high {
        let middle = low + (high - low) / 2;
        if rank(listed[middle]) < wanted {
            low = middle + 1;
        } else {
            high = middle;
        }
    }
    low
}

/// Is the place listed? It is looked for at the index `next` and two before, and else searched for; where it is found, `next` is
/// the index behind it.
///
/// What follows the listed places, taken in order, mostly stands in order too: behind what followed the place before, or, where
/// two channels lead to one switch, once more where that stands. So few places are searched for, and any index gives the answer.
#[tactic(auto, using(crate::proofs::Ranks::at_listed))]
pub(crate) fn is_listed(listed: &[Place], next: &mut usize, place: &Place) -> bool
    requires { IsBlock listed.now }
    ensures { result ≡ is_listed listed.now place.now }
{
    if is_at(listed, *next, place) {
        *next = next.saturating_add(1);
        return true;
    }
    let before = next.saturating_sub(2);
    if is_at(listed, before, place) {
        *next = before.saturating_add(1);
        return true;
    }
    let found = index_in(listed, place);
    *next = found.saturating_add(1);
    is_at(listed, found, place)
}
