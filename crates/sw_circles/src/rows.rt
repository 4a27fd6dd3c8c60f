//! The steps between places of a flow, by the places' numbers.
ghost use Rattle.std.specs.Ordering.{nat_cmp};
ghost use Rattle.std.specs.Prelude.{◌≡◌, ◌≤◌, IfOk, length, map, position};
ghost use Rattle.sw_circles.specs.Circles.{ChannelsRise, is_place, row_from, with_deleted};

use std::alloc::{AllocError, Global};
use std::cmp::Ordering;
use sw_flow::{Flow, Network, Place, followers_in};

/// The places with so many address bytes deleted.
pub(crate) fn with_deleted(
    alloc: Global,
    places: &[Place],
    deleted: u8,
) -> Result<Vec<Place>, AllocError>
    ensures { IfOk result (λ v. v.items ≡ with_deleted deleted places.now) }
{
    let mut kept = Vec::new(alloc);
    for place in places {
        if place.deleted == deleted {
            kept.push(*place)?;
        }
    }
    Ok(kept)
}

/// The number of a place in the list, in which the channels rise.
fn number_of(places: &[Place], sought: Place) -> Option<u16>
    requires few { length places.now ≤ 65535 }
    requires rising { ChannelsRise places.now }
    ensures { result ≡ position (is_place sought) places.now }
{
    let channel = sought.channel.number();
    let found = places.binary_search_by(
        |place: &Place| -> Ordering
            ensures { result ≡ nat_cmp place.now.channel channel }
        { place.channel.number().cmp(&channel) },
    );
    match found {
        Ok(number) => {
            if places[number] == sought {
                Some(number as u16)
            } else {
                None
            }
        }
        Err(_) => None,
    }
}

/// The numbers of the places in the list to which packets go on from this place.
fn row_from(
    alloc: Global,
    network: &Network,
    flow: &Flow,
    places: &[Place],
    from: Place,
) -> Result<Vec<u16>, AllocError>
    requires address { length flow.now.address ≤ 32 }
    requires few { length places.now ≤ 65535 }
    requires rising { ChannelsRise places.now }
    ensures { IfOk result (λ v. v.items ≡ row_from network.now flow.now places.now from) }
{
    let mut row = Vec::new(alloc);
    for next in followers_in(network, flow, from) {
        if let Some(number) = number_of(places, next) {
            row.push(number)?;
        }
    }
    Ok(row)
}

/// For each place of the list the numbers of those to which packets go on from there.
pub(crate) fn rows_of(
    alloc: Global,
    network: &Network,
    flow: &Flow,
    places: &[Place],
) -> Result<Vec<Vec<u16>>, AllocError>
    requires address { length flow.now.address ≤ 32 }
    requires few { length places.now ≤ 65535 }
    requires rising { ChannelsRise places.now }
    ensures { IfOk result (λ v. map (λ r. r.items) v.items ≡ map (row_from network.now flow.now places.now) places.now) }
{
    let mut rows = Vec::new(alloc);
    for place in places {
        rows.push(row_from(alloc, network, flow, places, *place)?)?;
    }
    Ok(rows)
}
