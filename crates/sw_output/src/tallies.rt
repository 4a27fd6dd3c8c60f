//! How often packets came out.
ghost use Rattle.std.specs.Prelude.{◌≡◌, ◌<◌, ◌^◌, ◌+◌, All, IfOk};
ghost use Rattle.sw_output.specs.Tallies.{IsRising, counted, end_rank, packet_order, tallies};

use std::alloc::{AllocError, Global};
use std::cmp::Ordering;
use std::marker::Model;
use sw_char::{End, Packet};

/// A packet, and how often it came out.
#[derive(Drop)]
pub struct Tally<'a> {
    /// A packet that came out; others that are equal to it are counted with it.
    pub packet: &'a Packet,
    /// At least 1.
    pub count: u64,
}

impl<'a> Model for Tally<'a> {
    ghost use Rattle.sw_output.specs.Tallies.{TallyView};

    ghost Value = { TallyView };

    ghost view = { λ t. record { item = t.packet.now; count = t.count } };
}

/// The place of the end marker in the order of packets of the same bytes: 0 of an EOP, 1 of an EEP.
pub fn end_rank(end: End) -> u8
    ensures { result ≡ end_rank end }
{
    match end {
        End::Eop => 0,
        End::Eep => 1,
    }
}

fn order(packet: &Packet, other: &Packet) -> Ordering
    ensures { result ≡ packet_order packet.now other.now }
{
    let ends = end_rank(packet.end).cmp(&end_rank(other.end));
    packet
        .bytes
        .as_slice()
        .cmp(other.bytes.as_slice())
        .then(ends)
}

/// The packet came out once more.
fn add<'a>(tallies: &mut Vec<Tally<'a>>, packet: &'a Packet) -> Result<(), AllocError>
    requires rising { IsRising tallies.old.items }
    requires few { All (λ t. t.count + 1 < 2 ^ 64) tallies.old.items }
    ensures { IfOk result (λ _. tallies.new.items ≡ counted packet.now tallies.old.items) }
{
    let place = tallies.binary_search_by(
        |tally: &Tally<'_>| -> Ordering
            ensures { result ≡ packet_order tally.now.item packet.entry.now }
        { order(tally.packet, packet) },
    );
    match place {
        Ok(i) => tallies[i].count += 1,
        Err(i) => tallies.insert(i, Tally { packet, count: 1 })?,
    }
    Ok(())
}

/// The different packets in rising order, each with how often it is listed.
///
/// # Errors
///
/// There is no memory for the list.
pub fn tallies<'a>(alloc: Global, packets: &'a [Packet]) -> Result<Vec<Tally<'a>>, AllocError>
    ensures { IfOk result (λ all. all.items ≡ tallies packets.now) }
{
    let mut all = Vec::new(alloc);
    for packet in packets {
        add(&mut all, packet)?;
    }
    Ok(all)
}
