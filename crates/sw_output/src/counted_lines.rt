//! The text of packets that came out, with how often they did.
ghost use Rattle.std.specs.Prelude.{◌≡◌, ◌++◌, IfOk, length, map, string_bytes};
ghost use Rattle.sw_output.specs.Tallies.{counted_line, counted_lines, sent_text};

use crate::all_nodes::all_node_lines;
use crate::packet_lines::{bytes_text, end_text, undelivered_line};
use crate::tallies::{Tally, tallies};
use std::alloc::{AllocError, Global};
use std::fmt::Write;
use sw_char::Packet;
use sw_config::Network;

/// Adds the line of a tally.
fn add_tally(
    alloc: Global,
    name: &str,
    tally: &Tally<'_>,
    text: &mut String,
) -> Result<(), AllocError>
    ensures { IfOk result (λ _. string_bytes text.new ≡ string_bytes text.old ++ counted_line name.now tally.now) }
{
    let count = tally.count;
    let packet = tally.packet;
    let bytes = bytes_text(alloc, &packet.bytes)?;
    let end = end_text(packet.end);
    write!(text, "packet {name} {count} {bytes} {end}\n")
}

/// Adds a line for each of the different packets that came out at a node.
fn add_counted(
    alloc: Global,
    name: &str,
    packets: &[Packet],
    text: &mut String,
) -> Result<(), AllocError>
    ensures { IfOk result (λ _. string_bytes text.new ≡ string_bytes text.old ++ counted_lines name.now packets.now) }
{
    let all = tallies(alloc, packets)?;
    for tally in all.iter() {
        add_tally(alloc, name, tally, text)?;
    }
    Ok(())
}

/// How many characters are undelivered, how many packets came out at each node, and which.
///
/// # Errors
///
/// There is no memory for the text.
pub fn sent_text(
    alloc: Global,
    network: &Network,
    undelivered: u64,
    all: &[Vec<Packet>],
) -> Result<String, AllocError>
    requires { length all.now ≡ length network.now.nodes }
    ensures { IfOk result (λ s. string_bytes s ≡ sent_text network.now undelivered (map (λ packets. packets.items) all.now)) }
{
    let mut text = undelivered_line(alloc, undelivered)?;
    text.push_str(all_node_lines(alloc, network, all)?.as_str())?;
    for n in 0..network.nodes() {
        let name = network.node_name(n);
        add_counted(alloc, name, &all[n as usize], &mut text)?;
    }
    Ok(text)
}
