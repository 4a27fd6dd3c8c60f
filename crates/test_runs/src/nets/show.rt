//! What a network has come to, as it is printed.

use crate::nets::Core;
use hex::encode_upper;
use std::alloc::{AllocError, Global};
use std::io;
use sw_char::Packet;
use sw_output::packet_end_text;

/// What is printed of the packets that came out at a node.
#[derive(Clone, Copy)]
pub(crate) enum Detail {
    Counts,
    Packets,
}

/// The digits of the bytes. A long row of one byte is told once, with its length.
fn digits_of(alloc: Global, bytes: &[u8]) -> Result<String, AllocError> {
    let count = bytes.len();
    if 100 < count && &bytes[1..] == &bytes[..count - 1] {
        return format!(in alloc; "{:02X}*{count}", bytes[0]);
    }
    encode_upper(alloc, bytes)
}

fn show_packet(rt: &HostRuntime, name: &str, packet: &Packet) -> io::Result<()> {
    let digits = digits_of(rt.alloc(), &packet.bytes)?;
    let end = packet_end_text(packet.end);
    println!(rt; "packet {name} {digits} {end}")
}

fn show_came_out(
    rt: &HostRuntime,
    name: &str,
    came_out: &[Packet],
    detail: Detail,
) -> io::Result<()> {
    if let Detail::Counts = detail {
        return print!(rt; " {}", came_out.len());
    }
    let mut shown = println!(rt; "node {name} packets {}", came_out.len());
    for packet in came_out {
        shown = shown.and(show_packet(rt, name, packet));
    }
    shown
}

/// Prints what came out at each node. This function alone owns packets.
pub(crate) fn show_nodes(rt: &HostRuntime, net: &Core<'_>, detail: Detail) -> io::Result<()> {
    let network = net.network();
    let mut shown = Ok(());
    for node in 0..network.nodes() {
        shown = shown.and(match net.came_out(rt.alloc(), node) {
            Ok(came_out) => show_came_out(rt, network.node_name(node), &came_out, detail),
            Err(refused) => Err(io::Error::from(refused)),
        });
    }
    shown
}

/// Prints the first link end that can make a step, if any can.
pub(crate) fn show_first(rt: &HostRuntime, net: &Core<'_>) -> io::Result<()> {
    match net.first_enabled() {
        Some(end) => println!(rt; "first enabled {}", end.number()),
        None => rt.println("first enabled none"),
    }
}
