//! What came out of a network, as keys.
ghost use Rattle.std.specs.Prelude.{◌≡◌, ◌≤◌, IfOk, None, Some, if◌then◌else◌, length, map};
ghost use Rattle.sw_summary.specs.Counts.{all_items, all_replies, item_at, reply_at};
ghost use Rattle.sw_summary.specs.Replies.{is_reply};

use crate::replies::is_reply;
use std::alloc::{AllocError, Global};
use std::marker::Model;
use sw_char::{End, Packet};

/// A packet at a node, or the part of it that matters.
#[derive(Drop)]
pub(crate) struct PacketKey<'a> {
    pub(crate) node: u16,
    pub(crate) bytes: &'a [u8],
    pub(crate) end: End,
}

impl<'a> Model for PacketKey<'a> {
    ghost use Rattle.sw_summary.specs.Items.{Item};

    ghost Value = { Item };

    ghost view = { λ k. record { node = k.node; packet = record { bytes = k.bytes.now; end = k.end } } };
}

fn packet_key(node: u16, packet: &Packet) -> PacketKey<'_>
    ensures { result ≡ item_at node packet.now }
{
    PacketKey {
        node,
        bytes: packet.bytes.as_slice(),
        end: packet.end,
    }
}

/// The packet by its first byte, if it is a reply.
fn reply_key(node: u16, packet: &Packet) -> Option<PacketKey<'_>>
    ensures { result ≡ (if is_reply packet.now.bytes then Some (reply_at node packet.now) else None) }
{
    let bytes = packet.bytes.as_slice();
    if !is_reply(bytes) {
        return None;
    }
    Some(PacketKey {
        node,
        bytes: &bytes[..1],
        end: End::Eop,
    })
}

/// All packets, node by node.
pub(crate) fn packet_keys<'a>(
    alloc: Global,
    out: &'a [Vec<Packet>],
) -> Result<Vec<PacketKey<'a>>, AllocError>
    requires { length out.now ≤ 1024 }
    ensures { IfOk result (λ all. all.items ≡ all_items (map (λ packets. packets.items) out.now)) }
{
    let mut all = Vec::new(alloc);
    for n in 0..out.len() {
        for packet in out[n].as_slice() {
            all.push(packet_key(n as u16, packet))?;
        }
    }
    Ok(all)
}

/// All replies by their first byte, node by node.
pub(crate) fn reply_keys<'a>(
    alloc: Global,
    out: &'a [Vec<Packet>],
) -> Result<Vec<PacketKey<'a>>, AllocError>
    requires { length out.now ≤ 1024 }
    ensures { IfOk result (λ all. all.items ≡ all_replies (map (λ packets. packets.items) out.now)) }
{
    let mut all = Vec::new(alloc);
    for n in 0..out.len() {
        for packet in out[n].as_slice() {
            let Some(key) = reply_key(n as u16, packet) else {
                continue;
            };
            all.push(key)?;
        }
    }
    Ok(all)
}
