//! Packets that came out, as values.
ghost use Rattle.std.specs.Prelude.{◌≡◌, IfOk, length, map};
ghost use Rattle.serde_json.specs.View.{view};
ghost use Rattle.sw_runs.specs.PacketValues.{by_node, counted_node_value, node_value, packet_value, tally_value};
ghost use Rattle.sw_output.specs.Tallies.{tallies};

use hex::encode_upper;
use serde_json::Value;
use std::alloc::{AllocError, Global};
use sw_char::Packet;
use sw_config::Network;
use sw_json::{Member, add_value, object_of};
use sw_output::{Tally, packet_end_text, packet_tallies};

fn packet_value(alloc: Global, packet: &Packet) -> Result<Value, AllocError>
    ensures { IfOk result (λ v. view v ≡ packet_value packet.now) }
{
    let bytes = encode_upper(alloc, packet.bytes.as_slice())?;
    let end = packet_end_text(packet.end);
    let members = vec![in alloc;
        ("bytes", Member::Value(Value::String(bytes))),
        ("end", Member::Text(end)),
    ]?;
    object_of(alloc, members)
}

fn tally_value(alloc: Global, tally: &Tally<'_>) -> Result<Value, AllocError>
    ensures { IfOk result (λ v. view v ≡ tally_value tally.now) }
{
    let count = tally.count;
    let packet = tally.packet;
    let bytes = encode_upper(alloc, packet.bytes.as_slice())?;
    let end = packet_end_text(packet.end);
    let members = vec![in alloc;
        ("bytes", Member::Value(Value::String(bytes))),
        ("count", Member::Number(count)),
        ("end", Member::Text(end)),
    ]?;
    object_of(alloc, members)
}

/// A value for each packet.
fn packet_values(alloc: Global, packets: &[Packet]) -> Result<Vec<Value>, AllocError>
    ensures { IfOk result (λ v. map view v.items ≡ map packet_value packets.now) }
{
    let mut values = Vec::new(alloc);
    for packet in packets {
        add_value(packet_value(alloc, packet), &mut values)?;
    }
    Ok(values)
}

/// A value for each tally.
fn tally_values(alloc: Global, all: &[Tally<'_>]) -> Result<Vec<Value>, AllocError>
    ensures { IfOk result (λ v. map view v.items ≡ map tally_value all.now) }
{
    let mut values = Vec::new(alloc);
    for tally in all {
        add_value(tally_value(alloc, tally), &mut values)?;
    }
    Ok(values)
}

fn node_value(alloc: Global, name: &str, packets: &[Packet]) -> Result<Value, AllocError>
    ensures { IfOk result (λ v. view v ≡ node_value name.now packets.now) }
{
    let values = packet_values(alloc, packets)?;
    let members = vec![in alloc;
        ("name", Member::Text(name)),
        ("packets", Member::Value(Value::Array(values))),
    ]?;
    object_of(alloc, members)
}

/// A value for each of the different packets.
fn counted_values(alloc: Global, packets: &[Packet]) -> Result<Vec<Value>, AllocError>
    ensures { IfOk result (λ v. map view v.items ≡ map tally_value (tallies packets.now)) }
{
    let all = packet_tallies(alloc, packets)?;
    tally_values(alloc, &all)
}

fn counted_node_value(alloc: Global, name: &str, packets: &[Packet]) -> Result<Value, AllocError>
    ensures { IfOk result (λ v. view v ≡ counted_node_value name.now packets.now) }
{
    let count = packets.len();
    let values = counted_values(alloc, packets)?;
    let members = vec![in alloc;
        ("count", Member::Number(count as u64)),
        ("name", Member::Text(name)),
        ("packets", Member::Value(Value::Array(values))),
    ]?;
    object_of(alloc, members)
}

/// A value for each node, with the packets that came out there.
pub(crate) fn node_values(
    alloc: Global,
    network: &Network,
    all: &[Vec<Packet>],
) -> Result<Vec<Value>, AllocError>
    requires { length all.now ≡ length network.now.nodes }
    ensures { IfOk result (λ v. map view v.items ≡ by_node node_value network.now (map (λ packets. packets.items) all.now)) }
{
    let mut values = Vec::new(alloc);
    for n in 0..network.nodes() {
        let name = network.node_name(n);
        add_value(node_value(alloc, name, &all[n as usize]), &mut values)?;
    }
    Ok(values)
}

/// A value for each node, with the different packets that came out there, and how often each did.
pub(crate) fn counted_node_values(
    alloc: Global,
    network: &Network,
    all: &[Vec<Packet>],
) -> Result<Vec<Value>, AllocError>
    requires { length all.now ≡ length network.now.nodes }
    ensures { IfOk result (λ v. map view v.items ≡ by_node counted_node_value network.now (map (λ packets. packets.items) all.now)) }
{
    let mut values = Vec::new(alloc);
    for n in 0..network.nodes() {
        let name = network.node_name(n);
        add_value(
            counted_node_value(alloc, name, &all[n as usize]),
            &mut values,
        )?;
    }
    Ok(values)
}
