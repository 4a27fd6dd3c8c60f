//! The lines of packets.
ghost use Rattle.std.specs.Prelude.{◌≡◌, ◌++◌, IfOk, flat_map, length, string_bytes};
ghost use Rattle.sw_output.specs.PacketTexts.{bytes_text, end_text, node_line, packet_lines, undelivered_line};

use hex::encode_upper;
use std::alloc::{AllocError, Global};
use std::fmt::Write;
use sw_char::{End, Packet};

/// How many characters are undelivered.
///
/// # Errors
///
/// There is no memory for the text.
pub fn undelivered_line(alloc: Global, count: u64) -> Result<String, AllocError>
    ensures { IfOk result (λ s. string_bytes s ≡ undelivered_line count) }
{
    format!(in alloc; "undelivered {count}\n")
}

/// How a packet ends, in three letters.
pub fn end_text(end: End) -> &'static str
    ensures { result.now ≡ end_text end }
{
    match end {
        End::Eop => "EOP",
        End::Eep => "EEP",
    }
}

/// Pairs of hexadecimal digits, with upper case letters; `-` for no bytes.
pub(crate) fn bytes_text(alloc: Global, bytes: &[u8]) -> Result<String, AllocError>
    ensures { IfOk result (λ s. string_bytes s ≡ bytes_text bytes.now) }
{
    match bytes {
        [] => String::from_str(alloc, "-"),
        bytes => encode_upper(alloc, bytes),
    }
}

/// Adds how many packets came out at a node.
pub(crate) fn add_node(name: &str, packets: &[Packet], text: &mut String) -> Result<(), AllocError>
    ensures { IfOk result (λ _. string_bytes text.new ≡ string_bytes text.old ++ node_line name.now packets.now) }
{
    let count = packets.len();
    write!(text, "node {name} packets {count}\n")
}

/// Adds a line for each packet that came out at a node.
pub(crate) fn add_packets(
    alloc: Global,
    name: &str,
    packets: &[Packet],
    text: &mut String,
) -> Result<(), AllocError>
    ensures { IfOk result (λ _. string_bytes text.new ≡ string_bytes text.old ++ packet_lines name.now packets.now) }
{
    for packet in packets {
        let bytes = bytes_text(alloc, &packet.bytes)?;
        let end = end_text(packet.end);
        write!(text, "packet {name} {bytes} {end}\n")?;
    }
    Ok(())
}
