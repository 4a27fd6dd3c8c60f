//! In which order the inputs of a switch are granted an output for which three of them ask.

use std::io;
use sw_char::Packet;

/// Prints the first byte of each packet that came out, in their order.
pub(crate) fn show_order(rt: &HostRuntime, came_out: &[Vec<Packet>]) -> io::Result<()> {
    let mut shown = rt.print("order:");
    for packets in came_out {
        for packet in packets {
            if let Some(byte) = packet.bytes.first() {
                shown = shown.and(print!(rt; " {byte:02X}"));
            }
        }
    }
    shown.and(println!(rt))
}
