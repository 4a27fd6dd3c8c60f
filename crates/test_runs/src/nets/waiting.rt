//! A load whose packets each begin as soon as they can.

use crate::moves::Move;
use crate::nets::calls::{LEFT, show_calls};
use crate::nets::{Core, make, make_step};
use std::alloc::Global;
use std::io;
use sw_load::{Load, LoadPacket};

/// More steps than any run here takes.
const MANY: u32 = 100_000;

/// As many entries as a load here may have.
const ENTRIES: usize = 16;

/// Begins a packet of each entry where one is left and can begin, and counts those that were begun. How many began?
fn begin_each(alloc: Global, net: &mut Core<'_>, packets: &[LoadPacket], begun: &mut [u16]) -> u32 {
    let mut made: u32 = 0;
    for number in 0..begun.len() {
        if number < packets.len() && begun[number] < packets[number].count() {
            let packet = &packets[number];
            let tried = Move::Begin(packet.flow(), packet.cargo(), packet.end());
            if make(alloc, net, tried).is_ok() {
                begun[number] = begun[number].saturating_add(1);
                made = made.saturating_add(1);
            }
        }
    }
    made
}

/// Begins packets wherever that is possible, and makes steps of the first link end that can make one, until none can. It prints how many
/// steps were made, what is left, and what came out.
pub(crate) fn show_waiting(rt: &HostRuntime, net: &mut Core<'_>, load: &Load) -> io::Result<()> {
    let mut begun = [0; ENTRIES];
    let mut made: u32 = 0;
    for _ in 0..MANY {
        made = made.saturating_add(begin_each(rt.alloc(), net, load.packets(), &mut begun));
        let Some(end) = net.first_enabled() else {
            break;
        };
        if make_step(rt.alloc(), net, end).is_none() {
            break;
        }
        made = made.saturating_add(1);
    }
    print!(rt; "made {made}, ").and(show_calls(rt, net, LEFT))
}
