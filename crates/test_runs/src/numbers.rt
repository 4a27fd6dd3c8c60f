//! The numbers of link ends, as they are printed.

use std::io;
use sw_net::Numbers;

/// Prints the numbers of a link end, whose name stands before.
pub(crate) fn show_numbers(rt: &HostRuntime, numbers: Option<Numbers>) -> io::Result<()> {
    let Some(numbers) = numbers else {
        return rt.println(": no such link end");
    };
    let (credit, outstanding, room) = (numbers.credit, numbers.outstanding, numbers.room);
    println!(rt; ": credit {credit}, outstanding {outstanding}, room {room}")
}
