//! A wire carries what was put on it, in order.

use std::alloc::Global;
use sw_char::NChar;
use sw_link::Wires;
use sw_topo::Chan;

/// A character and an EOP arrive, and nothing more.
pub(crate) fn keeps_order(alloc: Global) -> bool {
    match Wires::new(alloc, 2) {
        Ok(mut wires) => {
            let channel = Chan::new(1);
            wires.put(channel, NChar::Data(7));
            wires.put(channel, NChar::Eop);
            wires.send_fct(channel);
            let count = wires.len(channel);
            let arrived = [
                wires.take(channel),
                wires.take(channel),
                wires.take(channel),
            ];
            (count, wires.channels(), wires.fcts(channel)) == (2, 2, 1)
                && arrived == [Some(NChar::Data(7)), Some(NChar::Eop), None]
        }
        Err(_) => false,
    }
}
