//! Characters cut into packets.

use std::alloc::Global;
use sw_char::{End, NChar, packets};

/// One packet and a rest.
pub(crate) fn are_cut(alloc: Global) -> bool {
    let chars = [NChar::Data(0xAA), NChar::Eop, NChar::Data(0xBB)];
    match packets(alloc, &chars) {
        Ok((whole, start)) => match whole.as_slice() {
            [packet] => {
                start == 2 && packet.bytes.as_slice() == [0xAA].as_slice() && packet.end == End::Eop
            }
            _ => false,
        },
        Err(_) => false,
    }
}
