//! What came out at a node.
ghost use Rattle.std.specs.Prelude.{◌≡◌, IfOk};

use crate::cell::NodeCell;
use std::alloc::{AllocError, Global};
use sw_char::Packet;

impl NodeCell {
    /// The packets that came out at the node, in their order.
    ///
    /// # Errors
    ///
    /// There is no memory for the copies of the packets.
    pub fn came_out(&self, alloc: Global) -> Result<Vec<Packet>, AllocError>
        ensures { IfOk result (λ packets. packets.items ≡ self.now.packets) }
    {
        let mut packets = Vec::new(alloc);
        for packet in &self.packets {
            let bytes = Vec::from_slice(alloc, packet.bytes.as_slice())?;
            packets.push(Packet {
                bytes,
                end: packet.end,
            })?;
        }
        Ok(packets)
    }
}
