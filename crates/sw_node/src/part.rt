//! What a node has; all but its receive buffer is copied.
ghost use Rattle.std.specs.Prelude.{◌≡◌, ◌++◌, IfOk};
ghost use Rattle.sw_node.specs.Node.{memory_of, taken};

use crate::cell::NodeCell;
use crate::reply::push_replies;
use crate::sending::{push_chars, push_data};
use std::alloc::{AllocError, Global};
use std::marker::Model;
use sw_char::NChar;

/// A reply that waits to be sent (ECSS-E-ST-50-52C, reply fields).
#[derive(Debug, Drop)]
pub struct PendingReply {
    /// The address bytes that it begins with.
    pub address: Vec<u8>,
    /// What follows these, up to its end marker.
    pub cargo: Vec<u8>,
}

impl Model for PendingReply {
    ghost use Rattle.sw_rmap.specs.Owing.{PendingReply as Pending};

    ghost Value = { Pending };

    ghost view = { λ r. record { address = r.address.items; cargo = r.cargo.items } };
}

impl NodeCell {
    /// The characters that it has still to send of the packet under way, the next first.
    ///
    /// # Errors
    ///
    /// There is no memory for the copy.
    pub fn to_send(&self, alloc: Global) -> Result<Vec<NChar>, AllocError>
        ensures { IfOk result (λ chars. chars.items ≡ self.now.to_send) }
    {
        self.sending.chars(alloc)
    }

    /// The replies that wait to be sent, the oldest first: 0 to 8.
    ///
    /// # Errors
    ///
    /// There is no memory for the copy.
    pub fn pending(&self, alloc: Global) -> Result<Vec<PendingReply>, AllocError>
        ensures { IfOk result (λ replies. replies.items ≡ self.now.pending) }
    {
        let (first, second) = self.pending.as_slices();
        let mut replies = Vec::new(alloc);
        push_replies(&mut replies, alloc, first)?;
        push_replies(&mut replies, alloc, second)?;
        Ok(replies)
    }

    /// The characters that it took, the oldest first: those of the packets that came out, and the
    /// bytes that came of the packet under way.
    ///
    /// # Errors
    ///
    /// There is no memory for the copy.
    pub fn taken(&self, alloc: Global) -> Result<Vec<NChar>, AllocError>
        ensures { IfOk result (λ chars. chars.items ≡ taken self.now) }
    {
        let mut chars = Vec::new(alloc);
        for packet in &self.packets {
            push_chars(&mut chars, &packet.bytes, packet.end)?;
        }
        push_data(&mut chars, &self.bytes)?;
        Ok(chars)
    }

    /// What its memory holds; nothing at a plain node.
    ///
    /// # Errors
    ///
    /// There is no memory for the copy.
    pub fn memory(&self, alloc: Global) -> Result<Vec<u8>, AllocError>
        ensures { IfOk result (λ memory. memory.items ≡ memory_of self.now.target) }
    {
        match &self.target {
            Some(target) => Vec::from_slice(alloc, target.memory()),
            None => Ok(Vec::new(alloc)),
        }
    }

    /// The N-Chars in its receive buffer, the oldest first: those of the first slice, then those of
    /// the second. They are not copied.
    pub fn buffer(&self) -> (&[NChar], &[NChar])
        ensures { result.0.now ++ result.1.now ≡ self.now.received.buffer }
    {
        self.received.buffer()
    }
}
