//! The steps of a node.
ghost use Rattle.std.specs.Prelude.{◌≡◌, ◌<◌, Some, OnErr, OnOk, slice_get};
ghost use Rattle.sw_link.specs.Ends.{asked};
ghost use Rattle.sw_node.specs.Node.{slots};

use crate::cell::NodeCell;
use crate::reply::answer;
use crate::sending::Sending;
use std::alloc::{AllocError, Global};
use std::mem;
use sw_char::{End, NChar, Packet};

impl NodeCell {
    ghost use Rattle.sw_node.specs.Conditions.{CanAccept, CanBegin, CanEmit, CanIssue, CanReply};
    ghost use Rattle.sw_node.specs.Changes.{accepted, begun, completed, emitted, replied, with_received};

    /// Begins to send a packet (ECSS-E-ST-50-12C, network layer: packets). `can_begin` has to hold.
    ///
    /// # Errors
    ///
    /// There is no memory for the packet: then the node is as it was.
    pub fn begin(
        &mut self,
        alloc: Global,
        address: &[u8],
        cargo: &[u8],
        end: End,
    ) -> Result<(), AllocError>
        requires { CanBegin self.old }
        ensures ok { OnOk result (self.new ≡ begun self.old address.now cargo.now end) }
        ensures err { OnErr result (self.new ≡ self.old) }
    {
        let bytes = [address, cargo].concat(alloc)?;
        self.sending = Sending::packet(bytes, end);
        Ok(())
    }

    /// The first character to send leaves for the wire (ECSS-E-ST-50-12C, data link layer: flow
    /// control). `can_emit` has to hold.
    pub fn emit(&mut self) -> NChar
        requires { CanEmit self.old }
        ensures character { slice_get self.old.to_send 0 ≡ Some result }
        ensures after { self.new ≡ emitted self.old }
    {
        match self.sending.first() {
            Some(character) => {
                self.sending.advance();
                self.credit.send();
                if self.sending.is_empty() {
                    self.owed = self.pending.len();
                }
                character
            }
            None => unreachable!(),
        }
    }

    /// Begins to send the reply that has waited longest (ECSS-E-ST-50-52C, reply fields).
    /// `can_reply` has to hold.
    pub fn reply(&mut self)
        requires { CanReply self.old }
        ensures { self.new ≡ replied self.old }
    {
        match self.pending.pop_front() {
            Some(reply) => self.sending = reply.into_sending(),
            None => unreachable!(),
        }
    }

    /// The packet under way is whole: it is answered, and came out.
    fn complete(&mut self, alloc: Global, end: End) -> Result<(), AllocError>
        requires { self.old.owed < slots self.old }
        ensures ok { OnOk result (self.new ≡ completed self.old end) }
        ensures err { OnErr result (self.new ≡ self.old) }
    {
        self.packets.reserve(1)?;
        let reply = answer(&mut self.target, alloc, &self.bytes, end)?;
        let bytes = mem::replace(&mut self.bytes, Vec::new(alloc));
        self.packets.push_reserved(Packet { bytes, end });
        if let Some(reply) = reply {
            self.pending.try_push_back(reply).unwrap();
            self.owed += 1;
        }
        Ok(())
    }

    /// The first character in the buffer is taken; the last of a packet has that come out, and be
    /// answered. `can_accept` has to hold.
    ///
    /// # Errors
    ///
    /// There is no memory for what the node stores, or for the reply: then the node is as it was.
    pub fn accept(&mut self, alloc: Global) -> Result<(), AllocError>
        requires { CanAccept self.old }
        ensures ok { OnOk result (self.new ≡ accepted self.old) }
        ensures err { OnErr result (self.new ≡ self.old) }
    {
        match self.received.front() {
            Some(NChar::Data(byte)) => self.bytes.push(byte)?,
            Some(NChar::Eop) => self.complete(alloc, End::Eop)?,
            Some(NChar::Eep) => self.complete(alloc, End::Eep)?,
            None => unreachable!(),
        }
        let _ = self.received.take();
        Ok(())
    }

    /// An FCT leaves for the channel that ends at the node (ECSS-E-ST-50-12C, data link layer: flow
    /// control). `can_issue` has to hold.
    pub fn issue(&mut self)
        requires { CanIssue self.old }
        ensures { self.new ≡ with_received self.old (asked self.old.received) }
    {
        self.received.issue();
    }
}
