//! Which steps of a node are possible.
ghost use Rattle.std.specs.Prelude.{◌↔◌, IsTrue};
ghost use Rattle.sw_node.specs.Conditions.{CanAccept, CanBegin, CanEmit, CanIssue, CanReply, CanStep};

use crate::cell::NodeCell;

impl NodeCell {
    /// Can it begin a packet: does it send nothing, and does no reply wait?
    pub fn can_begin(&self) -> bool
        ensures { IsTrue result ↔ CanBegin self.now }
    {
        self.sending.is_empty() && self.pending.is_empty()
    }

    /// Has it a character to send, and credit (ECSS-E-ST-50-12C, data link layer: flow control)?
    pub fn can_emit(&self) -> bool
        ensures { IsTrue result ↔ CanEmit self.now }
    {
        !self.sending.is_empty() && self.credit.credit() > 0
    }

    /// May it owe a reply more, and is there a character to take?
    pub fn can_accept(&self) -> bool
        ensures { IsTrue result ↔ CanAccept self.now }
    {
        self.owed < self.pending.capacity() && self.received.len() > 0
    }

    /// Does a reply wait, and does it send nothing?
    pub fn can_reply(&self) -> bool
        ensures { IsTrue result ↔ CanReply self.now }
    {
        !self.pending.is_empty() && self.sending.is_empty()
    }

    /// Can an FCT leave for the channel that ends at the node (ECSS-E-ST-50-12C, data link layer:
    /// flow control)?
    pub fn can_issue(&self) -> bool
        ensures { IsTrue result ↔ CanIssue self.now }
    {
        self.received.can_issue()
    }

    /// Is some step possible, apart from beginning a packet and what comes from the link?
    pub fn enabled(&self) -> bool
        ensures { IsTrue result ↔ CanStep self.now }
    {
        self.can_issue() || self.can_emit() || self.can_accept() || self.can_reply()
    }
}
