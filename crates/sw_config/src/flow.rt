//! Flows of packets.
ghost use Rattle.std.specs.Prelude.{◌≡◌, option_map};

use std::marker::Model;

/// Where the replies to a flow's commands go.
#[derive(Drop)]
pub struct Reply {
    path: Vec<u8>,
    initiator: u8,
    outstanding: Option<u16>,
}

impl Model for Reply {
    ghost use Rattle.sw_config.specs.Entries.{ReplyEntry};

    ghost Value = { ReplyEntry };

    ghost view = { λ r. record { path = r.path.items; initiator = r.initiator; outstanding = r.outstanding } };
}

impl Reply {
    /// Replies that begin with these address bytes, as a rule path addresses, and then the initiator logical address
    /// (ECSS-E-ST-50-52C, the reply address field of a command). In a valid network there are at most 12, each 0 to 255
    /// and the first not 0, and the initiator is 32 to 254. At most `outstanding` of the flow's commands may be unanswered at once, 1 to
    /// 65,535, or any number.
    pub fn new(path: Vec<u8>, initiator: u8, outstanding: Option<u16>) -> Reply
        ensures { result ≡ record { path = path.items; initiator = initiator; outstanding = outstanding } }
    {
        Reply {
            path,
            initiator,
            outstanding,
        }
    }

    /// The address bytes that a reply begins with.
    pub fn path(&self) -> &[u8]
        ensures { result.now ≡ self.now.path }
    {
        &self.path
    }

    /// The initiator logical address, which follows the path.
    pub fn initiator(&self) -> u8
        ensures { result ≡ self.now.initiator }
    {
        self.initiator
    }

    /// How many of the flow's commands may be unanswered at once, if that is limited: 1 to 65,535.
    pub fn outstanding(&self) -> Option<u16>
        ensures { result ≡ self.now.outstanding }
    {
        self.outstanding
    }
}

/// A flow of packets from one node to another.
#[derive(Drop)]
pub struct Flow {
    name: String,
    from: u16,
    to: u16,
    address: Vec<u8>,
    left: u8,
    reply: Option<Reply>,
}

impl Model for Flow {
    ghost use Rattle.std.specs.Prelude.{string_bytes};
    ghost use Rattle.sw_config.specs.Entries.{FlowEntry};

    ghost Value = { FlowEntry };

    ghost view = { λ f. record { name = string_bytes f.name; from = f.from; to = f.to; address = f.address.items; left = f.left; reply = f.reply } };
}

impl Flow {
    ghost use Rattle.std.specs.Prelude.{string_bytes};
    ghost use Rattle.sw_config.specs.Entries.{is_answered_at};

    /// A flow of this name: `left` of the address bytes are left where its packets end, and replies go as `reply` says.
    pub fn new(
        name: String,
        from: u16,
        to: u16,
        address: Vec<u8>,
        left: u8,
        reply: Option<Reply>,
    ) -> Flow
        ensures { result ≡ record { name = string_bytes name; from = from; to = to; address = address.items; left = left; reply = reply } }
    {
        Flow {
            name,
            from,
            to,
            address,
            left,
            reply,
        }
    }

    /// The name; that of a reply flow ends in `+reply`.
    pub fn name(&self) -> &str
        ensures { result.now ≡ self.now.name }
    {
        self.name.as_str()
    }

    /// The node at which its packets begin.
    pub fn from(&self) -> u16
        ensures { result ≡ self.now.from }
    {
        self.from
    }

    /// The node at which they are to end.
    pub fn to(&self) -> u16
        ensures { result ≡ self.now.to }
    {
        self.to
    }

    /// The address bytes that its packets begin with (ECSS-E-ST-50-12C, network layer: packet addressing).
    pub fn address(&self) -> &[u8]
        ensures { result.now ≡ self.now.address }
    {
        &self.address
    }

    /// How many of the address bytes are left at the end.
    pub fn left(&self) -> u8
        ensures { result ≡ self.now.left }
    {
        self.left
    }

    /// Are its packets commands to that node, which answers them (ECSS-E-ST-50-52C, the reply bit of a command)?
    pub fn is_answered_at(&self, node: u16) -> bool
        ensures { result ≡ is_answered_at node self.now }
    {
        self.reply.is_some() && self.to == node
    }

    /// Where its replies go, if it has any.
    pub fn reply(&self) -> Option<&Reply>
        ensures { option_map (λ r. r.now) result ≡ self.now.reply }
    {
        self.reply.as_ref()
    }
}
