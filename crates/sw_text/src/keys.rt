//! The keys of network files and load files, and where they stand.
ghost use Rattle.std.specs.Prelude.{◌≡◌};

/// A key that a network file or a load file may have.
#[derive(Clone, Copy, Debug, PartialEq, Eq)]
pub enum Key {
    /// `version`: of the network file, 1 to 3.
    Version,
    /// `node`: the list of nodes.
    Node,
    /// `switch`: the list of switches.
    Switch,
    /// `link`: the list of links.
    Link,
    /// `flow`: the list of flows; in a load, the name of the packet's flow.
    Flow,
    /// `name`: of a node, a switch or a flow.
    Name,
    /// `target`: the table that makes a node an RMAP target.
    Target,
    /// `logical`: the target logical address, 32 to 254.
    Logical,
    /// `key`: what commands to a target have to carry.
    TargetKey,
    /// `start`: the first address of a target's window, 0 to 2^40 - 1.
    Start,
    /// `size`: how many bytes a target's window has, 1 to 65536.
    Size,
    /// `slots`: how many replies a target may owe at once, 1 to 8 (version 2) or 1 to 64 (version 3).
    Slots,
    /// `arbiter`: how a switch chooses among inputs, a text.
    Arbiter,
    /// `route`: the list of entries of a switch's routing table.
    Route,
    /// `address`: of an entry, the first logical address, 32 to 254; of a flow, the list of the address bytes of its packets.
    Address,
    /// `last`: the last logical address of an entry, `address` to 254 (version 2).
    Last,
    /// `ports`: the list of ports that an entry names.
    Ports,
    /// `delete`: whether the address is deleted at the switch, a truth value.
    Delete,
    /// `a`: the name of the node or switch at one end of a link.
    A,
    /// `a_port`: the port at that end, 0 to 31, if it is a switch.
    APort,
    /// `b`: the name of the node or switch at the other end.
    B,
    /// `b_port`: the port at the other end, 0 to 31, if it is a switch.
    BPort,
    /// `buffer`: how many characters both receive buffers of a link hold, 8 to 4096.
    Buffer,
    /// `buffer_a`: the receive buffer at the end `a` (version 2).
    BufferA,
    /// `buffer_b`: the receive buffer at the end `b` (version 2).
    BufferB,
    /// `from`: the name of the node at which a flow begins.
    From,
    /// `to`: the name of the node at which a flow ends.
    To,
    /// `left`: how many of a flow's address bytes are still there when a packet arrives.
    Left,
    /// `reply`: the table of a flow whose packets may be commands that are answered.
    Reply,
    /// `path`: the list of the path address of the replies.
    Path,
    /// `initiator`: the initiator logical address, 32 to 254.
    Initiator,
    /// `outstanding`: how many commands of a node, or of a flow with replies, may be unanswered at once, 1 to 65535 (version 3).
    Outstanding,
    /// `packet`: the list of a load's entries.
    Packet,
    /// `cargo`: the bytes behind the flow's address, a text.
    Cargo,
    /// `end`: the end marker, `EOP` or `EEP`.
    End,
    /// `count`: how many such packets, 1 to 1000.
    Count,
}

impl Key {
    ghost use Rattle.sw_text.specs.Keys.{key_text};

    /// The key as the file writes it.
    pub fn text(self) -> &'static str
        ensures { result.now ≡ key_text self }
    {
        match self {
            Key::Version => "version",
            Key::Node => "node",
            Key::Switch => "switch",
            Key::Link => "link",
            Key::Flow => "flow",
            Key::Name => "name",
            Key::Target => "target",
            Key::Logical => "logical",
            Key::TargetKey => "key",
            Key::Start => "start",
            Key::Size => "size",
            Key::Slots => "slots",
            Key::Arbiter => "arbiter",
            Key::Route => "route",
            Key::Address => "address",
            Key::Last => "last",
            Key::Ports => "ports",
            Key::Delete => "delete",
            Key::A => "a",
            Key::APort => "a_port",
            Key::B => "b",
            Key::BPort => "b_port",
            Key::Buffer => "buffer",
            Key::BufferA => "buffer_a",
            Key::BufferB => "buffer_b",
            Key::From => "from",
            Key::To => "to",
            Key::Left => "left",
            Key::Reply => "reply",
            Key::Path => "path",
            Key::Initiator => "initiator",
            Key::Outstanding => "outstanding",
            Key::Packet => "packet",
            Key::Cargo => "cargo",
            Key::End => "end",
            Key::Count => "count",
        }
    }
}

/// A table of a file: the document, an entry of one of its lists, or a table in an entry. Entries are counted from 0.
#[derive(Clone, Copy, Debug, PartialEq, Eq)]
pub enum Section {
    /// The whole text, outside of its lists.
    Document,
    /// The node of that number.
    Node(usize),
    /// The target of the node of that number.
    Target(usize),
    /// The switch of that number.
    Switch(usize),
    /// Of the switch of the first number, the entry of its routing table of the second.
    Route(usize, usize),
    /// The link of that number.
    Link(usize),
    /// The flow of that number.
    Flow(usize),
    /// The reply of the flow of that number.
    Reply(usize),
    /// An entry of a load file.
    Packet(usize),
}

/// The version of a network file.
#[derive(Clone, Copy)]
pub enum Version {
    /// `version = 1`: without the keys of version 2.
    One,
    /// `version = 2`: with `slots`, `last`, `buffer_a` and `buffer_b`.
    Two,
    /// `version = 3`: with `outstanding` too, and more `slots`.
    Three,
}
