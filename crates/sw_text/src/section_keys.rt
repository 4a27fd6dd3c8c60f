//! Which keys the tables of the files may have.
ghost use Rattle.std.specs.Prelude.{◌≡◌};
ghost use Rattle.sw_text.specs.SectionKeys.{node_keys, target_keys, route_keys, link_keys, reply_keys};

use crate::keys::{Key, Version};

/// Those of the document, in each version.
pub const DOCUMENT_KEYS: &[Key] = &[Key::Version, Key::Node, Key::Switch, Key::Link, Key::Flow];

/// Those of a switch, in each version.
pub const SWITCH_KEYS: &[Key] = &[Key::Name, Key::Arbiter, Key::Route];

/// Those of a flow, in each version.
pub const FLOW_KEYS: &[Key] = &[
    Key::Name,
    Key::From,
    Key::To,
    Key::Address,
    Key::Left,
    Key::Reply,
];

/// Those of a node: `outstanding` is of version 3.
pub fn node_keys(version: Version) -> &'static [Key]
    ensures { result.now ≡ node_keys version }
{
    match version {
        Version::One | Version::Two => &[Key::Name, Key::Target],
        Version::Three => &[Key::Name, Key::Target, Key::Outstanding],
    }
}

/// Those of a node's target: `slots` is of version 2, and of later ones.
pub fn target_keys(version: Version) -> &'static [Key]
    ensures { result.now ≡ target_keys version }
{
    match version {
        Version::One => &[Key::Logical, Key::TargetKey, Key::Start, Key::Size],
        Version::Two | Version::Three => &[
            Key::Logical,
            Key::TargetKey,
            Key::Start,
            Key::Size,
            Key::Slots,
        ],
    }
}

/// Those of a table entry of a switch: `last` is of version 2, and of later ones.
pub fn route_keys(version: Version) -> &'static [Key]
    ensures { result.now ≡ route_keys version }
{
    match version {
        Version::One => &[Key::Address, Key::Ports, Key::Delete],
        Version::Two | Version::Three => &[Key::Address, Key::Last, Key::Ports, Key::Delete],
    }
}

/// Those of a link: `buffer_a` and `buffer_b` are of version 2, and of later ones.
pub fn link_keys(version: Version) -> &'static [Key]
    ensures { result.now ≡ link_keys version }
{
    match version {
        Version::One => &[Key::A, Key::APort, Key::B, Key::BPort, Key::Buffer],
        Version::Two | Version::Three => &[
            Key::A,
            Key::APort,
            Key::B,
            Key::BPort,
            Key::Buffer,
            Key::BufferA,
            Key::BufferB,
        ],
    }
}

/// Those of a flow's reply: `outstanding` is of version 3.
pub fn reply_keys(version: Version) -> &'static [Key]
    ensures { result.now ≡ reply_keys version }
{
    match version {
        Version::One | Version::Two => &[Key::Path, Key::Initiator],
        Version::Three => &[Key::Path, Key::Initiator, Key::Outstanding],
    }
}

/// Those of a load's packet.
pub const PACKET_KEYS: &[Key] = &[Key::Flow, Key::Cargo, Key::End, Key::Count];
