//! Places of flows.

use sw_config::Chan;

/// A place of a flow: its packets go over the channel with that many of their address bytes deleted
/// (ECSS-E-ST-50-12C, network layer: packet addressing).
#[derive(Clone, Copy, Debug, PartialEq, Eq)]
pub struct Place {
    /// The channel that the packets go over.
    pub channel: Chan,
    /// 0 to the length of the flow's address.
    pub deleted: u8,
}
