//! Channels that wait for channels.

use sw_topo::Chan;

/// How long the packet of a leg is.
#[derive(Clone, Copy, PartialEq, Eq)]
pub(crate) enum Extent {
    /// Its tail is held up at its source; or it is a short one, if it holds one channel of the circle alone.
    Any,
    /// Its tail is held up at its source.
    Long,
    /// It fills the channels of its legs, and holds no others.
    Short,
}

/// One channel that waits for another.
#[derive(Clone, Copy)]
pub(crate) struct Leg {
    /// The channel that is held.
    pub(crate) from: Chan,
    /// The one that is waited for.
    pub(crate) to: Chan,
    /// The flow whose packet holds the one and waits for the other; none where a target takes nothing from the one until a reply
    /// of its has left on the other.
    pub(crate) flow: Option<u16>,
    /// How long the packet is.
    pub(crate) extent: Extent,
}
