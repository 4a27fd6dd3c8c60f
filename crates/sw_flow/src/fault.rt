//! What may be wrong with a place.

/// Why packets don't come rightly on from a place of their flow.
#[derive(Clone, Copy, Debug, PartialEq, Eq)]
pub enum RouteFault {
    /// It is at a switch, and no address byte is left.
    AddressEnds,
    /// It is at a switch, where the leading byte names no port that has a link.
    NoRoute,
    /// It is at a node to which the flow does not go.
    WrongNode,
    /// It is at the flow's end, and not as many address bytes are left as are to be.
    WrongLeft,
}
