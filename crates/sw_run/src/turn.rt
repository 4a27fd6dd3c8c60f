//! What a link end did.

use sw_topo::LinkEnd;

/// What a link end did.
#[derive(Clone, Copy)]
pub(crate) enum Turn {
    /// It made a step that no other cell can see.
    Moved,
    /// It made a step that sent something over the link of this link end.
    Sent(LinkEnd),
    /// It had no step to make.
    Idle,
    /// The run is over.
    Over,
}
