//! What holds of each channel, whatever its two ends and its wire do.
ghost use Rattle.sw_link.specs.Channel.{EndsAcceptChannelChanges, NothingIsLost, OutstandingHasRoom, OutstandingIsAccountedFor};

/// Credit, N-Chars on the wire and eight for each FCT under way make up what is outstanding,
/// which is at most 56.
pub fn outstanding_is_accounted_for()
    ensures { OutstandingIsAccountedFor }
{}

/// What is outstanding and what the buffer holds fit into the buffer.
pub fn outstanding_has_room()
    ensures { OutstandingHasRoom }
{}

/// The receiver of an FCT that is under way, and of an N-Char on the wire, meets the condition of
/// the call that receives it.
pub fn ends_accept_channel_changes()
    ensures { EndsAcceptChannelChanges }
{}

/// What was sent was taken, is in the buffer or is on the wire, in the order in which it was sent.
pub fn nothing_is_lost()
    ensures { NothingIsLost }
{}
