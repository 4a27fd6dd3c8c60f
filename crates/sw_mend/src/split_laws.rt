//! What holds of splits: which are tried, and over which channels each flow goes in the network that is left. These functions do nothing: each is
//! the proof of what its clause says.
ghost use Rattle.sw_mend.specs.SplitLaws.{DeliveredComeByPort, SplitMendsInWords, SplitsInWords, SplitsKeepChannels, SplitsKeepOtherFlows, SplitsMoveCommands, SplitsMoveReplies};

/// A split is tried of each target that answers commands and whose node's link leads to a switch with a free port: beside that link, to the
/// least such port.
pub fn splits_in_words()
    ensures { SplitsInWords }
{}

/// Each channel starts and ends where it did, and the own link is between the own node and the port.
pub fn splits_keep_channels()
    ensures { SplitsKeepChannels }
{}

/// Each flow that is neither of commands that the target answers nor of the replies to such stays as it is, and where it is well routed its
/// packets go over the channels that they went over before.
pub fn splits_keep_other_flows()
    ensures { SplitsKeepOtherFlows }
{}

/// Commands that come to the node by its port go over the same channels up to its switch, and then over the own link to the own node.
pub fn splits_move_commands()
    ensures { SplitsMoveCommands }
{}

/// The replies to commands that the target answers come from the own node over the own link, and then go over the same channels.
pub fn splits_move_replies()
    ensures { SplitsMoveReplies }
{}

/// Where commands that the target answers are delivered before the split and behind it, they come to the node by its port.
pub fn delivered_come_by_port()
    ensures { DeliveredComeByPort }
{}

/// Where a split is told, all flows but those of the target's commands and of their replies stay as they are; the commands that are delivered go
/// over the same channels and at the end to the own node, and the replies from there over the same channels.
pub fn split_mends_in_words()
    ensures { SplitMendsInWords }
{}
