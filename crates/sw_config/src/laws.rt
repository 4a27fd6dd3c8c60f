//! Laws of the flows of each network: these functions do nothing, and each is the proof of its clause.
ghost use Rattle.sw_config.specs.Laws.{RepliesFollowInOrder, LaterFlowsAreReplies, FlowsAreValid, NamesAreDistinct};

/// The number of each declared flow's reply flow.
pub fn replies_follow_in_order()
    ensures { RepliesFollowInOrder }
{}

/// What the flows are that were not declared.
pub fn later_flows_are_replies()
    ensures { LaterFlowsAreReplies }
{}

/// All flows are in their ranges.
pub fn flows_are_valid()
    ensures { FlowsAreValid }
{}

/// Names of flows differ.
pub fn names_are_distinct()
    ensures { NamesAreDistinct }
{}
