//! What holds of the counts of a summary. The functions do nothing: each is the proof of what its clause says.
ghost use Rattle.sw_summary.specs.Laws.{AllBegunIsDelivered, AllThatCameOutIsDelivered, AnsweredIsAtMostAsked, DeliveredIsAtMostBegun, DrainedIsDelivered, EachPacketCountsOnce, EachReplyCountsOnce, WholeIsDelivered};

/// Of no flow more is told as delivered than as begun, nor more as answered than it has commands that are answered.
pub fn no_flow_has_more_than_it_began()
    ensures delivered { DeliveredIsAtMostBegun }
    ensures answered { AnsweredIsAtMostAsked }
{}

/// What is told of all flows comes to how many packets came out that were begun, each packet at most as often as it was begun; so it
/// is with the replies and the commands that ask for them.
pub fn each_counts_once()
    ensures packets { EachPacketCountsOnce }
    ensures replies { EachReplyCountsOnce }
{}

/// Where nothing came out oftener than begun, all that came out of what was begun is told as delivered; so it is of all that came out
/// of a run of an accepted network that begins no replies.
pub fn all_that_came_out_is_delivered()
    ensures all { AllThatCameOutIsDelivered }
    ensures whole { WholeIsDelivered }
{}

/// Where all that was begun came out, of each flow as many packets are told as delivered as were begun; so it is of each run of an
/// accepted network that ends with nothing undelivered.
pub fn all_begun_is_delivered()
    ensures all { AllBegunIsDelivered }
    ensures drained { DrainedIsDelivered }
{}
