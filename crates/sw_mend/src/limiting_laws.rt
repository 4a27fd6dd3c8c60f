//! What holds of the limits and the slots that free a network. The function does nothing: it is the proof of its clauses.
ghost use Rattle.sw_mend.specs.LimitingLaws.{GreaterLimitsDoNotFree, LimitingsAreDetermined, LimitingsFree, LimitingsKeepValid, SlotsAreForWant, WithSlotsNoneWaits};

/// What is told frees the network; no greater limit up to 8 does; slots are told beside a limit only where no limit does without them; with
/// these slots no node that has a limit makes others wait; what is told of a network is determined; and it leaves a valid network.
pub fn limitings_are_the_first_that_free()
    ensures free { LimitingsFree }
    ensures greatest { GreaterLimitsDoNotFree }
    ensures slots { SlotsAreForWant }
    ensures none_waits { WithSlotsNoneWaits }
    ensures determined { LimitingsAreDetermined }
    ensures valid { LimitingsKeepValid }
{}
