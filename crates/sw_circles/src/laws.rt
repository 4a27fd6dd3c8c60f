//! Laws of circles. These functions do nothing: each is the proof of what its clause says.
ghost use Rattle.sw_circles.specs.Laws.{ArrivesInWords, CirclesAreDetermined, CirclesAreWherePacketsComeBack, CirclesClose, CirclingsAreDetermined, ToldInWords};

/// Circles are told exactly of the flows whose packets can come back to a place.
pub fn circles_are_where_packets_come_back()
    ensures { CirclesAreWherePacketsComeBack }
{}

/// Over each circle that is told packets go from each channel to the next, and from the last to the first.
pub fn circles_close()
    ensures { CirclesClose }
{}

/// The circles of a flow are determined.
pub fn circles_are_determined()
    ensures { CirclesAreDetermined }
{}

/// Packets of a flow come to where it ends exactly where its places say so.
pub fn arrives_in_words()
    ensures { ArrivesInWords }
{}

/// Of a flow nothing is told exactly where its packets can't come back to a place, and come to where it ends.
pub fn told_in_words()
    ensures { ToldInWords }
{}

/// What is told of all flows is determined.
pub fn circlings_are_determined()
    ensures { CirclingsAreDetermined }
{}
