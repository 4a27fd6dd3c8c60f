//! What the packet of a request is. The function does nothing: it is the proof of what its clause says.
ghost use Rattle.sw_app_rmap.specs.Laws.{PacketsAreAsked};

/// Each packet is one that its flow declares, and the target does what the words ask for.
pub fn packets_are_asked()
    ensures { PacketsAreAsked }
{}
