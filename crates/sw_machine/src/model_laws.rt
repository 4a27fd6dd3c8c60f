//! What holds of the machine's network of a declared network. These functions do nothing: each is the proof of what its clause says.
ghost use Rattle.sw_machine.specs.ModelLaws.{AcceptedIsFreeByAnyProtocol, AlwaysTakesAgrees, DeclaredNetworksAreNetworks, DeclaredPacketsAgree, DeclaredPacketsPass, LooksAgree, MemoriesKeepTheirLength, NetworksByProtocolsAreNetworks, StepsOfFlowsAgree, WithoutOutstandingNoLimits};

/// Each valid network is one of the machine's.
pub fn declared_networks_are_networks()
    ensures { DeclaredNetworksAreNetworks }
{}

/// Whatever protocol the nodes of a valid network speak, as long as what they answer fits, it is one of the
/// machine's, and what an accepted certificate shows of it holds. Of RMAP that is all that matters.
pub fn any_protocol_is_free()
    ensures networks { NetworksByProtocolsAreNetworks }
    ensures free { AcceptedIsFreeByAnyProtocol }
{}

/// Each flow of a valid network has the same steps, places and faults in the machine.
pub fn steps_of_flows_agree()
    ensures { StepsOfFlowsAgree }
{}

/// Each byte, of an address or of a cargo, names the same channels at a switch as by its routes.
pub fn looks_agree()
    ensures { LooksAgree }
{}

/// A node always takes what comes by its declaration exactly where it does in the machine.
pub fn always_takes_agrees()
    ensures { AlwaysTakesAgrees }
{}

/// Where no node and no flow of a valid network has a limit on unanswered commands, no node has one in the machine.
pub fn without_outstanding_no_limits()
    ensures { WithoutOutstandingNoLimits }
{}

/// In each state that a declared network reaches, each target's memory has as many bytes as its
/// window: no command, whatever its bytes, makes it longer or shorter.
pub fn memories_keep_their_length()
    ensures { MemoriesKeepTheirLength }
{}

/// The test for declared packets passes for these alone.
pub fn declared_packets_pass()
    ensures { DeclaredPacketsPass }
{}

/// A flow declares the same packets by its entry and in the machine.
pub fn declared_packets_agree()
    ensures { DeclaredPacketsAgree }
{}
