//! What holds of every wiring without fault. These functions do nothing: each is the proof of what its clause says.
ghost use Rattle.sw_topo.specs.Ports.{PortSetHasThePorts, PortsAreListed};
ghost use Rattle.sw_topo.specs.FirstFault.{FaultsInWords};
ghost use Rattle.sw_topo.specs.Limits.{AreTheLimits};
ghost use Rattle.sw_topo.specs.Laws.{NodesHaveOneLink, PortsHaveOneLink, SwitchesAreLinked, ChannelsArePaired, FirstIsLeast, NoFaultMeansFaultless};

/// The limits that the code and the definitions name are these numbers.
pub fn limits_are_these()
    ensures { AreTheLimits }
{}

/// Each node has one link.
pub fn nodes_have_one_link()
    ensures { NodesHaveOneLink }
{}

/// Each port has at most one link.
pub fn ports_have_one_link()
    ensures { PortsHaveOneLink }
{}

/// Each switch has a link.
pub fn switches_are_linked()
    ensures { SwitchesAreLinked }
{}

/// The two channels of a link are each other's partners.
pub fn channels_are_paired()
    ensures { ChannelsArePaired }
{}

/// The first number that passes is the least: so of several faults of one kind, that of the least link, node or switch is told.
pub fn first_is_least()
    ensures { FirstIsLeast }
{}

/// A wiring has no fault exactly where it is within the limits, at most one channel starts at each port, one at each node, and
/// some at each switch.
pub fn no_fault_means_faultless()
    ensures { NoFaultMeansFaultless }
{}

/// A wiring has the fault that is told, and none that would be told before it: a limit that is passed, a link with an end at a
/// port that an earlier end has, a node with no link or several, a switch with no link.
pub fn faults_in_words()
    ensures { FaultsInWords }
{}

/// The set of a list of port numbers has the ports that the list names, and no others.
pub fn port_set_has_the_ports()
    ensures { PortSetHasThePorts }
{}

/// A set's ports are listed in rising order, each of them once.
pub fn ports_are_listed()
    ensures { PortsAreListed }
{}
