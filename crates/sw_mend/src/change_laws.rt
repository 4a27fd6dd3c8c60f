//! What single changes leave, kind by kind, and what several take away. These functions do nothing: each is the proof of what its clause says.
ghost use Rattle.sw_mend.specs.ChangeLaws.{ChangesCommute, ChangesTakeAway, FlowChangesInWords, OtherPortsStay, TableChangesInWords};

/// What each change of flows leaves: the flows without one of them, without those of a node, or without replies.
pub fn flow_changes_in_words()
    ensures { FlowChangesInWords }
{}

/// What each change of a routing table leaves: the table without an entry, or with an entry that names a port less.
pub fn table_changes_in_words()
    ensures { TableChangesInWords }
{}

/// A set of ports without one of them has the others.
pub fn other_ports_stay()
    ensures { OtherPortsStay }
{}

/// Whatever changes are made, nodes, links and switches stay, and of flows and tables nothing is added.
pub fn changes_take_away()
    ensures { ChangesTakeAway }
{}

/// Of two changes it does not matter which is made first.
pub fn changes_commute()
    ensures { ChangesCommute }
{}
