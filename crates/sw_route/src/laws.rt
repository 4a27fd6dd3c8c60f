//! What holds of every routing table and look. These functions do nothing: each is the proof of what its clause says.
ghost use Rattle.sw_route.specs.Looks.{OutputsStartAtTheSwitch};
ghost use Rattle.sw_route.specs.OutputLaws.{OutputsAreTheNamedChannels};
ghost use Rattle.sw_route.specs.TableLaws.{EntriesAnswer, OthersNameNoPort, OverlapsShareAnAddress};

/// Each address that an entry is for names the entry's ports, wherever it stands in the table.
pub fn entries_answer()
    ensures { EntriesAnswer }
{}

/// An address that no entry is for names no port.
pub fn others_name_no_port()
    ensures { OthersNameNoPort }
{}

/// Entries overlap where some address is of both.
pub fn overlaps_share_an_address()
    ensures { OverlapsShareAnAddress }
{}

/// Each channel that a look names starts at the switch, at a port that the look names.
pub fn outputs_start_at_the_switch()
    ensures { OutputsStartAtTheSwitch }
{}

/// In a wiring without fault a look names exactly the channels that start at the switch, at a port that it names.
pub fn outputs_are_the_named_channels()
    ensures { OutputsAreTheNamedChannels }
{}
