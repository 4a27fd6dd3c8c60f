//! What reading a network file comes to, in each version, and what the rows of a migrated one are.
ghost use Rattle.sw_file.specs.Laws.{ReadsEachEntry, RefusesUnknownKeys, NetworksAreReadExactly, ReadNetworksAreValid, ReadNamesAreNames, VersionTwoIsKept, OlderFilesAreUnlimited, RowsAreLongest};

/// Each entry of a network that is read is what the table of its number declares.
pub fn each_entry_is_read()
    ensures { ReadsEachEntry }
{}

/// An unknown key anywhere in the document refuses the text.
pub fn unknown_keys_are_refused()
    ensures { RefusesUnknownKeys }
{}

/// A text is a network exactly where it is a document whose tables have known keys alone, with values
/// of their types in their ranges, names that differ and references to them, and whose parts are
/// rightly joined; and the network is the one that these tables say.
pub fn networks_are_read_exactly()
    ensures { NetworksAreReadExactly }
{}

/// A text that is a network gives a valid one: this follows from the reading alone.
pub fn read_networks_are_valid()
    ensures { ReadNetworksAreValid }
{}

/// The names of a network that is read are 1 to 32 letters, digits, `_`, `-` and `.`; so no two of all
/// its flows, the reply flows too, have one name.
pub fn read_names_are_names()
    ensures { ReadNamesAreNames }
{}

/// The document of a network file of version 2 declares the same network with the number 3 as its version.
pub fn version_two_is_kept()
    ensures { VersionTwoIsKept }
{}

/// The document of a network file of version 1 or 2 declares a network in which no node and no flow has a limit on its unanswered
/// commands, so no flow is limited.
pub fn older_files_are_unlimited()
    ensures { OlderFilesAreUnlimited }
{}

/// Rows are the longest.
pub fn rows_are_longest()
    ensures { RowsAreLongest }
{}
