//! What holds of the texts of a load, whatever the code.
ghost use Rattle.sw_load.specs.Cargo.{CargoIsRead};
ghost use Rattle.sw_load.specs.Laws.{ListedAreDeclared, ReadsEachEntry};

/// A cargo text is read as bytes exactly where it spells them.
pub fn cargo_is_read()
    ensures { CargoIsRead }
{}

/// Each entry of a load that is read is what the table of its number declares.
pub fn each_entry_is_read()
    ensures { ReadsEachEntry }
{}

/// The packets of a load that was read for a network are those that its flows declare.
pub fn listed_are_declared()
    ensures { ListedAreDeclared }
{}
