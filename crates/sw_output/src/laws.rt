//! What holds of tallies. The function does nothing: it is the proof of what its clause says.
ghost use Rattle.sw_output.specs.Tallies.{TalliesCount};

/// The tallies of a list tell of its packets and of no others, each once, in rising order, and how
/// often it is in the list.
pub fn tallies_count()
    ensures { TalliesCount }
{}
