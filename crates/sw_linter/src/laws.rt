//! Laws of what is told. These functions do nothing: each is the proof of what its clause says.
ghost use Rattle.sw_linter.specs.AddressWords.{AddressesAreToldInWords};
ghost use Rattle.sw_linter.specs.InWords.{AllPlacesAreListed, ToldInWords};
ghost use Rattle.sw_linter.specs.Laws.{LintTextsAreDetermined, LintsAreDetermined, NoFlowsIsToldAlone, NotesAreDetermined};

/// What is told of a network is determined.
pub fn lints_are_determined()
    ensures { LintsAreDetermined }
{}

/// The texts of what is told of a network are determined, and so are the notes on it.
pub fn lint_texts_are_determined()
    ensures texts { LintTextsAreDetermined }
    ensures notes { NotesAreDetermined }
{}

/// That a network has no flows is told exactly where it has none, and then alone.
pub fn no_flows_is_told_alone()
    ensures { NoFlowsIsToldAlone }
{}

/// The list of all places has the places of all flows, and no others.
pub fn all_places_are_listed()
    ensures { AllPlacesAreListed }
{}

/// In words of packets: when a switch and an entry are used, when a group leads back, and when a link is between two targets of which one
/// may make commands wait.
pub fn told_in_words()
    ensures { ToldInWords }
{}

/// In words of packets and of nodes: when packets come to a target with another address, when replies go to an address that the flow's node
/// isn't known to have, and when the replies of two flows between the same nodes go to different addresses.
pub fn addresses_are_told_in_words()
    ensures { AddressesAreToldInWords }
{}
