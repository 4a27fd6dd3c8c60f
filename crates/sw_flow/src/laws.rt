//! Laws of the definitions. These functions do nothing: each is the proof of its clause.
ghost use Rattle.sw_flow.specs.Laws.{PlacesAreIn, FollowersAreListed, FollowersArePlaces, PlacesAreLeast, FaultsInWords, FaultlessGoOn, WellRoutedByList};

/// A place is on one of the network's channels, with at most all address bytes deleted.
pub fn places_are_in()
    ensures { PlacesAreIn }
{}

/// The list of what follows a place has the places that follow it, and no others.
pub fn followers_are_listed()
    ensures { FollowersAreListed }
{}

/// What follows a place is a place.
pub fn followers_are_places()
    ensures { FollowersArePlaces }
{}

/// The places are the least set with the flow's start that is closed under its steps.
pub fn places_are_least()
    ensures { PlacesAreLeast }
{}

/// What each fault of a place says.
pub fn faults_in_words()
    ensures { FaultsInWords }
{}

/// A place without a fault is rightly at the flow's end, or some place follows it.
pub fn faultless_go_on()
    ensures { FaultlessGoOn }
{}

/// A flow is well routed exactly where the list of its places has no faulty one.
pub fn well_routed_by_list()
    ensures { WellRoutedByList }
{}
