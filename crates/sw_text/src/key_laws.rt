//! What the search for unknown keys comes to.
ghost use Rattle.sw_text.specs.KeyLaws.{RefusesLeastUnknown};

/// A table passes where it has none but its keys, and else its least unknown key is the fault.
pub fn least_unknown_key_is_refused()
    ensures { RefusesLeastUnknown }
{}
