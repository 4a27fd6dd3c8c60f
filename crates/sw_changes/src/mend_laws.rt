//! Laws of the definitions. Such a function does nothing: it is the proof of its clause.
ghost use Rattle.sw_changes.specs.MendLaws.{MendHasOneAnswer, MendingsAreDetermined};

use sw_mend::laws::{mends_are_determined, pairs_are_determined, unit_mends_are_determined};
use sw_mend::limiting_laws::limitings_are_the_first_that_free;
use sw_search::laws::verdicts_are_determined;

/// What is found of a network is determined, with pairs asked for or not: its kind, and the flow with its place and fault, or the changes.
pub fn mendings_are_determined()
    ensures { MendingsAreDetermined }
{
    limitings_are_the_first_that_free();
    mends_are_determined();
    unit_mends_are_determined();
    pairs_are_determined();
    verdicts_are_determined();
}

/// `mend` has one answer for each file, with pairs asked for or not: its text and its status.
pub fn mend_has_one_answer()
    ensures { MendHasOneAnswer }
{
    mendings_are_determined();
}
