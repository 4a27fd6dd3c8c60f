//! Laws of the definitions. Such a function does nothing: it is the proof of its clause.
ghost use Rattle.sw_changes.specs.MarginLaws.{MarginHasOneAnswer};

use sw_margin::laws::{
    answers_are_determined, flow_limits_are_determined, losses_are_determined,
    stalls_are_determined,
};
use sw_search::laws::verdicts_are_determined;

/// `margin` has one answer for each file: its text and its status.
pub fn margin_has_one_answer()
    ensures { MarginHasOneAnswer }
{
    stalls_are_determined();
    answers_are_determined();
    flow_limits_are_determined();
    losses_are_determined();
    verdicts_are_determined();
}
