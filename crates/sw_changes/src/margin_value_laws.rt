//! Laws of `margin`'s answers. The functions do nothing: each is the proof of what its clause says.
ghost use Rattle.sw_changes.specs.MarginValueLaws.{MarginHasOneAnswer, MarginHasStatusOfText, MarginsArePlain};

use sw_margin::laws::{
    answers_are_determined, flow_limits_are_determined, losses_are_determined,
    stalls_are_determined,
};
use sw_search::laws::verdicts_are_determined;

/// The value of what a free network stands has a text that reads back.
pub fn margins_are_plain()
    ensures { MarginsArePlain }
{}

/// `margin` has one answer for each file and path: its status, and but for faults its text.
pub fn margin_has_one_answer()
    ensures { MarginHasOneAnswer }
{
    stalls_are_determined();
    answers_are_determined();
    flow_limits_are_determined();
    losses_are_determined();
    verdicts_are_determined();
}

/// Its status is that of the text answer to the same file.
pub fn margin_has_status_of_text()
    ensures { MarginHasStatusOfText }
{}
