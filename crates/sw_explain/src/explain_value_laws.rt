//! Laws of `explain`'s answers. The functions do nothing: each is the proof of what its clause says.
ghost use Rattle.sw_explain.specs.ExplainLaws.{ExplainHasOneAnswer, ExplainHasOneStatus, ExplainHasStatusOfText, ExplanationsArePlain, TargetsHaveNoFlows};

use sw_json::laws::places_are_plain;
use sw_search::explanation_laws::{explanations_are_of_the_verdict, tangles_are_where_cycles_are};

/// The values of what is told of a network have a text that reads back.
pub fn explanations_are_plain()
    ensures { ExplanationsArePlain }
{
    places_are_plain();
}

/// Of a file whose network has no flow that is not well routed, `explain` has one answer: its status and its text. Of a flow that is not,
/// any way may be told.
pub fn explain_has_one_answer()
    ensures { ExplainHasOneAnswer }
{
    explanations_are_of_the_verdict();
    tangles_are_where_cycles_are();
}

/// Any two answers of `explain` to a file have one status.
pub fn explain_has_one_status()
    ensures { ExplainHasOneStatus }
{
    explanations_are_of_the_verdict();
    tangles_are_where_cycles_are();
}

/// It is that of the text answer to the same file, with all flows of each step or not.
pub fn explain_has_status_of_text()
    ensures { ExplainHasStatusOfText }
{
    explanations_are_of_the_verdict();
    tangles_are_where_cycles_are();
}

/// Where a target makes a step of a tangle's cycle, no flow makes it.
pub fn targets_have_no_flows()
    ensures { TargetsHaveNoFlows }
{}
