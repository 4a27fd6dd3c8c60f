//! Laws of the definitions. Such a function does nothing: it is the proof of its clause.
ghost use Rattle.sw_json.specs.Laws.{MemoryReadsBack};
ghost use Rattle.sw_json_verdicts.specs.Laws.{CheckHasOneAnswer, HaveStatusesOfTexts, ReportHasOneAnswer, RouteHasOneAnswer};
ghost use Rattle.sw_json_verdicts.specs.Plain.{RefusalsArePlain, ReportsArePlain, RoutesArePlain};

use sw_json::laws::{places_are_plain, verdicts_are_plain};

/// `route` has one answer for each file, path and name: its status, and but for faults its text.
pub fn route_has_one_answer()
    ensures { RouteHasOneAnswer }
{}

/// `check` has one answer for each two files and paths: its status, and but for faults its text.
pub fn check_has_one_answer()
    ensures { CheckHasOneAnswer }
{}

/// `report` has one answer for each file and path: its status, and but for faults its text.
pub fn report_has_one_answer()
    ensures { ReportHasOneAnswer }
{}

/// The status of each answer is that of the text answer to the same files.
pub fn statuses_are_those_of_texts()
    ensures { HaveStatusesOfTexts }
{}

/// The result of `route` has a text that reads back.
pub fn routes_are_plain()
    ensures { RoutesArePlain }
{
    places_are_plain();
}

/// So has that of a refused certificate.
pub fn refusals_are_plain()
    ensures { RefusalsArePlain }
{}

/// So has that of `report`.
pub fn reports_are_plain()
    ensures { ReportsArePlain }
{
    verdicts_are_plain();
}
