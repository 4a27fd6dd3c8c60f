//! Laws of the definitions. Such a function does nothing: it is the proof of its clause.
ghost use Rattle.sw_app.specs.Laws.{DecideHasOneAnswer, ReportHasOneAnswer, RouteHasOneAnswer};

/// `route` has one answer for each file and name: its text and its status.
pub fn route_has_one_answer()
    ensures { RouteHasOneAnswer }
{}

/// `decide` has one answer for each file: its text and its status.
pub fn decide_has_one_answer()
    ensures { DecideHasOneAnswer }
{}

/// `report` has one answer for each file: its text and its status.
pub fn report_has_one_answer()
    ensures { ReportHasOneAnswer }
{}
