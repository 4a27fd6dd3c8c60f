//! The answers of `route`, `report` and `check` as values of JSON.
ghost use Rattle.std.specs.Prelude.{codes};
ghost use Rattle.sw_json_verdicts.specs.CheckResults.{check_has_status, check_results};
ghost use Rattle.sw_json_verdicts.specs.ReportResults.{report_results};
ghost use Rattle.sw_json_verdicts.specs.RouteResults.{route_has_status, route_results};

use crate::check_values::check_outcome;
use crate::report_values::report_outcome;
use crate::route_values::route_outcome;
use std::alloc::{AllocError, Global};
use sw_app::{CheckFinding, ReportFinding, RouteFinding};
use sw_config::Network;
use sw_json::{CommandOutcome, SecondFile, Values};

/// How what is found by `route`, `report` and `check` is told as values of JSON.
#[derive(Clone, Copy)]
pub struct VerdictValues;

impl Values<RouteFinding> for VerdictValues {
    ghost command = { codes "route" };

    ghost results_of = { λ path _ _ d found. route_results path d found };

    fn command(&self) -> &'static str {
        "route"
    }

    fn outcome(
        &self,
        alloc: Global,
        path: &str,
        _second: SecondFile<'_>,
        network: &Network,
        found: &RouteFinding,
    ) -> Result<CommandOutcome, AllocError> {
        route_outcome(alloc, path, network, found)
    }

    ghost result_has_status = { λ path _ _ d found. route_has_status path d found };
}

impl Values<ReportFinding> for VerdictValues {
    ghost command = { codes "report" };

    ghost results_of = { λ _ _ _ d found. report_results d found.findings };

    fn command(&self) -> &'static str {
        "report"
    }

    fn outcome(
        &self,
        alloc: Global,
        _path: &str,
        _second: SecondFile<'_>,
        network: &Network,
        found: &ReportFinding,
    ) -> Result<CommandOutcome, AllocError> {
        report_outcome(alloc, network, &found.findings)
    }

    ghost result_has_status = { λ _ _ _ _ _ _ _ is. is.2.1 };
}

impl Values<CheckFinding> for VerdictValues {
    ghost command = { codes "check" };

    ghost results_of = { λ _ other _ d found. check_results other d found };

    fn command(&self) -> &'static str {
        "check"
    }

    fn outcome(
        &self,
        alloc: Global,
        _path: &str,
        second: SecondFile<'_>,
        network: &Network,
        found: &CheckFinding,
    ) -> Result<CommandOutcome, AllocError> {
        check_outcome(alloc, second, network, found)
    }

    ghost result_has_status = { λ _ other _ d found. check_has_status other d found };
}
