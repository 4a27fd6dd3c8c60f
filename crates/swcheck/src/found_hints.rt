//! What is told of what a call found, for standard error. It decides nothing.
ghost use Rattle.std.specs.Prelude.{◌<◌, length};
ghost use Rattle.sw_config.specs.Entries.{all_flows};

use crate::call_end::hint_text;
use crate::notes::MOST_NOTED;
use std::alloc::{AllocError, Global};
use sw_app::{CheckFinding, DecideFinding, FlowRoute, ReportFinding, RouteFinding};
use sw_app_rmap::{Request, RmapFinding};
use sw_calls::{Hints, Telling};
use sw_changes::Mending;
use sw_config::Network;
use sw_engine::{CommandEnd, NetworkFile};
use sw_explain::DrawFinding;
use sw_flow::{Chan, Place, RouteFault, fault_at, first_fault, places};
use sw_hints::{
    certificate_line_hint, cyclic_hint, load_hint, lock_up_hint, misrouted_hint,
    refused_certificate_hint, refused_step_hint, rmap_fault_hint, schedule_line_hint,
    unknown_flow_hint,
};
use sw_runs::{ReplayFinding, ReplayReport, RunFinding, WitnessFinding};
use sw_schedule::ReplayEnd;
use sw_search::{Explanation, Tangle, Verdict, VerdictWorkers, explain};

/// The hint of a flow that has this fault at this place, of a file of this name and text.
fn misrouted_text(
    alloc: Global,
    file: (&str, &[u8]),
    network: &Network,
    flow: u16,
    place: &Place,
    fault: RouteFault,
) -> Result<Option<String>, AllocError> {
    let (name, text) = file;
    let hint = misrouted_hint(alloc, network, text, flow, place, fault);
    hint_text(alloc, name, hint)
}

/// The same, if the flow has a fault.
fn first_misrouted_text(
    alloc: Global,
    file: (&str, &[u8]),
    network: &Network,
    flow: u16,
) -> Result<Option<String>, AllocError>
    requires { flow < length (all_flows network.now) }
{
    let places = places(alloc, network, flow)?;
    match first_fault(network, flow, &places) {
        Some((place, fault)) => misrouted_text(alloc, file, network, flow, &place, fault),
        None => Ok(None),
    }
}

/// The hints of the flows behind this one that have a fault.
fn later_misrouted_texts(
    alloc: Global,
    file: (&str, &[u8]),
    network: &Network,
    flow: u16,
) -> Result<String, AllocError> {
    let mut told = String::new(alloc);
    for later in flow.saturating_add(1)..network.flows() {
        if let Some(text) = first_misrouted_text(alloc, file, network, later)? {
            told.push_str(text.as_str())?;
        }
    }
    Ok(told)
}

/// The hint of a flow that has this fault at this place, and those of the flows behind it where all are wanted.
fn misrouted_texts(
    alloc: Global,
    telling: Telling,
    file: (&str, &[u8]),
    network: &Network,
    flow: u16,
    place: &Place,
    fault: RouteFault,
) -> Result<Option<String>, AllocError> {
    let first = misrouted_text(alloc, file, network, flow, place, fault)?;
    if !telling.all_faults {
        return Ok(first);
    }
    let mut told = first.unwrap_or(String::new(alloc));
    told.push_str(later_misrouted_texts(alloc, file, network, flow)?.as_str())?;
    Ok(Some(told))
}

/// The hints of the places of a route that have a fault: of the first one alone, or of all where all are wanted.
fn route_texts(
    alloc: Global,
    telling: Telling,
    file: (&str, &[u8]),
    network: &Network,
    route: &FlowRoute,
) -> Result<Option<String>, AllocError> {
    let mut told = String::new(alloc);
    for place in &route.places {
        if let Some(fault) = place_fault(network, route.flow, *place)
            && let Some(text) = misrouted_text(alloc, file, network, route.flow, place, fault)?
        {
            told.push_str(text.as_str())?;
            if !telling.all_faults {
                break;
            }
        }
    }
    Ok(Some(told))
}

/// What is wrong with a place of the flow, if it is a flow of the network.
fn place_fault(network: &Network, flow: u16, place: Place) -> Option<RouteFault> {
    if flow < network.flows() {
        fault_at(network, flow, place)
    } else {
        None
    }
}

/// The hint of a name that no flow has.
fn unknown_flow_text(
    alloc: Global,
    name: &str,
    network: &Network,
    flow: &str,
) -> Result<Option<String>, AllocError> {
    hint_text(alloc, name, unknown_flow_hint(alloc, network, flow))
}

/// What to tell of a route of a flow of this name.
pub(crate) fn route_hint(
    alloc: Global,
    telling: Telling,
    file: (&str, &[u8]),
    flow: &str,
    network: &Network,
    found: &RouteFinding,
) -> Result<Option<String>, AllocError> {
    match found {
        RouteFinding::UnknownFlow => unknown_flow_text(alloc, file.0, network, flow),
        RouteFinding::Found(route) => route_texts(alloc, telling, file, network, route),
    }
}

/// The first of the tangles whose cycle is no longer than the others'.
pub(crate) fn shortest_of(tangles: &[Tangle]) -> Option<&Tangle> {
    let mut shortest: Option<&Tangle> = None;
    for tangle in tangles {
        match shortest {
            Some(known) if known.cycle.channels.len() <= tangle.cycle.channels.len() => {}
            _ => shortest = Some(tangle),
        }
    }
    shortest
}

/// The channels of the shortest cycle of a network on which there is this verdict, if it can lock up.
fn cycle_of<C: VerdictWorkers>(
    workers: &C,
    alloc: Global,
    network: &Network,
    verdict: &Verdict,
) -> Result<Option<Vec<Chan>>, AllocError> {
    let Verdict::Cyclic(_) = verdict else {
        return Ok(None);
    };
    let Explanation::Cyclic(tangles) = explain(workers, alloc, network)? else {
        return Ok(None);
    };
    match shortest_of(&tangles) {
        Some(tangle) => Ok(Some(Vec::from_slice(alloc, &tangle.cycle.channels)?)),
        None => Ok(None),
    }
}

/// The same for the hint of a call that ended so. None where its file's text is so long that finding it would take too long, or no hints are wanted.
pub(crate) fn hinted_cycle<C: VerdictWorkers>(
    workers: &C,
    alloc: Global,
    telling: Telling,
    end: &CommandEnd<DecideFinding>,
) -> Result<Option<Vec<Chan>>, AllocError> {
    match (telling.hints, &end.file, &end.found) {
        (Hints::Auto, NetworkFile::Network { text, network }, Some(Ok(found)))
            if text.len() <= MOST_NOTED => { cycle_of(workers, alloc, network, &found.verdict) }
        _ => Ok(None),
    }
}

/// The hint of a network that can lock up, whose shortest cycle may be known. None where there was no memory to find it.
fn cyclic_text(
    alloc: Global,
    network: &Network,
    cycle: &Result<Option<Vec<Chan>>, AllocError>,
) -> Result<Option<String>, AllocError> {
    match cycle {
        Ok(cycle) => hint_text(alloc, "help", cyclic_hint(alloc, network, cycle.as_deref())),
        Err(_) => Ok(None),
    }
}

/// What to tell of the verdict on a network, whose shortest cycle may be known.
pub(crate) fn decide_hint(
    alloc: Global,
    telling: Telling,
    file: (&str, &[u8]),
    network: &Network,
    found: &DecideFinding,
    cycle: &Result<Option<Vec<Chan>>, AllocError>,
) -> Result<Option<String>, AllocError> {
    match &found.verdict {
        Verdict::Misrouted(flow, place, fault) => {
            misrouted_texts(alloc, telling, file, network, *flow, place, *fault)
        }
        Verdict::Cyclic(_) => cyclic_text(alloc, network, cycle),
        Verdict::Free(_) => Ok(None),
    }
}

/// What to tell of a report: of a misrouted network the flows behind the first that are, where all are wanted.
pub(crate) fn report_hint(
    alloc: Global,
    telling: Telling,
    file: (&str, &[u8]),
    network: &Network,
    found: &ReportFinding,
) -> Result<Option<String>, AllocError> {
    match &found.findings.verdict {
        Verdict::Misrouted(flow, _, _) if telling.all_faults => {
            Ok(Some(later_misrouted_texts(alloc, file, network, *flow)?))
        }
        _ => Ok(None),
    }
}

/// What to tell of a drawing, in which a flow of this name may be asked for.
pub(crate) fn draw_hint(
    alloc: Global,
    name: &str,
    flow: Option<&str>,
    network: &Network,
    found: &DrawFinding,
) -> Result<Option<String>, AllocError> {
    match (found, flow) {
        (DrawFinding::UnknownFlow, Some(flow)) => unknown_flow_text(alloc, name, network, flow),
        _ => Ok(None),
    }
}

/// What to tell of an RMAP command that was asked for.
pub(crate) fn rmap_hint(
    alloc: Global,
    file: (&str, &[u8]),
    request: &Request<'_>,
    network: &Network,
    found: &RmapFinding,
) -> Result<Option<String>, AllocError> {
    match found {
        RmapFinding::Fault(fault) => {
            let hint = rmap_fault_hint(alloc, network, file.1, request, *fault);
            hint_text(alloc, file.0, hint)
        }
        RmapFinding::Entry(_) => Ok(None),
    }
}

/// What to tell of what frees a network.
pub(crate) fn mend_hint(
    alloc: Global,
    file: (&str, &[u8]),
    network: &Network,
    found: &Mending,
) -> Result<Option<String>, AllocError> {
    match found {
        Mending::Misrouted(flow, place, fault) => {
            misrouted_text(alloc, file, network, *flow, place, *fault)
        }
        _ => Ok(None),
    }
}

/// What to tell of a search for a lock-up.
pub(crate) fn witness_hint(
    alloc: Global,
    file: (&str, &[u8]),
    network: &Network,
    found: &WitnessFinding,
) -> Result<Option<String>, AllocError> {
    match found {
        WitnessFinding::Misrouted(flow, place, fault) => {
            misrouted_text(alloc, file, network, *flow, place, *fault)
        }
        _ => Ok(None),
    }
}

/// What to tell of the check of a certificate with this text, by the paths of both files.
pub(crate) fn check_hint(
    alloc: Global,
    paths: (&str, &str),
    network: &Network,
    text: Option<&[u8]>,
    found: &CheckFinding,
) -> Result<Option<String>, AllocError> {
    match (found, text) {
        (CheckFinding::Refused(certificate, refusal), _) => {
            let hint = refused_certificate_hint(alloc, network, paths.0, certificate, *refusal);
            hint_text(alloc, paths.1, hint)
        }
        (CheckFinding::WrongLine(line), Some(text)) => {
            hint_text(alloc, paths.1, certificate_line_hint(alloc, text, *line))
        }
        _ => Ok(None),
    }
}

/// What to tell of a replay: of the step that was refused, or of a network that is locked up.
fn replayed_hint(
    alloc: Global,
    path: &str,
    network: &Network,
    text: &[u8],
    report: &ReplayReport,
) -> Result<Option<String>, AllocError> {
    let schedule = &report.schedule;
    match (report.replayed.outcome, &report.parts) {
        (ReplayEnd::Refused(number, refusal), _) => {
            let hint = refused_step_hint(alloc, network, text, schedule, number, refusal);
            hint_text(alloc, path, hint)
        }
        (_, Some(parts)) => hint_text(alloc, path, lock_up_hint(alloc, network, parts)),
        _ => Ok(None),
    }
}

/// What to tell of a schedule with this text, in the file of this path.
pub(crate) fn replay_hint(
    alloc: Global,
    path: &str,
    network: &Network,
    text: Option<&[u8]>,
    found: &ReplayFinding,
) -> Result<Option<String>, AllocError> {
    match (found, text) {
        (ReplayFinding::WrongLine(line), Some(text)) => {
            hint_text(alloc, path, schedule_line_hint(alloc, network, text, *line))
        }
        (ReplayFinding::Replayed(report), Some(text)) => {
            replayed_hint(alloc, path, network, text, report)
        }
        _ => Ok(None),
    }
}

/// What to tell of a load with this text, in the file of this path.
pub(crate) fn run_hint(
    alloc: Global,
    path: &str,
    network: &Network,
    text: Option<&[u8]>,
    found: &RunFinding,
) -> Result<Option<String>, AllocError> {
    match (found, text) {
        (RunFinding::Faulty(fault), Some(text)) => {
            hint_text(alloc, path, load_hint(alloc, network, text, fault))
        }
        _ => Ok(None),
    }
}
