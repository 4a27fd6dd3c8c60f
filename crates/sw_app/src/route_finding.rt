//! What `route` finds, and its engine.
ghost use Rattle.std.specs.Prelude.{◌≡◌, IfOk, string_bytes, None};
ghost use Rattle.sw_engine.specs.Engines.{AnswersInForm, EndsByOne};
ghost use Rattle.sw_engine.specs.Files.{IsFileRead, network_of};
ghost use Rattle.sw_engine.specs.Tellings.{AnswersToFile, HoldsOfFound, IsFileTold};
ghost use Rattle.sw_app.specs.RouteAnswers.{IsRouteFinding, IsRouteOf, route_lines, route_status};
ghost use Rattle.sw_app.specs.RouteTexts.{outcome_status};

use crate::route_texts::route_text;
use std::alloc::{AllocError, Global};
use std::io::{Read, Write};
use sw_config::Network;
use sw_engine::{AsLines, CommandEnd, Finding, Form, read_network_file, tell_found};
use sw_flow::{Place, RouteFault, first_fault, places};
use sw_text::statuses::{BAD, FAULTY, GOOD};

/// The places of a flow, and what is wrong with them.
#[derive(Drop)]
pub struct FlowRoute {
    /// The flow's number.
    pub flow: u16,
    /// Its places, in their order.
    pub places: Vec<Place>,
    /// The first of them that has a fault, and the fault.
    pub fault: Option<(Place, RouteFault)>,
}

/// What `route` finds of a network.
#[derive(Drop)]
pub enum RouteFinding {
    /// No flow has the name.
    UnknownFlow,
    /// The places of the flow of that name.
    Found(FlowRoute),
}

/// The status of what `route` finds of a flow: 1 where a place has a fault, else 0.
pub fn outcome_status(fault: &Option<(Place, RouteFault)>) -> u8
    ensures { result ≡ outcome_status fault.now }
{
    match fault {
        None => GOOD,
        Some(_) => BAD,
    }
}

impl Finding for RouteFinding {
    ghost is_of = { IsRouteOf };

    ghost status_of = { route_status };

    fn status(&self) -> u8 {
        match self {
            RouteFinding::UnknownFlow => FAULTY,
            RouteFinding::Found(route) => outcome_status(&route.fault),
        }
    }
}

impl AsLines for RouteFinding {
    ghost lines_of = { route_lines };

    fn lines(&self, alloc: Global, network: &Network) -> Result<Vec<u8>, AllocError> {
        let text = self.text(alloc, network)?;
        Ok(text.into_bytes())
    }
}

impl RouteFinding {
    /// The flow with its places, or that no flow has the name.
    fn text(&self, alloc: Global, network: &Network) -> Result<String, AllocError>
        requires { IsRouteOf network.now self.now }
        ensures { IfOk result (λ text. string_bytes text ≡ route_lines network.now self.now) }
    {
        match self {
            RouteFinding::UnknownFlow => {
                String::from_str(alloc, "fault F7 UnknownName argument\n")
            }
            RouteFinding::Found(route) => {
                route_text(alloc, network, route.flow, &route.places, route.fault)
            }
        }
    }
}

/// What is found of a network.
fn find(alloc: Global, network: &Network, name: &str) -> Result<RouteFinding, AllocError>
    ensures { IfOk result (IsRouteFinding name.now network.now) }
{
    let Some(flow) = network.flow_named(name) else {
        return Ok(RouteFinding::UnknownFlow);
    };
    let places = places(alloc, network, flow)?;
    let fault = first_fault(network, flow, &places);
    Ok(RouteFinding::Found(FlowRoute {
        flow,
        places,
        fault,
    }))
}

/// The places of a flow of a network file, in this form: 0 where packets arrive rightly, and 1 where a place has a fault.
///
/// `flow` is the name of a declared flow, or that of its replies. Where no flow has the name, that is told, with status 3.
pub fn route<R: Read, F: Form<RouteFinding>, W: Write>(
    alloc: Global,
    reader: &mut R,
    flow: &str,
    form: &F,
    writer: &mut W,
) -> CommandEnd<RouteFinding>
    ensures ended { EndsByOne F.memory (AnswersInForm (IsRouteFinding flow.now) (F.tells form.now None) (F.faulty form.now None) (F.long form.now None)) (R.remaining reader.old) (R.remaining reader.new) (W.contents writer.old) (W.contents writer.new) result.ended }
    ensures read { IsFileRead (R.remaining reader.old) (R.remaining reader.new) result.file }
    ensures found { HoldsOfFound (IsRouteFinding flow.now) (network_of result.file) result.found }
    ensures told { IsFileTold F.memory (AnswersToFile (F.tells form.now None) (F.faulty form.now None) (F.long form.now None) result.file result.found) result.file (W.contents writer.old) (W.contents writer.new) result.ended }
{
    let file = read_network_file(alloc, reader);
    let found = match file.network() {
        Some(network) => Some(find(alloc, network, flow)),
        None => None,
    };
    tell_found(alloc, file, None, found, form, writer)
}
