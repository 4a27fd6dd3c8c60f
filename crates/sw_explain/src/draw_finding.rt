//! What `draw` finds, and its engine.
ghost use Rattle.std.specs.Prelude.{◌≡◌, IfOk, string_bytes, None};
ghost use Rattle.sw_engine.specs.Engines.{AnswersInForm, EndsByOne};
ghost use Rattle.sw_engine.specs.Files.{IsFileRead, network_of};
ghost use Rattle.sw_engine.specs.Tellings.{AnswersToFile, HoldsOfFound, IsFileTold};
ghost use Rattle.sw_explain.specs.DrawAnswers.{IsDrawFinding, IsDrawnWith, draw_lines, draw_status};
ghost use Rattle.sw_explain.specs.Drawings.{AreNumbersDrawn, IsCycleDrawn, first_cycle, numbers_of};

use crate::dot_text::draw_text;
use crate::draw_options::DrawOptions;
use std::alloc::{AllocError, Global};
use std::io::{Read, Write};
use sw_config::Network;
use sw_engine::{AsLines, CommandEnd, Finding, Form, read_network_file, tell_found};
use sw_flow::{Place, all_places, places};
use sw_search::{Tangle, Verdict, VerdictWorkers, decide, tangles};
use sw_text::statuses::{FAULTY, GOOD};
use sw_topo::Chan;

/// What is drawn over the parts of a network, each empty where it is not drawn.
#[derive(Drop)]
pub struct Drawing {
    /// The places of a flow.
    pub places: Vec<Place>,
    /// The channels of a cycle, in its order.
    pub cycle: Vec<Chan>,
    /// The number of each channel.
    pub numbers: Vec<u16>,
}

/// What `draw` finds of a network.
#[derive(Drop)]
pub enum DrawFinding {
    /// No flow has the name of the flow that is to be drawn.
    UnknownFlow,
    /// What is to be drawn.
    Drawn(Drawing),
}

impl Finding for DrawFinding {
    ghost is_of = { λ _ _. Unit {0} };

    ghost status_of = { draw_status };

    fn status(&self) -> u8 {
        match self {
            DrawFinding::UnknownFlow => FAULTY,
            DrawFinding::Drawn(_) => GOOD,
        }
    }
}

impl AsLines for DrawFinding {
    ghost lines_of = { draw_lines };

    fn lines(&self, alloc: Global, network: &Network) -> Result<Vec<u8>, AllocError> {
        let text = self.text(alloc, network)?;
        Ok(text.into_bytes())
    }
}

impl DrawFinding {
    /// The drawing, or that no flow has the name.
    fn text(&self, alloc: Global, network: &Network) -> Result<String, AllocError>
        ensures { IfOk result (λ text. string_bytes text ≡ draw_lines network.now self.now) }
    {
        match self {
            DrawFinding::UnknownFlow => {
                String::from_str(alloc, "fault F7 UnknownName argument\n")
            }
            DrawFinding::Drawn(
                Drawing {
                    places,
                    cycle,
                    numbers,
                },
            ) => draw_text(alloc, network, places, cycle, numbers),
        }
    }
}

/// The shortest cycle of the first tangle.
fn first_cycle(tangles: &[Tangle]) -> &[Chan]
    ensures { result.now ≡ first_cycle tangles.now }
{
    match tangles {
        [] => &[],
        [first, ..] => &first.cycle.channels,
    }
}

/// The numbers of the verdict's certificate, where there is one.
fn numbers_of(verdict: &Verdict) -> &[u16]
    ensures { result.now ≡ numbers_of verdict.now }
{
    match verdict {
        Verdict::Free(certificate) => certificate.numbers(),
        Verdict::Misrouted(_, _, _) | Verdict::Cyclic(_) => &[],
    }
}

/// The cycle that is drawn, if one is asked for.
fn cycle_drawn<T: VerdictWorkers>(
    workers: &T,
    alloc: Global,
    network: &Network,
    asked: bool,
) -> Result<Vec<Chan>, AllocError>
    ensures { IfOk result (λ cycle. IsCycleDrawn network.now asked cycle.items) }
{
    if !asked {
        return Ok(Vec::new(alloc));
    }
    let all = all_places(workers, alloc, network)?;
    let tangles = tangles(workers, alloc, network, &all)?;
    first_cycle(&tangles).to_vec(alloc)
}

/// The numbers that are drawn, if they are asked for. A cycle shows already that there are none.
fn numbers_drawn<T: VerdictWorkers>(
    workers: &T,
    alloc: Global,
    network: &Network,
    options: &DrawOptions<'_>,
    cycle: &[Chan],
) -> Result<Vec<u16>, AllocError>
    requires { IsCycleDrawn network.now options.now.cycle cycle.now }
    ensures { IfOk result (λ numbers. AreNumbersDrawn network.now options.now.numbers numbers.items) }
{
    if !options.numbers {
        return Ok(Vec::new(alloc));
    }
    let count = cycle.len();
    if count > 0 {
        return Ok(Vec::new(alloc));
    }
    let verdict = decide(workers, alloc, network)?;
    numbers_of(&verdict).to_vec(alloc)
}

/// With these places of a flow, and what else is asked for.
fn drawn_with<T: VerdictWorkers>(
    workers: &T,
    alloc: Global,
    network: &Network,
    options: &DrawOptions<'_>,
    places: Vec<Place>,
) -> Result<DrawFinding, AllocError>
    ensures { IfOk result (IsDrawnWith options.now network.now places.items) }
{
    let cycle = cycle_drawn(workers, alloc, network, options.cycle)?;
    let numbers = numbers_drawn(workers, alloc, network, options, &cycle)?;
    Ok(DrawFinding::Drawn(Drawing {
        places,
        cycle,
        numbers,
    }))
}

/// What is found of a network.
fn find<T: VerdictWorkers>(
    workers: &T,
    alloc: Global,
    network: &Network,
    options: &DrawOptions<'_>,
) -> Result<DrawFinding, AllocError>
    ensures { IfOk result (IsDrawFinding options.now network.now) }
{
    let Some(name) = options.flow else {
        return drawn_with(workers, alloc, network, options, Vec::new(alloc));
    };
    let Some(number) = network.flow_named(name) else {
        return Ok(DrawFinding::UnknownFlow);
    };
    let places = places(alloc, network, number)?;
    drawn_with(workers, alloc, network, options, places)
}

/// The network of a file in DOT, for Graphviz, with status 0 whatever the verdict on it: nodes as boxes, targets with two lines round them,
/// switches as records of their ports, and an edge for each channel. The workers share the work.
///
/// Where `flow` names no flow, that is told, with status 3.
pub fn draw<T: VerdictWorkers, R: Read, F: Form<DrawFinding>, W: Write>(
    workers: &T,
    alloc: Global,
    reader: &mut R,
    options: &DrawOptions<'_>,
    form: &F,
    writer: &mut W,
) -> CommandEnd<DrawFinding>
    ensures ended { EndsByOne F.memory (AnswersInForm (IsDrawFinding options.now) (F.tells form.now None) (F.faulty form.now None) (F.long form.now None)) (R.remaining reader.old) (R.remaining reader.new) (W.contents writer.old) (W.contents writer.new) result.ended }
    ensures read { IsFileRead (R.remaining reader.old) (R.remaining reader.new) result.file }
    ensures found { HoldsOfFound (IsDrawFinding options.now) (network_of result.file) result.found }
    ensures told { IsFileTold F.memory (AnswersToFile (F.tells form.now None) (F.faulty form.now None) (F.long form.now None) result.file result.found) result.file (W.contents writer.old) (W.contents writer.new) result.ended }
{
    let file = read_network_file(alloc, reader);
    let found = match file.network() {
        Some(network) => Some(find(workers, alloc, network, options)),
        None => None,
    };
    tell_found(alloc, file, None, found, form, writer)
}
