//! What `witness` finds, and its engine.
ghost use Rattle.std.specs.Prelude.{◌≡◌, IfOk, string_bytes, None};
ghost use Rattle.sw_engine.specs.Engines.{AnswersInForm, EndsByOne};
ghost use Rattle.sw_engine.specs.Files.{IsFileRead, network_of};
ghost use Rattle.sw_engine.specs.Tellings.{AnswersToFile, HoldsOfFound, IsFileTold};
ghost use Rattle.sw_search.specs.Explanations.{IsExplanation};
ghost use Rattle.sw_runs.specs.WitnessAnswers.{IsOfKind, IsOfTangled, IsSearched, IsWitnessFinding, unanswered_line, witness_lines, witness_status};

use crate::witness_texts::{none_found, with_note};
use std::alloc::{AllocError, Global};
use std::io::{Read, Write};
use sw_config::Network;
use sw_engine::{AsLines, CommandEnd, Finding, Form, read_network_file, tell_found};
use sw_explain::names_text;
use sw_flow::{Place, RouteFault};
use sw_output::misrouted_text;
use sw_search::{Explanation, Tangle, VerdictWorkers, explain};
use sw_text::statuses::{BAD, GOOD};
use sw_witness::{find as find_schedule, is_free_without, never_answered};

/// What `witness` finds of a network.
#[derive(Drop)]
pub enum WitnessFinding {
    /// The flow of this number is not well routed: it has this fault at this place.
    Misrouted(u16, Place, RouteFault),
    /// There is nothing to look for: the network is free.
    Free,
    /// There is nothing to look for: the replies of these flows can't happen, and the network is free without them.
    Unanswered(Vec<u16>),
    /// No lock-up was found by so many tries, which says nothing of the network.
    NoneFound(u32),
    /// The text of a schedule that leads the network into a lock-up.
    LockUp(String),
}

impl Finding for WitnessFinding {
    ghost is_of = { λ _ _. Unit {0} };

    ghost status_of = { witness_status };

    fn status(&self) -> u8 {
        match self {
            WitnessFinding::LockUp(_) => GOOD,
            WitnessFinding::Misrouted(_, _, _)
            | WitnessFinding::Free
            | WitnessFinding::Unanswered(_)
            | WitnessFinding::NoneFound(_) => BAD,
        }
    }
}

impl AsLines for WitnessFinding {
    ghost lines_of = { witness_lines };

    fn lines(&self, alloc: Global, network: &Network) -> Result<Vec<u8>, AllocError> {
        match self {
            WitnessFinding::Misrouted(flow, place, fault) => {
                Ok(misrouted_text(alloc, network, *flow, *place, *fault)?.into_bytes())
            }
            WitnessFinding::Free => {
                Ok(String::from_str(alloc, "no lock-up: the network is free\n")?.into_bytes())
            }
            WitnessFinding::Unanswered(flows) => {
                Ok(unanswered_text(alloc, network, flows)?.into_bytes())
            }
            WitnessFinding::NoneFound(tries) => Ok(none_found(alloc, *tries)?.into_bytes()),
            WitnessFinding::LockUp(schedule) => schedule.as_bytes().to_vec(alloc),
        }
    }
}

/// That the replies of these flows can't happen.
fn unanswered_text(alloc: Global, network: &Network, flows: &[u16]) -> Result<String, AllocError>
    ensures { IfOk result (λ text. string_bytes text ≡ unanswered_line network.now flows.now) }
{
    let names = names_text(alloc, network, flows)?;
    format!(in alloc; "no lock-up: the replies of {names} can't happen\n")
}

/// What a search finds, which tells also that the replies of these flows can't happen.
fn search(
    alloc: Global,
    network: &Network,
    tangles: &[Tangle],
    flows: &[u16],
    tries: u32,
    seed: u32,
) -> Result<WitnessFinding, AllocError>
    ensures { IfOk result (IsSearched tries network.now) }
{
    match find_schedule(alloc, network, tangles, tries, seed)? {
        Some(schedule) => {
            let text = with_note(alloc, network, flows, schedule)?;
            Ok(WitnessFinding::LockUp(text))
        }
        None => Ok(WitnessFinding::NoneFound(tries)),
    }
}

/// What is found where channels can wait for one another.
fn find_in_tangles<T: VerdictWorkers>(
    workers: &T,
    alloc: Global,
    network: &Network,
    tangles: &[Tangle],
    tries: u32,
    seed: u32,
) -> Result<WitnessFinding, AllocError>
    ensures { IfOk result (IsOfTangled tries network.now) }
{
    let flows = never_answered(alloc, network)?;
    if is_free_without(workers, alloc, network, &flows)? {
        Ok(WitnessFinding::Unanswered(flows))
    } else {
        search(alloc, network, tangles, &flows, tries, seed)
    }
}

/// What is found by why the network can lock up.
fn find_by<T: VerdictWorkers>(
    workers: &T,
    alloc: Global,
    network: &Network,
    explanation: &Explanation,
    tries: u32,
    seed: u32,
) -> Result<WitnessFinding, AllocError>
    requires { IsExplanation network.now explanation.now }
    ensures { IfOk result (IsOfKind tries network.now explanation.now) }
{
    match explanation {
        Explanation::Misrouted {
            flow,
            place,
            fault,
            ..
        } => Ok(WitnessFinding::Misrouted(*flow, *place, *fault)),
        Explanation::Cyclic(tangles) => {
            find_in_tangles(workers, alloc, network, tangles, tries, seed)
        }
        Explanation::Free => Ok(WitnessFinding::Free),
    }
}

/// What is found of a network.
fn find<T: VerdictWorkers>(
    workers: &T,
    alloc: Global,
    network: &Network,
    tries: u32,
    seed: u32,
) -> Result<WitnessFinding, AllocError>
    ensures { IfOk result (IsWitnessFinding tries network.now) }
{
    let explanation = explain(workers, alloc, network)?;
    find_by(workers, alloc, network, &explanation, tries, seed)
}

/// A schedule that leads the network of a file into a lock-up, in this form: 0 where one is found, and 1 where none is found by so many tries, or
/// where there is nothing to look for. The workers share the work of finding where to look.
///
/// What is told with status 0 was replayed before: as a schedule file it leads to a lock-up. That none is found says nothing of the
/// network. The same seed gives the same tries.
pub fn witness<T: VerdictWorkers, R: Read, F: Form<WitnessFinding>, W: Write>(
    workers: &T,
    alloc: Global,
    reader: &mut R,
    tries: u32,
    seed: u32,
    form: &F,
    writer: &mut W,
) -> CommandEnd<WitnessFinding>
    ensures ended { EndsByOne F.memory (AnswersInForm (IsWitnessFinding tries) (F.tells form.now None) (F.faulty form.now None) (F.long form.now None)) (R.remaining reader.old) (R.remaining reader.new) (W.contents writer.old) (W.contents writer.new) result.ended }
    ensures read { IsFileRead (R.remaining reader.old) (R.remaining reader.new) result.file }
    ensures found { HoldsOfFound (IsWitnessFinding tries) (network_of result.file) result.found }
    ensures told { IsFileTold F.memory (AnswersToFile (F.tells form.now None) (F.faulty form.now None) (F.long form.now None) result.file result.found) result.file (W.contents writer.old) (W.contents writer.new) result.ended }
{
    let file = read_network_file(alloc, reader);
    let found = match file.network() {
        Some(network) => Some(find(workers, alloc, network, tries, seed)),
        None => None,
    };
    tell_found(alloc, file, None, found, form, writer)
}
