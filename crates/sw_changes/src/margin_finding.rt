//! What `margin` finds, and its engine.
ghost use Rattle.std.specs.Prelude.{◌≡◌, IfOk, codes, string_bytes, None};
ghost use Rattle.serde_json.specs.View.{view};
ghost use Rattle.sw_engine.specs.Engines.{AnswersInForm, EndsByOne};
ghost use Rattle.sw_engine.specs.Files.{IsFileRead, network_of};
ghost use Rattle.sw_engine.specs.Tellings.{AnswersToFile, HoldsOfFound, IsFileTold};
ghost use Rattle.sw_json.specs.Answering.{IsCommandOutcome};
ghost use Rattle.sw_changes.specs.MarginAnswers.{IsMarginFinding, margin_lines, margin_value};

use crate::margin_texts::margin_text;
use crate::margin_value_laws::margins_are_plain;
use crate::margin_values::margins_value;
use crate::mend_finding::ChangeValues;
use serde_json::Value;
use std::alloc::{AllocError, Global};
use std::io::{Read, Write};
use sw_config::Network;
use sw_engine::{AsLines, CommandEnd, Finding, Form, read_network_file, tell_found};
use sw_json::laws::verdicts_are_plain;
use sw_json::{CommandOutcome, SecondFile, Values, verdict_value};
use sw_margin::{Margins, margins};
use sw_output::misrouted_text;
use sw_search::{Verdict, VerdictWorkers, decide};
use sw_text::statuses::GOOD;

/// What `margin` finds of a network.
#[derive(Drop)]
pub enum MarginFinding {
    /// The verdict on a network that is not free.
    NotFree(Verdict),
    /// How far the premises of a free network bend.
    Free(Margins),
}

impl Finding for MarginFinding {
    ghost is_of = { IsMarginFinding };

    ghost status_of = { λ _. 0 };

    fn status(&self) -> u8 {
        GOOD
    }
}

impl AsLines for MarginFinding {
    ghost lines_of = { margin_lines };

    fn lines(&self, alloc: Global, network: &Network) -> Result<Vec<u8>, AllocError> {
        let text = self.text(alloc, network)?;
        Ok(text.into_bytes())
    }
}

impl Values<MarginFinding> for ChangeValues {
    ghost command = { codes "margin" };

    ghost results_of = { λ _ _ _ d f. IsCommandOutcome (margin_value d f) 0 };

    fn command(&self) -> &'static str {
        "margin"
    }

    fn outcome(
        &self,
        alloc: Global,
        _path: &str,
        _second: SecondFile<'_>,
        network: &Network,
        found: &MarginFinding,
    ) -> Result<CommandOutcome, AllocError> {
        margins_are_plain();
        verdicts_are_plain();
        let result = found.value(alloc, network)?;
        Ok(CommandOutcome {
            result,
            status: GOOD,
        })
    }

    ghost result_has_status = { λ _ _ _ _ _ _ _ is. is.1 };
}

impl MarginFinding {
    /// That the network is not free, or the flow that is not well routed; else what it stands.
    fn text(&self, alloc: Global, network: &Network) -> Result<String, AllocError>
        requires { IsMarginFinding network.now self.now }
        ensures { IfOk result (λ text. string_bytes text ≡ margin_lines network.now self.now) }
    {
        match self {
            MarginFinding::NotFree(Verdict::Misrouted(flow, place, fault)) => {
                misrouted_text(alloc, network, *flow, *place, *fault)
            }
            MarginFinding::NotFree(_) => String::from_str(alloc, "not free\n"),
            MarginFinding::Free(found) => margin_text(alloc, network, found),
        }
    }

    /// The verdict, where the network is not free; else what it stands.
    fn value(&self, alloc: Global, network: &Network) -> Result<Value, AllocError>
        requires { IsMarginFinding network.now self.now }
        ensures { IfOk result (λ v. view v ≡ margin_value network.now self.now) }
    {
        match self {
            MarginFinding::NotFree(verdict) => verdict_value(alloc, network, verdict, &[]),
            MarginFinding::Free(found) => margins_value(alloc, network, found),
        }
    }
}

/// What is found of a network.
fn find<T: VerdictWorkers>(
    workers: &T,
    alloc: Global,
    network: &Network,
) -> Result<MarginFinding, AllocError>
    ensures { IfOk result (IsMarginFinding network.now) }
{
    let verdict = decide(workers, alloc, network)?;
    if let Verdict::Free(_) = &verdict {
        let found = margins(workers, alloc, network)?;
        return Ok(MarginFinding::Free(found));
    }
    Ok(MarginFinding::NotFree(verdict))
}

/// How far the premises of the free network of a file bend, in this form: of each node where nothing that comes may have to wait for a reply and
/// of each flow without a reply, whether the network stays free; of each flow with a limit of its own, how many of its commands may be
/// unanswered; and for each link the flows that are lost without it. Of a network that is not free, that it is not, or the first flow that is
/// not well routed. Its status is 0. The workers share the work.
pub fn margin<T: VerdictWorkers, R: Read, F: Form<MarginFinding>, W: Write>(
    workers: &T,
    alloc: Global,
    reader: &mut R,
    form: &F,
    writer: &mut W,
) -> CommandEnd<MarginFinding>
    ensures ended { EndsByOne F.memory (AnswersInForm IsMarginFinding (F.tells form.now None) (F.faulty form.now None) (F.long form.now None)) (R.remaining reader.old) (R.remaining reader.new) (W.contents writer.old) (W.contents writer.new) result.ended }
    ensures read { IsFileRead (R.remaining reader.old) (R.remaining reader.new) result.file }
    ensures found { HoldsOfFound IsMarginFinding (network_of result.file) result.found }
    ensures told { IsFileTold F.memory (AnswersToFile (F.tells form.now None) (F.faulty form.now None) (F.long form.now None) result.file result.found) result.file (W.contents writer.old) (W.contents writer.new) result.ended }
{
    let file = read_network_file(alloc, reader);
    let found = match file.network() {
        Some(network) => Some(find(workers, alloc, network)),
        None => None,
    };
    tell_found(alloc, file, None, found, form, writer)
}
