//! What `explain` finds, and its engine.
ghost use Rattle.std.specs.Prelude.{◌≡◌, IfOk, codes, None};
ghost use Rattle.sw_engine.specs.Engines.{AnswersInForm, EndsByOne};
ghost use Rattle.sw_engine.specs.Files.{IsFileRead, network_of};
ghost use Rattle.sw_engine.specs.Tellings.{AnswersToFile, HoldsOfFound, IsFileTold};
ghost use Rattle.sw_search.specs.Explanations.{IsExplanation};
ghost use Rattle.sw_explain.specs.ExplainAnswers.{IsExplainFinding};
ghost use Rattle.sw_explain.specs.ExplainTexts.{explain_status, explain_text};
ghost use Rattle.sw_explain.specs.ExplainValues.{explain_has_status, explain_results};

use crate::explain_texts::{explain_status, explain_text};
use crate::explain_values::explain_outcome;
use std::alloc::{AllocError, Global};
use std::io::{Read, Write};
use sw_config::Network;
use sw_engine::{AsLines, CommandEnd, Finding, Form, read_network_file, tell_found};
use sw_json::{CommandOutcome, SecondFile, Values};
use sw_search::{Explanation, VerdictWorkers};

/// What `explain` finds of a network, and how much of it is to be told.
#[derive(Drop)]
pub struct ExplainFinding {
    /// Whether each step of a cycle names all flows that make it, and not just six with how many more there are. As an object all are named.
    pub all: bool,
    /// Why the network can lock up, or that it never does.
    pub explanation: Explanation,
}

impl Finding for ExplainFinding {
    ghost is_of = { λ d f. IsExplanation d f.explanation };

    ghost status_of = { λ f. explain_status f.explanation };

    fn status(&self) -> u8 {
        explain_status(&self.explanation)
    }
}

impl AsLines for ExplainFinding {
    ghost lines_of = { λ d f. explain_text d f.all f.explanation };

    fn lines(&self, alloc: Global, network: &Network) -> Result<Vec<u8>, AllocError> {
        let text = explain_text(alloc, network, self.all, &self.explanation)?;
        Ok(text.into_bytes())
    }
}

/// How what is found by `explain` is told as values of JSON.
#[derive(Clone, Copy)]
pub struct ExplainValues;

impl Values<ExplainFinding> for ExplainValues {
    ghost command = { codes "explain" };

    ghost results_of = { λ _ _ _ d f. explain_results d f.explanation };

    fn command(&self) -> &'static str {
        "explain"
    }

    fn outcome(
        &self,
        alloc: Global,
        _path: &str,
        _second: SecondFile<'_>,
        network: &Network,
        found: &ExplainFinding,
    ) -> Result<CommandOutcome, AllocError> {
        explain_outcome(alloc, network, &found.explanation)
    }

    ghost result_has_status = { λ _ _ _ d f. explain_has_status d f.explanation };
}

/// What is found of a network.
fn find<T: VerdictWorkers>(
    workers: &T,
    alloc: Global,
    network: &Network,
    all: bool,
) -> Result<ExplainFinding, AllocError>
    ensures { IfOk result (IsExplainFinding all network.now) }
{
    let explanation = sw_search::explain(workers, alloc, network)?;
    Ok(ExplainFinding { all, explanation })
}

/// Why the network of a file can lock up, or that it never does, in this form: 0 where it never does, and 1 where a flow is not well routed
/// or packets can wait for one another in a circle. The workers share the work.
///
/// `all`: each step of a cycle names all flows that make it, and not just six with how many more there are.
pub fn explain<T: VerdictWorkers, R: Read, F: Form<ExplainFinding>, W: Write>(
    workers: &T,
    alloc: Global,
    reader: &mut R,
    all: bool,
    form: &F,
    writer: &mut W,
) -> CommandEnd<ExplainFinding>
    ensures ended { EndsByOne F.memory (AnswersInForm (IsExplainFinding all) (F.tells form.now None) (F.faulty form.now None) (F.long form.now None)) (R.remaining reader.old) (R.remaining reader.new) (W.contents writer.old) (W.contents writer.new) result.ended }
    ensures read { IsFileRead (R.remaining reader.old) (R.remaining reader.new) result.file }
    ensures found { HoldsOfFound (IsExplainFinding all) (network_of result.file) result.found }
    ensures told { IsFileTold F.memory (AnswersToFile (F.tells form.now None) (F.faulty form.now None) (F.long form.now None) result.file result.found) result.file (W.contents writer.old) (W.contents writer.new) result.ended }
{
    let file = read_network_file(alloc, reader);
    let found = match file.network() {
        Some(network) => Some(find(workers, alloc, network, all)),
        None => None,
    };
    tell_found(alloc, file, None, found, form, writer)
}
