//! What `report` finds, and its engine.
ghost use Rattle.std.specs.Prelude.{◌≡◌, IfOk, None};
ghost use Rattle.sw_engine.specs.Engines.{AnswersInForm, EndsByOne};
ghost use Rattle.sw_engine.specs.Files.{IsFileRead, network_of};
ghost use Rattle.sw_engine.specs.Tellings.{AnswersToFile, HoldsOfFound, IsFileTold};
ghost use Rattle.sw_app.specs.VerdictAnswers.{IsReportFinding, report_lines};

use crate::verdict_texts::verdict_words;
use std::alloc::{AllocError, Global};
use std::io::{Read, Write};
use sw_config::Network;
use sw_engine::{AsLines, CommandEnd, Finding, Form, read_network_file, tell_found};
use sw_output::report_text;
use sw_search::{Findings, VerdictWorkers, survey};
use sw_text::statuses::GOOD;

/// What `report` finds of a network.
#[derive(Drop)]
pub struct ReportFinding {
    /// The verdict on it, and how many places and dependencies it has.
    pub findings: Findings,
}

impl Finding for ReportFinding {
    ghost is_of = { IsReportFinding };

    ghost status_of = { λ _. 0 };

    fn status(&self) -> u8 {
        GOOD
    }
}

impl AsLines for ReportFinding {
    ghost lines_of = { report_lines };

    fn lines(&self, alloc: Global, network: &Network) -> Result<Vec<u8>, AllocError> {
        let findings = &self.findings;
        let words = verdict_words(alloc, network, &findings.verdict)?;
        let text = report_text(
            alloc,
            network,
            findings.places,
            findings.dependencies,
            words.as_str(),
        )?;
        Ok(text.into_bytes())
    }
}

/// What is found of a network.
fn find<T: VerdictWorkers>(
    workers: &T,
    alloc: Global,
    network: &Network,
) -> Result<ReportFinding, AllocError>
    ensures { IfOk result (IsReportFinding network.now) }
{
    let findings = survey(workers, alloc, network)?;
    Ok(ReportFinding { findings })
}

/// How many parts the network of a file has, and the verdict on it, in this form, with status 0 whatever the verdict. The workers share
/// the work.
pub fn report<T: VerdictWorkers, R: Read, F: Form<ReportFinding>, W: Write>(
    workers: &T,
    alloc: Global,
    reader: &mut R,
    form: &F,
    writer: &mut W,
) -> CommandEnd<ReportFinding>
    ensures ended { EndsByOne F.memory (AnswersInForm IsReportFinding (F.tells form.now None) (F.faulty form.now None) (F.long form.now None)) (R.remaining reader.old) (R.remaining reader.new) (W.contents writer.old) (W.contents writer.new) result.ended }
    ensures read { IsFileRead (R.remaining reader.old) (R.remaining reader.new) result.file }
    ensures found { HoldsOfFound IsReportFinding (network_of result.file) result.found }
    ensures told { IsFileTold F.memory (AnswersToFile (F.tells form.now None) (F.faulty form.now None) (F.long form.now None) result.file result.found) result.file (W.contents writer.old) (W.contents writer.new) result.ended }
{
    let file = read_network_file(alloc, reader);
    let found = match file.network() {
        Some(network) => Some(find(workers, alloc, network)),
        None => None,
    };
    tell_found(alloc, file, None, found, form, writer)
}
