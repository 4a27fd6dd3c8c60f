//! What `mend` finds, told, and its engine.
ghost use Rattle.std.specs.Prelude.{◌≡◌, IfOk, codes, None};
ghost use Rattle.sw_engine.specs.Engines.{AnswersInForm, EndsByOne};
ghost use Rattle.sw_engine.specs.Files.{IsFileRead, network_of};
ghost use Rattle.sw_engine.specs.Tellings.{AnswersToFile, HoldsOfFound, IsFileTold};
ghost use Rattle.sw_json.specs.Answering.{IsCommandOutcome};
ghost use Rattle.sw_changes.specs.Mendings.{IsMending, IsMendingOf};
ghost use Rattle.sw_changes.specs.MendTexts.{mending_status, mending_text};
ghost use Rattle.sw_changes.specs.MendValues.{mending_value};

use crate::mend_texts::{mending_status, mending_text};
use crate::mend_value_laws::mends_are_plain;
use crate::mend_values::mending_value;
use crate::mending::{Mending, find_mending};
use std::alloc::{AllocError, Global};
use std::io::{Read, Write};
use sw_config::Network;
use sw_engine::{AsLines, CommandEnd, Finding, Form, read_network_file, tell_found};
use sw_json::laws::verdicts_are_plain;
use sw_json::{CommandOutcome, SecondFile, Values};
use sw_search::VerdictWorkers;

impl Finding for Mending {
    ghost is_of = { IsMendingOf };

    ghost status_of = { mending_status };

    fn status(&self) -> u8 {
        mending_status(self)
    }
}

impl AsLines for Mending {
    ghost lines_of = { mending_text };

    fn lines(&self, alloc: Global, network: &Network) -> Result<Vec<u8>, AllocError> {
        let text = mending_text(alloc, network, self)?;
        Ok(text.into_bytes())
    }
}

/// How what is found by `mend` and `margin` is told as values of JSON.
#[derive(Clone, Copy)]
pub struct ChangeValues;

impl Values<Mending> for ChangeValues {
    ghost command = { codes "mend" };

    ghost results_of = { λ _ _ _ d f. IsCommandOutcome (mending_value d f) (mending_status f) };

    fn command(&self) -> &'static str {
        "mend"
    }

    fn outcome(
        &self,
        alloc: Global,
        _path: &str,
        _second: SecondFile<'_>,
        network: &Network,
        found: &Mending,
    ) -> Result<CommandOutcome, AllocError> {
        mends_are_plain();
        let result = mending_value(alloc, network, found)?;
        let status = mending_status(found);
        Ok(CommandOutcome { result, status })
    }

    ghost result_has_status = { λ _ _ _ _ _ _ _ is. is.1 };
}

/// Which single changes make the network of a file free of deadlocks, in this form: 0 where some change does or the network is free
/// already, and 1 where none does or a flow is not well routed. With pairs asked for, where no single change of a part does, which pairs of
/// single changes do too: 0 where some pair does. The workers share the work.
pub fn mend<T: VerdictWorkers, R: Read, F: Form<Mending>, W: Write>(
    workers: &T,
    alloc: Global,
    reader: &mut R,
    pairs: bool,
    form: &F,
    writer: &mut W,
) -> CommandEnd<Mending>
    ensures ended { EndsByOne F.memory (AnswersInForm (IsMending pairs) (F.tells form.now None) (F.faulty form.now None) (F.long form.now None)) (R.remaining reader.old) (R.remaining reader.new) (W.contents writer.old) (W.contents writer.new) result.ended }
    ensures read { IsFileRead (R.remaining reader.old) (R.remaining reader.new) result.file }
    ensures found { HoldsOfFound (IsMending pairs) (network_of result.file) result.found }
    ensures told { IsFileTold F.memory (AnswersToFile (F.tells form.now None) (F.faulty form.now None) (F.long form.now None) result.file result.found) result.file (W.contents writer.old) (W.contents writer.new) result.ended }
{
    let file = read_network_file(alloc, reader);
    let found = match file.network() {
        Some(network) => Some(find_mending(workers, alloc, network, pairs)),
        None => None,
    };
    tell_found(alloc, file, None, found, form, writer)
}
