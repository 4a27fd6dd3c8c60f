//! What `decide` finds, and its engine.
ghost use Rattle.std.specs.Prelude.{◌≡◌, IfOk, IfSome, Ok, Some, is_some};
ghost use Rattle.sw_cert.specs.Grammar.{spelling};
ghost use Rattle.sw_engine.specs.Files.{IsFileRead, network_of};
ghost use Rattle.sw_engine.specs.LineAnswers.{IsFileToldInLines, memory_line};
ghost use Rattle.sw_engine.specs.Tellings.{HoldsOfFound, TellsOr};
ghost use Rattle.sw_search.specs.declared.verdict.Verdict.TheVariants.{Free};
ghost use Rattle.sw_text.specs.Ends.{EndsBy, Says};
ghost use Rattle.sw_app.specs.VerdictAnswers.{DecidesDeadlockFree, IsDecideAnswer, IsDecideFinding, ShowsDeadlockFree, decide_lines, decide_status};

use crate::verdict_texts::{certificate_is_said, verdict_text};
use std::alloc::{AllocError, Global};
use std::io::{Read, Write};
use sw_cert::Certificate;
use sw_config::Network;
use sw_engine::{AsLines, CommandEnd, Finding, Lines, NetworkFile, read_network_file, tell_found};
use sw_search::{Verdict, VerdictWorkers};
use sw_text::statuses::{BAD, GOOD};
use sw_text::{Ended, tell_memory, tell_parts};

/// What `decide` finds of a network.
#[derive(Drop)]
pub struct DecideFinding {
    /// The verdict on it.
    pub verdict: Verdict,
}

impl Finding for DecideFinding {
    ghost is_of = { IsDecideFinding };

    ghost status_of = { decide_status };

    fn status(&self) -> u8 {
        match &self.verdict {
            Verdict::Misrouted(_, _, _) | Verdict::Cyclic(_) => BAD,
            Verdict::Free(_) => GOOD,
        }
    }
}

impl AsLines for DecideFinding {
    ghost lines_of = { decide_lines };

    fn lines(&self, alloc: Global, network: &Network) -> Result<Vec<u8>, AllocError> {
        verdict_text(alloc, network, &self.verdict)
    }
}

/// What is found of a network: the verdict on it. The workers share the work.
///
/// # Errors
///
/// There is no memory for it.
pub fn find_verdict<T: VerdictWorkers>(
    workers: &T,
    alloc: Global,
    network: &Network,
) -> Result<DecideFinding, AllocError>
    ensures verdict { IfOk result (IsDecideFinding network.now) }
    ensures deadlock_free { IfOk result (ShowsDeadlockFree network.now) }
{
    // Names the network, which is valid by its type.
    let _topology = network.topology();
    let verdict = sw_search::decide(workers, alloc, network)?;
    certificate_is_said(network, &verdict);
    Ok(DecideFinding { verdict })
}

/// What is found of a file's network, if it declares one.
fn found_of_file<T: VerdictWorkers>(
    workers: &T,
    alloc: Global,
    file: &NetworkFile,
) -> Option<Result<DecideFinding, AllocError>>
    ensures there { is_some result ≡ is_some (network_of file.now) }
    ensures verdict { HoldsOfFound IsDecideFinding (network_of file.now) result }
    ensures deadlock_free { HoldsOfFound ShowsDeadlockFree (network_of file.now) result }
{
    match file.network() {
        Some(network) => Some(find_verdict(workers, alloc, network)),
        None => None,
    }
}

/// The certificate, if one was found.
fn certificate_found(found: &Option<Result<DecideFinding, AllocError>>) -> Option<&Certificate>
    ensures { IfSome result (λ certificate. found.now ≡ Some (Ok (record { verdict = Free certificate.now }))) }
{
    let Some(Ok(found)) = found else {
        return None;
    };
    match &found.verdict {
        Verdict::Free(certificate) => Some(certificate),
        Verdict::Misrouted(_, _, _) | Verdict::Cyclic(_) => None,
    }
}

/// Writes a certificate, or that memory was wanted. The workers make the parts of a long text.
fn tell_certificate<T: VerdictWorkers, W: Write>(
    workers: &T,
    alloc: Global,
    certificate: &Certificate,
    writer: &mut W,
) -> Ended
    ensures { TellsOr memory_line (Says (spelling certificate.now.numbers certificate.now.places) 0) (W.contents writer.old) (W.contents writer.new) result }
{
    match certificate.write_by(workers, alloc) {
        Ok(text) => tell_parts(&text, GOOD, writer),
        Err(_) => tell_memory(writer),
    }
}

/// The verdict on a network file, in lines: with status 0 a certificate, and then the network never locks up, over every run that keeps the
/// limits on unanswered commands; with status 1 a cycle of dependencies, or a flow that is not well routed. The workers share the work.
pub fn decide<T: VerdictWorkers, R: Read, W: Write>(
    workers: &T,
    alloc: Global,
    reader: &mut R,
    writer: &mut W,
) -> CommandEnd<DecideFinding>
    ensures ended { EndsBy IsDecideAnswer (R.remaining reader.old) (R.remaining reader.new) (W.contents writer.old) (W.contents writer.new) result.ended }
    ensures deadlock_free { result.ended ≡ Ended.Status 0 → DecidesDeadlockFree (R.remaining reader.old) (R.remaining reader.new) (W.contents writer.old) (W.contents writer.new) }
    ensures read { IsFileRead (R.remaining reader.old) (R.remaining reader.new) result.file }
    ensures found { HoldsOfFound IsDecideFinding (network_of result.file) result.found }
    ensures told { IsFileToldInLines decide_lines decide_status result.file result.found (W.contents writer.old) (W.contents writer.new) result.ended }
{
    let file = read_network_file(alloc, reader);
    let found = found_of_file(workers, alloc, &file);
    // A certificate may be long, so the workers make its text; a form of answers has no workers.
    match certificate_found(&found) {
        Some(certificate) => {
            let ended = tell_certificate(workers, alloc, certificate, writer);
            CommandEnd {
                ended,
                file,
                second: None,
                found,
            }
        }
        None => tell_found(alloc, file, None, found, &Lines, writer),
    }
}
