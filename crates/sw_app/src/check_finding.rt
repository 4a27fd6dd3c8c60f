//! What `check` finds, and its engine.
ghost use Rattle.std.specs.Prelude.{◌≡◌, IfOk, IsSomeAnd, None, Some, option_map};
ghost use Rattle.sw_app.specs.CheckAnswers.{IsCheckFinding, IsJudged, check_lines, check_status};
ghost use Rattle.sw_app.specs.ShownDeadlockFree.{ChecksDeadlockFree, IsShownDeadlockFree};
ghost use Rattle.sw_cert.specs.Contents.{certificate_of};
ghost use Rattle.sw_cert.specs.Refusals.{refusal_of};
ghost use Rattle.sw_engine.specs.Engines.{AnswersToTwoInForm, EndsByTwo};
ghost use Rattle.sw_engine.specs.Files.{AreFilesRead, network_of, second_given};
ghost use Rattle.sw_engine.specs.Tellings.{AnswersToFile, HoldsOfFound, IsFileTold};
ghost use Rattle.sw_machine.specs.Certificate.{IsAccepted};
ghost use Rattle.sw_machine.specs.DeadlockFreedom.{IsFree};
ghost use Rattle.sw_machine.specs.Model as machine;
ghost use Rattle.sw_text.specs.Ends.{AreReadInOrder};

use crate::check_texts::{grammar_line, refusal_line};
use std::alloc::{AllocError, Global};
use std::io::{Read, Write};
use sw_cert::{Certificate, CertificateFault, Refusal};
use sw_config::Network;
use sw_engine::{AsLines, CommandEnd, Finding, Form, read_two_files, second_bytes, tell_found};
use sw_search::VerdictWorkers;
use sw_text::Ended;
use sw_text::statuses::{BAD, FAULTY, GOOD};

/// What `check` finds of a network and the text of a certificate.
#[derive(Drop)]
pub enum CheckFinding {
    /// The text has too many bytes.
    TooLong,
    /// The text is no certificate: this line, counted from 1, is the first that is wrong.
    WrongLine(usize),
    /// The certificate is refused for the network, for this reason.
    Refused(Certificate, Refusal),
    /// The certificate is accepted for the network.
    Accepted,
}

impl Finding for CheckFinding {
    ghost is_of = { λ _ _. Unit {0} };

    ghost status_of = { check_status };

    fn status(&self) -> u8 {
        match self {
            CheckFinding::TooLong => FAULTY,
            CheckFinding::WrongLine(_) | CheckFinding::Refused(_, _) => BAD,
            CheckFinding::Accepted => GOOD,
        }
    }
}

impl AsLines for CheckFinding {
    ghost lines_of = { check_lines };

    fn lines(&self, alloc: Global, network: &Network) -> Result<Vec<u8>, AllocError> {
        let text = match self {
            CheckFinding::TooLong => String::from_str(alloc, "fault A1 TooLong\n")?,
            CheckFinding::WrongLine(number) => grammar_line(alloc, *number)?,
            CheckFinding::Refused(_, refusal) => refusal_line(alloc, network, *refusal)?,
            CheckFinding::Accepted => String::from_str(alloc, "accepted\n")?,
        };
        Ok(text.into_bytes())
    }
}

/// What is found of a certificate.
fn judge<T: VerdictWorkers>(
    workers: &T,
    network: &Network,
    certificate: Certificate,
) -> CheckFinding
    ensures finding { IsJudged certificate (refusal_of network.now certificate) result }
    ensures accepted { check_status result ≡ 0 → IsAccepted (machine.network_of network.now) (certificate_of certificate) }
    ensures deadlock_free { check_status result ≡ 0 → IsFree (machine.network_of network.now) (certificate_of certificate) }
{
    // Names the network, which is valid by its type.
    let _flows = network.flows();
    match sw_cert::check(workers, network, &certificate) {
        Ok(_) => CheckFinding::Accepted,
        Err(refusal) => CheckFinding::Refused(certificate, refusal),
    }
}

/// What is found of a network and the bytes of a certificate file, if they are not too many.
fn find<T: VerdictWorkers>(
    workers: &T,
    alloc: Global,
    network: &Network,
    second: Option<&[u8]>,
) -> Result<CheckFinding, AllocError>
    ensures finding { IfOk result (IsCheckFinding (option_map (λ s. s.now) second.entry) network.now) }
    ensures deadlock_free { IfOk result (λ f. check_status f ≡ 0 → IsSomeAnd (option_map (λ s. s.now) second.entry) (IsShownDeadlockFree network.now)) }
{
    let Some(text) = second else {
        return Ok(CheckFinding::TooLong);
    };
    match Certificate::read_by(workers, alloc, text) {
        Ok(certificate) => Ok(judge(workers, network, certificate)),
        Err(CertificateFault::Fault(number)) => Ok(CheckFinding::WrongLine(number)),
        Err(CertificateFault::Memory) => Err(AllocError),
    }
}

/// Whether the certificate of the second file is accepted for the network of the first, in this form: 0 where it is, and then the network never
/// locks up, over every run that keeps the limits on unanswered commands; 1 where it is refused. The workers share the work.
pub fn check<T: VerdictWorkers, N: Read, C: Read, F: Form<CheckFinding>, W: Write>(
    workers: &T,
    alloc: Global,
    network: &mut N,
    certificate: &mut C,
    form: &F,
    writer: &mut W,
) -> CommandEnd<CheckFinding>
    ensures ended { EndsByTwo F.memory (AnswersToTwoInForm IsCheckFinding (F.tells form.now) (F.faulty form.now) (F.long form.now)) (N.remaining network.old) (N.remaining network.new) (C.remaining certificate.old) (C.remaining certificate.new) (W.contents writer.old) (W.contents writer.new) result.ended }
    ensures order { AreReadInOrder (N.remaining network.old) (N.remaining network.new) (C.remaining certificate.old) (C.remaining certificate.new) }
    ensures deadlock_free { result.ended ≡ Ended.Status 0 → ChecksDeadlockFree (N.remaining network.old) (N.remaining network.new) (C.remaining certificate.old) (C.remaining certificate.new) }
    ensures read { AreFilesRead (N.remaining network.old) (N.remaining network.new) (C.remaining certificate.old) (C.remaining certificate.new) result.file result.second }
    ensures found { HoldsOfFound (IsCheckFinding (second_given result.second)) (network_of result.file) result.found }
    ensures told { IsFileTold F.memory (AnswersToFile (F.tells form.now (second_given result.second)) (F.faulty form.now (second_given result.second)) (F.long form.now (second_given result.second)) result.file result.found) result.file (W.contents writer.old) (W.contents writer.new) result.ended }
{
    let (file, second) = read_two_files(alloc, network, certificate);
    let text = second_bytes(&second);
    let found = match file.network() {
        Some(network) => Some(find(workers, alloc, network, text)),
        None => None,
    };
    tell_found(alloc, file, second, found, form, writer)
}
