//! What is found of a file.
ghost use Rattle.std.specs.Prelude.{◌≡◌, IfOk, codes, true};
ghost use Rattle.serde_json.specs.View.{view};
ghost use Rattle.sw_app.specs.VerdictAnswers.{IsDecideFinding};
ghost use Rattle.sw_engine.specs.Files.{network_of};
ghost use Rattle.sw_engine.specs.Tellings.{HoldsOfFound};
ghost use Rattle.sw_json.specs.FaultValues.{long_value};
ghost use Rattle.sw_json.specs.FileValues.{kind_value};
ghost use Rattle.sw_json.specs.VerdictValues.{certificate_bytes};
ghost use Rattle.sw_search.specs.Verdicts.{IsVerdict};
ghost use Rattle.sw_json_verdicts.specs.Findings.{IsBareFinding, IsFaultFinding, IsFileFinding, IsFileGiven, IsFinding, IsFoundOfFile, IsOfVerdict, IsStatus, IsVerdictEntry};
ghost use Rattle.sw_json_verdicts.specs.Judgements.{finding_of};
ghost use Rattle.sw_json_verdicts.specs.Names.{certificate_name};

use crate::audit_options::AuditOptions;
use crate::judged::{Judged, NumberedFile, kind_entry, memory_judged};
use crate::names::certificate_name;
use crate::statuses::{kept_status, verdict_word};
use crate::stores::{AuditInput, Storage};
use std::alloc::{AllocError, Global};
use sw_app::{DecideFinding, find_verdict};
use sw_config::Network;
use sw_engine::{NetworkFile, network_file_of};
use sw_json::{Value, bare_entry, fault_value, long_value, read_entry, verdict_value};
use sw_linter::lint_texts;
use sw_search::{Verdict, VerdictWorkers};
use sw_text::statuses::{BAD, FAULTY, GOOD, UNREAD_OR_UNWRITTEN};
use sw_text::{InputText, TextFault};

/// The text of the certificate where it is told or kept; empty where the verdict has none, or none is wanted.
fn wanted_certificate(
    alloc: Global,
    options: &AuditOptions<'_>,
    verdict: &Verdict,
) -> Result<Vec<u8>, AllocError>
    ensures told { IfOk result (λ text. options.now.json ≡ true → text.items ≡ certificate_bytes verdict.now) }
    ensures kept { IfOk result (λ text. options.now.certificates ≡ true → text.items ≡ certificate_bytes verdict.now) }
{
    match verdict {
        Verdict::Misrouted(_, _, _) | Verdict::Cyclic(_) => Ok(Vec::new(alloc)),
        Verdict::Free(certificate) => {
            if !options.json && !options.certificates {
                return Ok(Vec::new(alloc));
            }
            certificate.write(alloc)
        }
    }
}

/// The status of a verdict, whose certificate is kept if that is asked for.
fn status_of<S: Storage>(
    alloc: Global,
    storage: &S,
    keeping: bool,
    named: NumberedFile<'_>,
    verdict: &Verdict,
    certificate: &[u8],
) -> Result<u8, AllocError>
    requires { keeping ≡ true → certificate.now ≡ certificate_bytes verdict.now }
    ensures { IfOk result (IsStatus keeping (S.keeps storage.now) (certificate_name named.entry.number named.entry.path.now) verdict.now) }
{
    match verdict {
        Verdict::Misrouted(_, _, _) | Verdict::Cyclic(_) => Ok(BAD),
        Verdict::Free(_) => {
            if !keeping {
                return Ok(GOOD);
            }
            let name = certificate_name(alloc, named.number, named.path)?;
            let kept = storage.keep(alloc, name.as_str(), certificate);
            Ok(kept_status(kept))
        }
    }
}

/// The object of a file with a verdict.
fn verdict_entry(
    alloc: Global,
    path: &str,
    text: &[u8],
    network: &Network,
    verdict: &Verdict,
    certificate: &[u8],
    status: u8,
) -> Result<Value, AllocError>
    requires found { IsVerdict network.now verdict.now }
    requires text { certificate.now ≡ certificate_bytes verdict.now }
    ensures { IfOk result (λ v. IsVerdictEntry path.now text.now network.now verdict.now status (view v)) }
{
    let lint = lint_texts(alloc, network)?;
    let value = verdict_value(alloc, network, verdict, certificate)?;
    read_entry(alloc, path, text, &lint, status, value)
}

/// What is found of a network on which there is this verdict.
fn verdict_judged<S: Storage>(
    alloc: Global,
    storage: &S,
    options: &AuditOptions<'_>,
    named: NumberedFile<'_>,
    text: &[u8],
    network: &Network,
    verdict: &Verdict,
) -> Result<Judged, AllocError>
    requires { IsVerdict network.now verdict.now }
    ensures { IfOk result (λ j. IsOfVerdict options.now (S.keeps storage.now) named.entry.number named.entry.path.now text.now network.now verdict.now (finding_of named.entry.path.now j)) }
{
    let certificate = wanted_certificate(alloc, options, verdict)?;
    let keeping = options.certificates;
    let status = status_of(alloc, storage, keeping, named, verdict, &certificate)?;
    let word = verdict_word(verdict);
    let flowless = network.declared_flows() == 0;
    if !options.json {
        return Ok(Judged {
            status,
            word,
            entry: None,
            flowless,
        });
    }
    let path = named.path;
    let entry = verdict_entry(alloc, path, text, network, verdict, &certificate, status)?;
    Ok(Judged {
        status,
        word,
        entry: Some(entry),
        flowless,
    })
}

/// What is found of a text with a fault.
fn fault_judged(
    alloc: Global,
    options: &AuditOptions<'_>,
    path: &str,
    text: &[u8],
    fault: &TextFault,
) -> Result<Judged, AllocError>
    ensures { IfOk result (λ j. IsFaultFinding options.now path.now text.now fault.now (finding_of path.now j)) }
{
    if !options.json {
        return Ok(Judged {
            status: FAULTY,
            word: "fault",
            entry: None,
            flowless: false,
        });
    }
    let value = fault_value(alloc, text, fault)?;
    let entry = read_entry(alloc, path, text, &[], FAULTY, value)?;
    Ok(Judged {
        status: FAULTY,
        word: "fault",
        entry: Some(entry),
        flowless: false,
    })
}

/// What is found of a text that is too long.
fn long_judged(alloc: Global, options: &AuditOptions<'_>, path: &str) -> Result<Judged, AllocError>
    ensures { IfOk result (λ j. IsBareFinding options.now path.now 3 (codes "fault") long_value (finding_of path.now j)) }
{
    if !options.json {
        return Ok(Judged {
            status: FAULTY,
            word: "fault",
            entry: None,
            flowless: false,
        });
    }
    let entry = bare_entry(alloc, path, FAULTY, long_value(alloc)?)?;
    Ok(Judged {
        status: FAULTY,
        word: "fault",
        entry: Some(entry),
        flowless: false,
    })
}

/// What is found of a path that can't be read.
fn unread_judged(
    alloc: Global,
    options: &AuditOptions<'_>,
    path: &str,
) -> Result<Judged, AllocError>
    ensures { IfOk result (λ j. IsBareFinding options.now path.now 6 (codes "unread") (kind_value (codes "unread")) (finding_of path.now j)) }
{
    if !options.json {
        return Ok(Judged {
            status: UNREAD_OR_UNWRITTEN,
            word: "unread",
            entry: None,
            flowless: false,
        });
    }
    let entry = kind_entry(alloc, path, UNREAD_OR_UNWRITTEN, "unread")?;
    Ok(Judged {
        status: UNREAD_OR_UNWRITTEN,
        word: "unread",
        entry: Some(entry),
        flowless: false,
    })
}

/// What is found of a file that was read, and on whose network there is this verdict.
fn file_judged<S: Storage>(
    alloc: Global,
    storage: &S,
    options: &AuditOptions<'_>,
    named: NumberedFile<'_>,
    file: &NetworkFile,
    found: &Option<Result<DecideFinding, AllocError>>,
) -> Result<Judged, AllocError>
    requires { HoldsOfFound IsDecideFinding (network_of file.now) found.now }
    ensures { IfOk result (λ j. IsFileFinding options.now (S.keeps storage.now) named.entry.number named.entry.path.now file.now found.now (finding_of named.entry.path.now j)) }
{
    match file {
        NetworkFile::Network { text, network } => match found {
            Some(made) => match made {
                Ok(found) => {
                    let verdict = &found.verdict;
                    verdict_judged(alloc, storage, options, named, text, network, verdict)
                }
                Err(_) => Err(AllocError),
            },
            None => Err(AllocError),
        },
        NetworkFile::Faulty { text, fault } => {
            fault_judged(alloc, options, named.path, text, fault)
        }
        NetworkFile::TooLong => long_judged(alloc, options, named.path),
        NetworkFile::Unread => unread_judged(alloc, options, named.path),
        NetworkFile::NoMemory => Err(AllocError),
    }
}

/// The same, or that memory was wanted.
fn file_or_memory<S: Storage>(
    alloc: Global,
    storage: &S,
    options: &AuditOptions<'_>,
    named: NumberedFile<'_>,
    file: &NetworkFile,
    found: &Option<Result<DecideFinding, AllocError>>,
) -> Judged
    requires { HoldsOfFound IsDecideFinding (network_of file.now) found.now }
    ensures { IsFoundOfFile options.now (S.keeps storage.now) named.entry.number named.entry.path.now file.now found.now (finding_of named.entry.path.now result) }
{
    match file_judged(alloc, storage, options, named, file, found) {
        Ok(judged) => judged,
        Err(_) => memory_judged(),
    }
}

/// A network file, as the storage gives it.
fn read_file<S: Storage>(alloc: Global, storage: &S, path: &str) -> NetworkFile
    ensures { IsFileGiven (S.gives storage.now path.now) result }
{
    match storage.read(alloc, path) {
        AuditInput::Whole(text) => network_file_of(alloc, InputText::Whole(text)),
        AuditInput::TooLong => NetworkFile::TooLong,
        AuditInput::Unread => NetworkFile::Unread,
        AuditInput::NoMemory => NetworkFile::NoMemory,
    }
}

/// What is found of a file, with what was read of it and the verdict on its network.
#[derive(Drop)]
pub(crate) struct JudgedFile {
    pub(crate) judged: Judged,
    pub(crate) file: NetworkFile,
    pub(crate) found: Option<Result<DecideFinding, AllocError>>,
}

/// What is found of a file. Want of memory is found of it too.
pub(crate) fn judge_file<T: VerdictWorkers, S: Storage>(
    workers: &T,
    alloc: Global,
    storage: &S,
    options: &AuditOptions<'_>,
    named: NumberedFile<'_>,
) -> JudgedFile
    ensures judged { IsFinding options.now (S.gives storage.now) (S.keeps storage.now) named.entry.number named.entry.path.now (finding_of named.entry.path.now result.judged) }
    ensures read { IsFileGiven (S.gives storage.now named.entry.path.now) result.file }
    ensures found { HoldsOfFound IsDecideFinding (network_of result.file) result.found }
    ensures told { IsFoundOfFile options.now (S.keeps storage.now) named.entry.number named.entry.path.now result.file result.found (finding_of named.entry.path.now result.judged) }
{
    let file = read_file(alloc, storage, named.path);
    let found = match file.network() {
        Some(network) => Some(find_verdict(workers, alloc, network)),
        None => None,
    };
    let judged = file_or_memory(alloc, storage, options, named, &file, &found);
    JudgedFile {
        judged,
        file,
        found,
    }
}

/// The same, where no more than that is wanted.
pub(crate) fn judge<T: VerdictWorkers, S: Storage>(
    workers: &T,
    alloc: Global,
    storage: &S,
    options: &AuditOptions<'_>,
    named: NumberedFile<'_>,
) -> Judged
    ensures { IsFinding options.now (S.gives storage.now) (S.keeps storage.now) named.entry.number named.entry.path.now (finding_of named.entry.path.now result) }
{
    let all = judge_file(workers, alloc, storage, options, named);
    all.file.discard();
    all.judged
}
