//! The engine: it has files judged, and writes one text.
ghost use Rattle.std.specs.Prelude.{◌∷◌, [], IfOk, map, string_bytes};
ghost use Rattle.sw_app.specs.VerdictAnswers.{IsDecideFinding};
ghost use Rattle.sw_engine.specs.Files.{network_of};
ghost use Rattle.sw_engine.specs.Tellings.{HoldsOfFound};
ghost use Rattle.sw_json_verdicts.specs.AuditAnswers.{IsAnswerOfFile, IsAuditAnswer, IsAuditTold, IsNotedAnswer, SaysFindings, TellsAudit};
ghost use Rattle.sw_json_verdicts.specs.Findings.{IsFileGiven, IsFinding};
ghost use Rattle.sw_json_verdicts.specs.Judgements.{finding_of};

use crate::audit_answer::{NotedAnswer, answer_to_one, audit_answer};
use crate::audit_options::AuditOptions;
use crate::findings::{JudgedFile, judge_file};
use crate::judged::{Judged, NumberedFile};
use crate::stores::Storage;
use std::alloc::{AllocError, Global};
use std::io::Write;
use std::thread::Threads;
use sw_app::DecideFinding;
use sw_engine::CommandEnd;
use sw_search::VerdictWorkers;
use sw_text::{Answer, Ended, tell};

/// Writes an answer, or that memory was wanted, as a line or as an object.
fn tell_audit<W: Write>(json: bool, answer: Result<Answer, AllocError>, writer: &mut W) -> Ended
    ensures { IsAuditTold json answer (W.contents writer.old) (W.contents writer.new) result }
{
    match answer {
        Ok(answer) => tell(answer.text.as_str(), answer.status, writer),
        Err(_) => {
            if json {
                return sw_json::tell_memory(writer);
            }
            sw_text::tell_memory(writer)
        }
    }
}

/// How an audit ended.
#[derive(Drop)]
pub struct AuditEnd {
    /// How what was found was told.
    pub ended: Ended,
    /// The numbers of the files that are networks without flows, from 1, rising; none if there was no memory for the answer.
    pub without_flows: Vec<usize>,
}

/// The verdicts on the files of these paths, in their order: a line for each, or one JSON object. The status is the worst of them: 6 where a
/// file can't be read or a certificate not kept, 5 where there was no memory for one, 3 where one has a fault, 1 where a network is cyclic
/// or misrouted, and 0 where each is free; then no network of them ever locks up. Threads share the files; a file alone is left
/// to the workers.
pub fn audit<T: Threads + Sync, C: VerdictWorkers, S: Storage + Sync, W: Write>(
    rt: &T,
    workers: &C,
    alloc: Global,
    storage: &S,
    paths: &[&str],
    options: &AuditOptions<'_>,
    writer: &mut W,
) -> AuditEnd
    ensures ended { TellsAudit options.now.json (W.contents writer.old) (W.contents writer.new) (IsAuditAnswer options.now (S.gives storage.now) (S.keeps storage.now) (map (λ s. s.now) paths.now)) result.ended }
    ensures noted { TellsAudit options.now.json (W.contents writer.old) (W.contents writer.new) (IsNotedAnswer options.now (S.gives storage.now) (S.keeps storage.now) (map (λ s. s.now) paths.now) result.without_flows.items) result.ended }
{
    match audit_answer(rt, workers, alloc, storage, paths, options) {
        Ok(noted) => {
            let NotedAnswer {
                answer,
                without_flows,
            } = noted;
            let ended = tell_audit(options.json, Ok(answer), writer);
            AuditEnd {
                ended,
                without_flows,
            }
        }
        Err(error) => {
            let ended = tell_audit(options.json, Err(error), writer);
            AuditEnd {
                ended,
                without_flows: Vec::new(alloc),
            }
        }
    }
}

/// The answer to one file, of which this was found.
fn one_answer<S: Storage>(
    alloc: Global,
    storage: &S,
    path: &str,
    options: &AuditOptions<'_>,
    judged: Judged,
) -> Result<Answer, AllocError>
    requires { IsFinding options.now (S.gives storage.now) (S.keeps storage.now) 1 path.now (finding_of path.now judged) }
    ensures of_all { IfOk result (λ a. IsAuditAnswer options.now (S.gives storage.now) (S.keeps storage.now) (path.now ∷ []) (string_bytes a.text) a.status) }
    ensures said { IfOk result (λ a. SaysFindings options.now (path.now ∷ []) (finding_of path.now judged ∷ []) (string_bytes a.text) a.status) }
{
    let noted = answer_to_one(alloc, storage, path, options, judged)?;
    Ok(noted.answer)
}

/// The same of one file, with what was read of it and the verdict on its network. It needs nothing of the host.
pub fn audit_one<C: VerdictWorkers, S: Storage, W: Write>(
    workers: &C,
    alloc: Global,
    storage: &S,
    path: &str,
    options: &AuditOptions<'_>,
    writer: &mut W,
) -> CommandEnd<DecideFinding>
    ensures ended { TellsAudit options.now.json (W.contents writer.old) (W.contents writer.new) (IsAuditAnswer options.now (S.gives storage.now) (S.keeps storage.now) (path.now ∷ [])) result.ended }
    ensures read { IsFileGiven (S.gives storage.now path.now) result.file }
    ensures found { HoldsOfFound IsDecideFinding (network_of result.file) result.found }
    ensures told { TellsAudit options.now.json (W.contents writer.old) (W.contents writer.new) (IsAnswerOfFile options.now (S.keeps storage.now) path.now result.file result.found) result.ended }
{
    let number = 1;
    let JudgedFile {
        judged,
        file,
        found,
    } = judge_file(
        workers,
        alloc,
        storage,
        options,
        NumberedFile { number, path },
    );
    let answer = one_answer(alloc, storage, path, options, judged);
    let ended = tell_audit(options.json, answer, writer);
    CommandEnd {
        ended,
        file,
        second: None,
        found,
    }
}
