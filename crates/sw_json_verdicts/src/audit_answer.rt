//! What `audit` answers.
ghost use Rattle.std.specs.Prelude.{◌≡◌, ◌∷◌, [], IfOk, map, max, string_bytes, unwrap_or};
ghost use Rattle.std.specs.List.{reduce};
ghost use Rattle.sw_json_verdicts.specs.AuditAnswers.{IsNotedAnswer, SaysFindings, numbers_of};
ghost use Rattle.sw_json_verdicts.specs.Findings.{IsFinding};
ghost use Rattle.sw_json_verdicts.specs.Judgements.{AreJudged, finding_of, findings_of};

use crate::audit_options::AuditOptions;
use crate::audit_texts::audit_text;
use crate::findings::judge;
use crate::judged::{Judged, NumberedFile};
use crate::parallel::all_judged;
use crate::stores::Storage;
use std::alloc::{AllocError, Global};
use std::thread::Threads;
use sw_json::laws::{
    entries_are_plain, faults_are_plain, kinds_are_plain, plain_at_more, verdicts_are_plain,
};
use sw_search::VerdictWorkers;
use sw_text::Answer;
use sw_text::statuses::GOOD;

/// One file's judgement as a list.
fn list_of(alloc: Global, judged: Judged) -> Result<Vec<Judged>, AllocError>
    ensures { IfOk result (λ v. v.items ≡ judged ∷ []) }
{
    let mut all = Vec::new(alloc);
    all.push(judged)?;
    Ok(all)
}

/// The worst status is the greatest.
fn worst_status(all: &[Judged]) -> u8
    ensures { result ≡ unwrap_or (reduce max (map (λ j. j.status) all.now)) 0 }
{
    let mut worst = GOOD;
    for judged in all {
        worst = worst.max(judged.status);
    }
    worst
}

/// The numbers of the files that are networks without flows, from 1.
fn numbers_without_flows(alloc: Global, all: &[Judged]) -> Result<Vec<usize>, AllocError>
    ensures { IfOk result (λ v. v.items ≡ numbers_of (map (λ j. j.flowless) all.now)) }
{
    let mut numbers = Vec::new(alloc);
    for (place, judged) in all.iter().enumerate() {
        if judged.flowless {
            numbers.push(place + 1)?;
        }
    }
    Ok(numbers)
}

/// An answer, with the numbers of the files that are networks without flows, from 1.
#[derive(Drop)]
pub(crate) struct NotedAnswer {
    pub(crate) answer: Answer,
    pub(crate) without_flows: Vec<usize>,
}

/// The answer to files of these paths, of which this was found.
fn judged_answer<S: Storage>(
    alloc: Global,
    storage: &S,
    paths: &[&str],
    options: &AuditOptions<'_>,
    all: Vec<Judged>,
) -> Result<NotedAnswer, AllocError>
    requires { AreJudged options.now (S.gives storage.now) (S.keeps storage.now) (map (λ s. s.now) paths.now) all.items }
    ensures of_all { IfOk result (λ a. IsNotedAnswer options.now (S.gives storage.now) (S.keeps storage.now) (map (λ s. s.now) paths.now) a.without_flows.items (string_bytes a.answer.text) a.answer.status) }
    ensures said { IfOk result (λ a. SaysFindings options.now (map (λ s. s.now) paths.now) (findings_of (map (λ s. s.now) paths.now) all.items) (string_bytes a.answer.text) a.answer.status) }
{
    plain_at_more();
    verdicts_are_plain();
    faults_are_plain();
    kinds_are_plain();
    entries_are_plain();
    let status = worst_status(&all);
    let without_flows = numbers_without_flows(alloc, &all)?;
    let text = audit_text(alloc, options, paths, all)?;
    Ok(NotedAnswer {
        answer: Answer { text, status },
        without_flows,
    })
}

/// The answer to one file, of which this was found.
///
/// # Errors
///
/// There is no memory for the answer.
pub(crate) fn answer_to_one<S: Storage>(
    alloc: Global,
    storage: &S,
    path: &str,
    options: &AuditOptions<'_>,
    judged: Judged,
) -> Result<NotedAnswer, AllocError>
    requires { IsFinding options.now (S.gives storage.now) (S.keeps storage.now) 1 path.now (finding_of path.now judged) }
    ensures of_all { IfOk result (λ a. IsNotedAnswer options.now (S.gives storage.now) (S.keeps storage.now) (path.now ∷ []) a.without_flows.items (string_bytes a.answer.text) a.answer.status) }
    ensures said { IfOk result (λ a. SaysFindings options.now (path.now ∷ []) (finding_of path.now judged ∷ []) (string_bytes a.answer.text) a.answer.status) }
{
    let all = list_of(alloc, judged)?;
    judged_answer(alloc, storage, &[path], options, all)
}

/// The answer to files of these paths: several are judged side by side, and one by the workers.
///
/// # Errors
///
/// There is no memory for the answer.
pub(crate) fn audit_answer<T: Threads + Sync, C: VerdictWorkers, S: Storage + Sync>(
    rt: &T,
    workers: &C,
    alloc: Global,
    storage: &S,
    paths: &[&str],
    options: &AuditOptions<'_>,
) -> Result<NotedAnswer, AllocError>
    ensures { IfOk result (λ a. IsNotedAnswer options.now (S.gives storage.now) (S.keeps storage.now) (map (λ s. s.now) paths.now) a.without_flows.items (string_bytes a.answer.text) a.answer.status) }
{
    match paths {
        [path] => {
            let number = 1;
            let named = NumberedFile { number, path };
            let judged = judge(workers, alloc, storage, options, named);
            answer_to_one(alloc, storage, path, options, judged)
        }
        _ => {
            let all = all_judged(rt, alloc, storage, options, paths)?;
            judged_answer(alloc, storage, paths, options, all)
        }
    }
}
