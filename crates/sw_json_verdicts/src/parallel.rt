//! Files that are judged side by side.
ghost use Rattle.std.specs.Prelude.{◌<◌, IfOk, length, map};
ghost use Rattle.sw_json_verdicts.specs.Judgements.{AreJudged, IsJudgedAt};

use crate::audit_options::AuditOptions;
use crate::findings::judge;
use crate::judged::{Judged, NumberedFile};
use crate::stores::Storage;
use rayon::prelude::*;
use std::alloc::{AllocError, Global};
use std::thread::Threads;
use sw_graph::OneByOne;

/// What is found of the file of that place.
fn judged_at<S: Storage>(
    alloc: Global,
    storage: &S,
    options: &AuditOptions<'_>,
    paths: &[&str],
    place: usize,
) -> Judged
    requires { place < length paths.now }
    ensures { IsJudgedAt options.now (S.gives storage.now) (S.keeps storage.now) (map (λ s. s.now) paths.now) place result }
{
    let number = place + 1;
    let path = paths[place];
    judge(
        &OneByOne,
        alloc,
        storage,
        options,
        NumberedFile { number, path },
    )
}

/// What is found of each file, in the order of the paths, from as many threads as there are processors, each file in one of them.
///
/// # Errors
///
/// There is no memory for the list.
pub(crate) fn all_judged<T: Threads + Sync, S: Storage + Sync>(
    rt: &T,
    alloc: Global,
    storage: &S,
    options: &AuditOptions<'_>,
    paths: &[&str],
) -> Result<Vec<Judged>, AllocError>
    ensures { IfOk result (λ v. AreJudged options.now (S.gives storage.now) (S.keeps storage.now) (map (λ s. s.now) paths.now) v.items) }
{
    (0..paths.len())
        .into_par_iter()
        .with_min_len(1)
        .map(
            |place: usize| -> Judged
                requires { place < length paths.now }
                ensures { IsJudgedAt options.entry.now (S.gives storage.entry.now) (S.keeps storage.entry.now) (map (λ s. s.now) paths.entry.now) place result }
            { judged_at(alloc, storage, options, paths, place) },
        )
        .collect(rt, alloc)
}
