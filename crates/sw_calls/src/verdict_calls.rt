//! The calls of the program that has the engines of `sw_app` alone.
use crate::files::{check_files, decide_file, migrate_file, report_file, route_file, write_sample};
use crate::given::{given_call, given_texts, given_words};
use crate::telling::telling_of;
use crate::told::{no_telling, tell_refused, told_end};
use std::io::{self, Write};
use std::rt::{Env, Files};
use sw_app::VerdictWorkers;
use sw_args::{Asked, Call};
use sw_engine::SystemFiles;
use sw_text::Ended;

/// What is told of a call that the program does not have.
const OTHER_CALL: &str =
    "this program has route, decide, check, report, migrate and init, without --json; swcheck has the rest";

/// Does what the words say that the program was given, and answers its status: `route`, `decide`, `check`, `report`, `migrate` and `init` with a
/// text as their answer. It gives no hints.
pub fn run_verdicts<R: Env + Files + Print + Eprint + AllocGlobal, C: VerdictWorkers>(
    rt: &R,
    workers: &C,
) -> u8 {
    match given_texts(rt) {
        Ok(texts) => match given_words(rt, texts.as_slice()) {
            Ok(words) => run_words(rt, workers, words.as_slice()),
            Err(status) => status,
        },
        Err(status) => status,
    }
}

fn run_words<R: Files + Print + Eprint + AllocGlobal, C: VerdictWorkers>(
    rt: &R,
    workers: &C,
    words: &[&str],
) -> u8 {
    match given_call(rt, words) {
        Ok(asked) => run_asked(rt, workers, &asked).status(),
        Err(status) => status,
    }
}

fn run_asked<R: Files + Print + Eprint + AllocGlobal, C: VerdictWorkers>(
    rt: &R,
    workers: &C,
    asked: &Asked<'_>,
) -> Ended {
    if telling_of(asked).is_none() {
        return no_telling(rt);
    }
    let mut writer = io::writer(rt);
    told_end(rt, run_call(rt, workers, asked.call, &mut writer))
}

fn run_call<R: Files + Eprint + AllocGlobal, C: VerdictWorkers, W: Write>(
    rt: &R,
    workers: &C,
    call: Call<'_>,
    writer: &mut W,
) -> Ended {
    let files = SystemFiles { host: rt };
    let alloc = rt.alloc();
    match call {
        Call::Route {
            file,
            flow,
            json: false,
        } => route_file(&files, alloc, file, flow, writer).into_ended(),
        Call::Decide { file, json: false } => decide_file(
            &files, workers, alloc, file, writer,
        ).into_ended(),
        Call::Report { file, json: false } => report_file(
            &files, workers, alloc, file, writer,
        ).into_ended(),
        Call::Check {
            file,
            certificate,
            json: false,
        } => check_files(&files, workers, alloc, file, certificate, writer).into_ended(),
        Call::Migrate { file } => migrate_file(&files, alloc, file, writer).ended,
        Call::Init { name } => write_sample(rt, name, writer),
        _ => tell_refused(rt, OTHER_CALL),
    }
}
