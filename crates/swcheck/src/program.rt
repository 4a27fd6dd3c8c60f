//! The call that the words ask for, and what is said when it has ended.
ghost use Rattle.std.specs.Prelude.{◌≡◌};
ghost use Rattle.sw_args.specs.CommandLine.{HasWorkers};

use crate::asked::{file_of, second_of};
use crate::call_end::CallEnd;
use crate::commands::run_call;
use crate::noting_writer::{Failed, NotingWriter, STANDARD_OUTPUT};
use crate::told::tell_text;
use crate::unread::{read_failure, tell_failed};
use std::io;
use std::rt::{Env, Files};
use std::sync::Wait;
use std::thread::Threads;
use sw_args::{Asked, Call};
use sw_calls::{Hints, given_call, given_texts, given_words, no_telling, telling_of, told_end};
use sw_engine::SystemFiles;
use sw_search::VerdictWorkers;
use sw_text::Ended;

/// Does what the words say that the program was given, and answers its status. `files` opens the files that they name.
pub(crate) fn run_program<
    R: Env + Files + Print + Eprint + AllocGlobal + Threads + Wait + Sync,
    C: VerdictWorkers,
>(rt: &R, files: &SystemFiles<'_, HostRuntime>, workers: &C) -> u8 {
    match given_texts(rt) {
        Ok(texts) => match given_words(rt, texts.as_slice()) {
            Ok(words) => run_words(rt, files, workers, words.as_slice()),
            Err(status) => status,
        },
        Err(status) => status,
    }
}

fn run_words<R: Files + Print + Eprint + AllocGlobal + Threads + Wait + Sync, C: VerdictWorkers>(
    rt: &R,
    files: &SystemFiles<'_, HostRuntime>,
    workers: &C,
    words: &[&str],
) -> u8 {
    match given_call(rt, words) {
        Ok(asked) => run_asked(rt, files, workers, &asked).status(),
        Err(status) => status,
    }
}

fn run_asked<R: Files + Print + Eprint + AllocGlobal + Threads + Wait + Sync, C: VerdictWorkers>(
    rt: &R,
    files: &SystemFiles<'_, HostRuntime>,
    workers: &C,
    asked: &Asked<'_>,
) -> Ended
    requires { HasWorkers asked.now.call }
{
    let call = &asked.call;
    let Some(telling) = telling_of(asked) else {
        return no_telling(rt);
    };
    let mut writer = NotingWriter::new(STANDARD_OUTPUT, io::writer(rt));
    let end = run_call(rt, files, workers, telling, call, &asked.files, &mut writer);
    told_end(rt, end.ended);
    tell_more(rt, call, telling.hints, end, writer.unwritten)
}

/// Tells which of the call's files can't be read, and why.
fn tell_unread_files<R: Files + Eprint + AllocGlobal>(rt: &R, call: &Call<'_>) {
    if let Some(file) = file_of(call) {
        tell_failed(rt, read_failure(rt, file));
    }
    if let Some(second) = second_of(call) {
        tell_failed(rt, read_failure(rt, second));
    }
}

/// Tells what to do about the way the call ended, if hints are wanted: `unwritten` is what could not be written, as far as that is known. How it
/// ended stays as it is.
fn tell_more<R: Files + Eprint + AllocGlobal>(
    rt: &R,
    call: &Call<'_>,
    hints: Hints,
    end: CallEnd,
    unwritten: Option<Failed<'_>>,
) -> Ended
    ensures { result ≡ end.ended }
{
    let ended = end.ended;
    match (hints, ended) {
        (Hints::Auto, Ended::ReadFailed) => tell_unread_files(rt, call),
        (Hints::Auto, Ended::WriteFailed) => tell_failed(rt, unwritten),
        _ => {
            tell_text(rt, end.hint.as_deref());
            tell_text(rt, end.notes.as_deref());
        }
    }
    ended
}
