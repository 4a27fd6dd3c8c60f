//! What each call does, and what is said of its end on standard error.
ghost use Rattle.std.specs.Prelude.{◌<◌};
ghost use Rattle.sw_args.specs.CommandLine.{HasWorkers};

use crate::call_end::{
    CallEnd, call_end, faulty_end, hint_text, hinted_end, is_noted, noted_end, second_end,
};
use crate::folder_ends::audit_end;
use crate::found_hints::{
    check_hint, decide_hint, draw_hint, hinted_cycle, mend_hint, replay_hint, report_hint,
    rmap_hint, route_hint, run_hint, witness_hint,
};
use crate::notes::{explained_notes_on, flow_note_on, flowless_notes_on};
use crate::noting_writer::NotingWriter;
use crate::objects::{RELEASE, object, objects};
use crate::opened::open_both;
use crate::recorded::{Job, is_schedule_read, run_load, tell_besides};
use crate::rmap_words::access_of;
use std::alloc::Global;
use std::io::Write;
use std::rt::Files;
use std::sync::Wait;
use std::thread::Threads;
use sw_app::{report, route};
use sw_app_rmap::{Request, rmap};
use sw_args::Call;
use sw_calls::{
    Telling, check_files, check_files_in_form, decide_file, migrate_file, tell_refused,
    write_sample,
};
use sw_changes::{ChangeValues, margin, mend};
use sw_engine::{CommandEnd, FileSystem, Lines, SystemFiles};
use sw_explain::{DrawOptions, ExplainValues, draw, explain};
use sw_hints::unmigrated_hint;
use sw_json_verdicts::{AuditEnd, AuditOptions, Disk, VerdictValues, audit, audit_one};
use sw_runs::{RunValues, replay, witness};
use sw_search::VerdictWorkers;
use sw_text::Ended;
use sw_text::statuses::FAULTY;

/// What is told of words of `rmap` that ask for no command.
const NO_ACCESS: &str = "ACTION must be read or write, and --no-ack goes only with write";

// ---- commands with one network file

fn call_route<F: FileSystem, W: Write>(
    files: &F,
    alloc: Global,
    telling: Telling,
    file: &str,
    flow: &str,
    json: bool,
    writer: &mut W,
) -> CallEnd {
    let form = object(VerdictValues, file);
    let end = match files.open(file) {
        Some(mut reader) if json => route(alloc, &mut reader, flow, &form, writer),
        Some(mut reader) => route(alloc, &mut reader, flow, &Lines, writer),
        None => CommandEnd::of_unread(),
    };
    let notes = if is_noted(telling, end.ended) {
        flow_note_on(alloc, &end.file, flow)
    } else {
        None
    };
    let ended = call_end(alloc, telling, file, end, |network, text, _second, found| {
        route_hint(alloc, telling, (file, text), flow, network, found)
    });
    ended.with_notes(notes)
}

fn call_report<F: FileSystem, C: VerdictWorkers, W: Write>(
    files: &F,
    workers: &C,
    alloc: Global,
    telling: Telling,
    file: &str,
    json: bool,
    writer: &mut W,
) -> CallEnd {
    let form = object(VerdictValues, file);
    let end = match files.open(file) {
        Some(mut reader) if json => report(workers, alloc, &mut reader, &form, writer),
        Some(mut reader) => report(workers, alloc, &mut reader, &Lines, writer),
        None => CommandEnd::of_unread(),
    };
    noted_end(alloc, telling, file, end, |network, text, _second, found| {
        report_hint(alloc, telling, (file, text), network, found)
    })
}

fn call_decide<F: FileSystem, C: VerdictWorkers, W: Write>(
    files: &F,
    workers: &C,
    alloc: Global,
    telling: Telling,
    file: &str,
    writer: &mut W,
) -> CallEnd {
    let end = decide_file(files, workers, alloc, file, writer);
    let cycle = hinted_cycle(workers, alloc, telling, &end);
    noted_end(alloc, telling, file, end, |network, text, _second, found| {
        decide_hint(alloc, telling, (file, text), network, found, &cycle)
    })
}

fn call_explain<F: FileSystem, C: VerdictWorkers, W: Write>(
    files: &F,
    workers: &C,
    alloc: Global,
    telling: Telling,
    file: &str,
    all: bool,
    json: bool,
    writer: &mut W,
) -> CallEnd {
    let form = object(ExplainValues, file);
    let end = match files.open(file) {
        Some(mut reader) if json => explain(workers, alloc, &mut reader, true, &form, writer),
        Some(mut reader) => explain(workers, alloc, &mut reader, all, &Lines, writer),
        None => CommandEnd::of_unread(),
    };
    let notes = if is_noted(telling, end.ended) {
        explained_notes_on(workers, alloc, telling.notes, &end)
    } else {
        None
    };
    let ended = call_end(
        alloc,
        telling,
        file,
        end,
        |_network, _text, _second, _found| Ok(None),
    );
    ended.with_notes(notes)
}

fn call_draw<F: FileSystem, C: VerdictWorkers, W: Write>(
    files: &F,
    workers: &C,
    alloc: Global,
    telling: Telling,
    file: &str,
    options: &DrawOptions<'_>,
    writer: &mut W,
) -> CallEnd {
    let end = match files.open(file) {
        Some(mut reader) => draw(workers, alloc, &mut reader, options, &Lines, writer),
        None => CommandEnd::of_unread(),
    };
    call_end(
        alloc,
        telling,
        file,
        end,
        |network, _text, _second, found| { draw_hint(alloc, file, options.flow, network, found) },
    )
}

fn call_rmap<F: FileSystem, W: Write>(
    files: &F,
    alloc: Global,
    telling: Telling,
    file: &str,
    request: &Request<'_>,
    writer: &mut W,
) -> CallEnd {
    let end = match files.open(file) {
        Some(mut reader) => rmap(alloc, &mut reader, request, &Lines, writer),
        None => CommandEnd::of_unread(),
    };
    call_end(alloc, telling, file, end, |network, text, _second, found| {
        rmap_hint(alloc, (file, text), request, network, found)
    })
}

fn call_mend<F: FileSystem, C: VerdictWorkers, W: Write>(
    files: &F,
    workers: &C,
    alloc: Global,
    telling: Telling,
    file: &str,
    pairs: bool,
    json: bool,
    writer: &mut W,
) -> CallEnd {
    let form = object(ChangeValues, file);
    let end = match files.open(file) {
        Some(mut reader) if json => mend(workers, alloc, &mut reader, pairs, &form, writer),
        Some(mut reader) => mend(workers, alloc, &mut reader, pairs, &Lines, writer),
        None => CommandEnd::of_unread(),
    };
    call_end(alloc, telling, file, end, |network, text, _second, found| {
        mend_hint(alloc, (file, text), network, found)
    })
}

fn call_margin<F: FileSystem, C: VerdictWorkers, W: Write>(
    files: &F,
    workers: &C,
    alloc: Global,
    telling: Telling,
    file: &str,
    json: bool,
    writer: &mut W,
) -> CallEnd {
    let form = object(ChangeValues, file);
    let end = match files.open(file) {
        Some(mut reader) if json => margin(workers, alloc, &mut reader, &form, writer),
        Some(mut reader) => margin(workers, alloc, &mut reader, &Lines, writer),
        None => CommandEnd::of_unread(),
    };
    call_end(
        alloc,
        telling,
        file,
        end,
        |_network, _text, _second, _found| Ok(None),
    )
}

fn call_witness<F: FileSystem, C: VerdictWorkers, W: Write>(
    files: &F,
    workers: &C,
    alloc: Global,
    telling: Telling,
    file: &str,
    tries: u32,
    seed: u32,
    writer: &mut W,
) -> CallEnd {
    let end = match files.open(file) {
        Some(mut reader) => witness(workers, alloc, &mut reader, tries, seed, &Lines, writer),
        None => CommandEnd::of_unread(),
    };
    call_end(alloc, telling, file, end, |network, text, _second, found| {
        witness_hint(alloc, (file, text), network, found)
    })
}

// ---- other commands

fn call_check<F: FileSystem, C: VerdictWorkers, W: Write>(
    files: &F,
    workers: &C,
    alloc: Global,
    telling: Telling,
    paths: (&str, &str),
    json: bool,
    writer: &mut W,
) -> CallEnd {
    let end = if json {
        let form = objects(VerdictValues, paths.0, paths.1);
        check_files_in_form(files, workers, alloc, paths.0, paths.1, &form, writer)
    } else {
        check_files(files, workers, alloc, paths.0, paths.1, writer)
    };
    second_end(
        alloc,
        telling,
        paths,
        end,
        |network, _text, second, found| { check_hint(alloc, paths, network, second, found) },
    )
}

fn call_replay<F: FileSystem, W: Write>(
    files: &F,
    alloc: Global,
    telling: Telling,
    file: &str,
    path: &str,
    json: bool,
    writer: &mut W,
) -> CallEnd {
    let form = objects(RunValues, file, path);
    let end = match open_both(files, file, path) {
        Some((mut network, mut schedule)) if json => {
            replay(alloc, &mut network, &mut schedule, &form, writer)
        }
        Some((mut network, mut schedule)) => {
            replay(alloc, &mut network, &mut schedule, &Lines, writer)
        }
        None => CommandEnd::of_unread(),
    };
    let paths = (file, path);
    second_end(
        alloc,
        telling,
        paths,
        end,
        |network, _text, second, found| { replay_hint(alloc, path, network, second, found) },
    )
}

fn call_run<'a, R: Files + Eprint + AllocGlobal + Threads + Wait + Sync, F: FileSystem, W: Write>(
    rt: &R,
    files: &F,
    telling: Telling,
    job: &Job<'a>,
    writer: &mut NotingWriter<'a, W>,
) -> CallEnd
    requires { 0 < job.now.workers }
{
    if is_schedule_read(rt, job) {
        return CallEnd::from_ended(tell_refused(rt, "--schedule names a file that the run reads"));
    }
    let alloc = rt.alloc();
    let end = run_load(rt, files, job, writer);
    tell_besides(rt, &end);
    let paths = (job.network, job.load);
    second_end(
        alloc,
        telling,
        paths,
        end,
        |network, _text, second, found| { run_hint(alloc, job.load, network, second, found) },
    )
}

fn call_migrate<F: FileSystem, W: Write>(
    files: &F,
    alloc: Global,
    telling: Telling,
    file: &str,
    writer: &mut W,
) -> CallEnd {
    let end = migrate_file(files, alloc, file, writer);
    match (end.ended, &end.faulty) {
        // The text has no fault, and is of a later version or too long.
        (Ended::Status(FAULTY), None) => {
            let hint = hint_text(alloc, file, unmigrated_hint(alloc));
            hinted_end(telling, end.ended, hint)
        }
        (ended, faulty) => faulty_end(alloc, telling, file, ended, faulty),
    }
}

/// An audit of these files.
fn run_audit<R: AllocGlobal + Threads + Sync, C: VerdictWorkers, W: Write>(
    rt: &R,
    files: &SystemFiles<'_, HostRuntime>,
    workers: &C,
    paths: &[&str],
    json: bool,
    quiet: bool,
    certificates: Option<&str>,
    writer: &mut W,
) -> AuditEnd {
    let options = AuditOptions {
        json,
        quiet,
        certificates: certificates.is_some(),
        release: RELEASE,
    };
    let disk = Disk {
        files,
        folder: certificates.unwrap_or(""),
    };
    audit(rt, workers, rt.alloc(), &disk, paths, &options, writer)
}

/// The object of `decide` is an audit's of one file.
fn call_decide_object<F: FileSystem, C: VerdictWorkers, W: Write>(
    files: &F,
    workers: &C,
    alloc: Global,
    telling: Telling,
    file: &str,
    writer: &mut W,
) -> CallEnd {
    let options = AuditOptions {
        json: true,
        quiet: false,
        certificates: false,
        release: RELEASE,
    };
    let disk = Disk { files, folder: "" };
    let end = audit_one(workers, alloc, &disk, file, &options, writer);
    let cycle = hinted_cycle(workers, alloc, telling, &end);
    call_end(alloc, telling, file, end, |network, text, _second, found| {
        decide_hint(alloc, telling, (file, text), network, found, &cycle)
    })
}

/// Does what the call asks for; `paths` are those of an audit.
pub(crate) fn run_call<
    'a,
    R: Files + Eprint + AllocGlobal + Threads + Wait + Sync,
    C: VerdictWorkers,
    W: Write,
>(
    rt: &R,
    files: &SystemFiles<'_, HostRuntime>,
    workers: &C,
    telling: Telling,
    call: &Call<'a>,
    paths: &[&str],
    writer: &mut NotingWriter<'a, W>,
) -> CallEnd
    requires { HasWorkers call.now }
{
    let alloc = rt.alloc();
    match *call {
        Call::Route { file, flow, json } => call_route(
            files, alloc, telling, file, flow, json, writer,
        ),
        Call::Decide { file, json: true } => {
            call_decide_object(files, workers, alloc, telling, file, writer)
        }
        Call::Decide { file, .. } => call_decide(files, workers, alloc, telling, file, writer),
        Call::Report { file, json } => call_report(
            files, workers, alloc, telling, file, json, writer,
        ),
        Call::Check {
            file,
            certificate,
            json,
        } => call_check(
            files,
            workers,
            alloc,
            telling,
            (file, certificate),
            json,
            writer,
        ),
        Call::Replay {
            file,
            schedule,
            json,
        } => call_replay(files, alloc, telling, file, schedule, json, writer),
        Call::Run {
            file,
            load,
            workers,
            limit,
            schedule,
            summary,
            json,
        } => {
            let job = Job {
                network: file,
                load,
                workers,
                limit,
                schedule,
                summary,
                json,
            };
            call_run(rt, files, telling, &job, writer)
        }
        Call::Migrate { file } => call_migrate(files, alloc, telling, file, writer),
        Call::Explain { file, all, json } => {
            call_explain(files, workers, alloc, telling, file, all, json, writer)
        }
        Call::Draw {
            file,
            flow,
            cycle,
            numbers,
        } => {
            let options = DrawOptions {
                flow,
                cycle,
                numbers,
            };
            call_draw(files, workers, alloc, telling, file, &options, writer)
        }
        Call::Rmap {
            file,
            flow,
            action,
            address,
            value,
            unacknowledged,
            transaction,
        } => match access_of(action, value, unacknowledged) {
            Some(access) => {
                let request = Request {
                    flow,
                    access,
                    address,
                    transaction,
                };
                call_rmap(files, alloc, telling, file, &request, writer)
            }
            None => CallEnd::from_ended(tell_refused(rt, NO_ACCESS)),
        },
        Call::Mend { file, pairs, json } => {
            call_mend(files, workers, alloc, telling, file, pairs, json, writer)
        }
        Call::Margin { file, json } => call_margin(
            files, workers, alloc, telling, file, json, writer,
        ),
        Call::Witness { file, tries, seed } => {
            call_witness(files, workers, alloc, telling, file, tries, seed, writer)
        }
        Call::Audit {
            json,
            quiet,
            certificates,
        } => {
            let end = run_audit(rt, files, workers, paths, json, quiet, certificates, writer);
            let notes = match json {
                true => None,
                false => flowless_notes_on(alloc, telling, paths, &end.without_flows),
            };
            audit_end(rt, alloc, telling, certificates, end.ended).with_notes(notes)
        }
        Call::Init { name } => CallEnd::from_ended(write_sample(rt, name, writer)),
    }
}
