//! A run, and what is wanted of it besides its answer: its steps as a schedule, a summary.
ghost use Rattle.std.specs.Prelude.{◌<◌};

use crate::noting_writer::{Failed, NotingWriter};
use crate::objects::objects;
use crate::opened::open_both;
use crate::told::{tell_long, tell_text};
use std::fs;
use std::io::{self, Read, Write};
use std::os::unix::fs::MetadataExt;
use std::rt::Files;
use std::sync::Wait;
use std::thread::Threads;
use sw_engine::{CommandEnd, FileSystem, Lines};
use sw_runs::{Open, Options, RunFinding, RunSchedule, RunValues, Wants, run_recorded};
use sw_text::Ended;

/// What is run, by so many threads and in at most so many steps, and what is wanted besides: the file in which the steps are to be written, a
/// summary on standard error, and the answer as an object of JSON.
#[derive(Clone, Copy)]
pub(crate) struct Job<'a> {
    pub(crate) network: &'a str,
    pub(crate) load: &'a str,
    pub(crate) workers: u32,
    pub(crate) limit: u32,
    pub(crate) schedule: Option<&'a str>,
    pub(crate) summary: bool,
    pub(crate) json: bool,
}

/// Tells that a schedule is too long, or else the summary, if there is one, but where a write failed.
pub(crate) fn tell_besides(rt: &impl Eprint, end: &CommandEnd<RunFinding>) {
    let Some(Ok(RunFinding::Ran(report))) = &end.found else {
        return;
    };
    match (end.ended, &report.schedule) {
        (Ended::Status(_), Some(RunSchedule::TooLong)) => tell_long(rt),
        (Ended::Status(_), _) => tell_text(rt, report.summary.as_deref()),
        _ => {}
    }
}

/// Whether both paths lead to one file: it has one device and one number.
fn are_same<R: Files>(rt: &R, path: &str, other: &str) -> bool {
    match (fs::metadata(rt, path), fs::metadata(rt, other)) {
        (Ok(known), Ok(other)) => known.dev() == other.dev() && known.ino() == other.ino(),
        _ => false,
    }
}

/// Runs the load, and tells what comes of it. The schedule, where one is wanted, is written to `schedule`.
fn run_job<R: AllocGlobal + Threads + Wait + Sync, N: Read, L: Read, W: Write, S: Write>(
    rt: &R,
    job: &Job<'_>,
    network: &mut N,
    load: &mut L,
    writer: &mut W,
    schedule: &mut S,
) -> CommandEnd<RunFinding>
    requires { 0 < job.now.workers }
{
    let options = Options {
        workers: job.workers as usize,
        limit: job.limit as usize,
    };
    let wants = Wants {
        schedule: job.schedule.is_some(),
        summary: job.summary,
    };
    let alloc = rt.alloc();
    if job.json {
        let form = objects(RunValues, job.network, job.load);
        return run_recorded(
            rt, alloc, network, load, options, wants, &Open, &form, writer, schedule,
        );
    }
    run_recorded(
        rt, alloc, network, load, options, wants, &Open, &Lines, writer, schedule,
    )
}

/// Runs the load. Where a schedule is wanted, the run's steps are written to that file, which is made, or emptied, before the run.
fn run_opened<'a, R: Files + AllocGlobal + Threads + Wait + Sync, N: Read, L: Read, W: Write>(
    rt: &R,
    job: &Job<'a>,
    network: &mut N,
    load: &mut L,
    writer: &mut NotingWriter<'a, W>,
) -> CommandEnd<RunFinding>
    requires { 0 < job.now.workers }
{
    let Some(path) = job.schedule else {
        return run_job(rt, job, network, load, writer, &mut io::sink());
    };
    match fs::create(rt, path) {
        Ok(file) => {
            let mut schedule = NotingWriter::new(path, file);
            let end = run_job(rt, job, network, load, writer, &mut schedule);
            writer.unwritten = schedule.unwritten.or(writer.unwritten);
            end
        }
        Err(error) => {
            let kind = error.kind();
            writer.unwritten = Some(Failed { path, kind });
            CommandEnd {
                ended: Ended::WriteFailed,
                ..CommandEnd::of_unread()
            }
        }
    }
}

/// Whether the schedule is to be written over a file that is read.
pub(crate) fn is_schedule_read<R: Files>(rt: &R, job: &Job<'_>) -> bool {
    match job.schedule {
        Some(path) => are_same(rt, path, job.network) || are_same(rt, path, job.load),
        None => false,
    }
}

/// Runs the load, and tells what comes of it. The schedule's file may be none of those that are read.
pub(crate) fn run_load<'a, R: Files + AllocGlobal + Threads + Wait + Sync, F: FileSystem, W: Write>(
    rt: &R,
    files: &F,
    job: &Job<'a>,
    writer: &mut NotingWriter<'a, W>,
) -> CommandEnd<RunFinding>
    requires { 0 < job.now.workers }
{
    match open_both(files, job.network, job.load) {
        Some((mut network, mut load)) => run_opened(rt, job, &mut network, &mut load, writer),
        None => CommandEnd::of_unread(),
    }
}
