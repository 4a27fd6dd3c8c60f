//! What `run` finds, and its engines.
ghost use Rattle.std.specs.Prelude.{◌≡◌, ◌<◌, IfOk, None, Ok, codes, length, option_map, string_bytes};
ghost use Rattle.serde_json.specs.View.{view};
ghost use Rattle.sw_engine.specs.Engines.{AnswersToTwoInForm, EndsByTwo};
ghost use Rattle.sw_engine.specs.Files.{AreFilesRead, network_of, second_given};
ghost use Rattle.sw_engine.specs.Tellings.{AnswersToFile, HoldsOfFound};
ghost use Rattle.sw_json.specs.Answering.{IsCommandOutcome, IsFaultyFile, OfFile};
ghost use Rattle.sw_load.specs.Laws.{AreDeclared};
ghost use Rattle.sw_run.specs.Outcomes.{steps_of};
ghost use Rattle.sw_runs.specs.Recordings.{IsRunTold, IsScheduleTold, schedule_found};
ghost use Rattle.sw_runs.specs.RunAnswers.{AreBesides, IsFoundOfLoad, IsReportOf, IsRunFinding, IsRunOf, IsWantedSchedule, nothing_wanted, run_lines, run_results, run_results_have_status, run_status, schedule_text};
ghost use Rattle.sw_runs.specs.RunTexts.{stop_status};
ghost use Rattle.sw_runs.specs.RunValues.{run_value};
ghost use Rattle.sw_schedule.specs.Runs.{readable_text};
ghost use Rattle.sw_text.specs.Ends.{AreReadInOrder};

use crate::replay_finding::RunValues;
use crate::run_texts::{report_text, stop_status};
use crate::run_values::run_value;
use crate::summaries::wanted_summary;
use std::alloc::{AllocError, Global};
use std::io::{self, Read, Write};
use std::sync::Wait;
use std::thread::Threads;
use sw_char::Packet;
use sw_config::Network;
use sw_engine::{
    AsLines, CommandEnd, Finding, Form, NetworkFile, answer_to_file, read_two_files, second_bytes,
};
use sw_graph::OneByOne;
use sw_json::{CommandOutcome, SecondFile, Values, faulty_file, long_file};
use sw_load::laws::listed_are_declared;
use sw_load::{Load, read_load};
use sw_run::{Gate, Outcome, Stop};
use sw_schedule::{MAX_STEPS, write_steps};
use sw_text::statuses::{FAULTY, UNREAD_OR_UNWRITTEN};
use sw_text::{Answer, ByteAnswer, Ended, FileFault, TextFault, tell_bytes, write_whole};

/// How a run is made.
#[derive(Clone, Copy, PartialEq, Eq)]
pub struct Options {
    /// How many threads work.
    pub workers: usize,
    /// How many steps may be made.
    pub limit: usize,
}

/// What is wanted of a run besides its answer.
#[derive(Clone, Copy)]
pub struct Wants {
    /// The schedule of its steps.
    pub schedule: bool,
    /// The summary of what became of its packets.
    pub summary: bool,
}

/// The schedule of a run's steps.
#[derive(Drop)]
pub enum RunSchedule {
    /// Its text.
    Text(String),
    /// It would be longer than a schedule may be.
    TooLong,
}

/// What a run did, and what is wanted of it besides.
#[derive(Drop)]
pub struct RunReport {
    /// Why it ended.
    pub stop: Stop,
    /// How many characters are undelivered.
    pub undelivered: u64,
    /// The packets that came out at each node, in their order.
    pub came_out: Vec<Vec<Packet>>,
    /// The schedule of its steps, if it is wanted.
    pub schedule: Option<RunSchedule>,
    /// The summary of what became of its packets, if it is wanted.
    pub summary: Option<String>,
}

/// What `run` finds of a network and the text of a load.
#[derive(Drop)]
pub enum RunFinding {
    /// The text has too many bytes.
    TooLong,
    /// The text has this fault.
    Faulty(TextFault),
    /// The load was run.
    Ran(RunReport),
}

impl Finding for RunFinding {
    ghost is_of = { IsRunOf };

    ghost status_of = { run_status };

    fn status(&self) -> u8 {
        match self {
            RunFinding::TooLong | RunFinding::Faulty(_) => FAULTY,
            RunFinding::Ran(report) => stop_status(report.stop),
        }
    }
}

impl AsLines for RunFinding {
    ghost lines_of = { run_lines };

    fn lines(&self, alloc: Global, network: &Network) -> Result<Vec<u8>, AllocError> {
        let text = match self {
            RunFinding::TooLong => Answer::of_long_text(alloc)?.text,
            RunFinding::Faulty(fault) => Answer::of_fault(alloc, fault)?.text,
            RunFinding::Ran(report) => report_text(alloc, network, report)?,
        };
        Ok(text.into_bytes())
    }
}

/// The result for a run.
fn ran_outcome(
    alloc: Global,
    network: &Network,
    report: &RunReport,
) -> Result<CommandOutcome, AllocError>
    requires { length report.now.came_out.items ≡ length network.now.nodes }
    ensures { IfOk result (λ o. IsCommandOutcome (run_value network.now report.now) (stop_status report.now.stop) (view o.result) o.status) }
{
    let status = stop_status(report.stop);
    let result = run_value(alloc, network, report)?;
    Ok(CommandOutcome { result, status })
}

/// The result for a load file with this fault, by its bytes, if they are not too many.
fn faulty_outcome(
    alloc: Global,
    second: SecondFile<'_>,
    fault: &TextFault,
) -> Result<CommandOutcome, AllocError>
    ensures { IfOk result (λ o. OfFile second.entry.path.now (λ bytes. IsFaultyFile second.entry.path.now bytes fault.now) (option_map (λ s. s.now) second.entry.text) (view o.result) o.status) }
{
    match second.text {
        Some(text) => faulty_file(alloc, second.path, text, fault),
        None => long_file(alloc, second.path),
    }
}

impl Values<RunFinding> for RunValues {
    ghost command = { codes "run" };

    ghost results_of = { λ _ other second d found. run_results other second d found };

    fn command(&self) -> &'static str {
        "run"
    }

    fn outcome(
        &self,
        alloc: Global,
        _path: &str,
        second: SecondFile<'_>,
        network: &Network,
        found: &RunFinding,
    ) -> Result<CommandOutcome, AllocError> {
        match found {
            RunFinding::TooLong => long_file(alloc, second.path),
            RunFinding::Faulty(fault) => faulty_outcome(alloc, second, fault),
            RunFinding::Ran(report) => ran_outcome(alloc, network, report),
        }
    }

    ghost result_has_status = { λ _ other second d found. run_results_have_status other second d found };
}

/// The schedule of the outcome's steps.
fn schedule_of(
    alloc: Global,
    network: &Network,
    outcome: &Outcome<'_>,
) -> Result<RunSchedule, AllocError>
    ensures { IfOk result (λ schedule. schedule_text schedule ≡ readable_text network.now (steps_of outcome.now)) }
{
    if outcome.history.len() > MAX_STEPS as usize {
        return Ok(RunSchedule::TooLong);
    }
    let steps = outcome.history.steps(alloc)?;
    match write_steps(alloc, network, &steps)? {
        Some(text) => Ok(RunSchedule::Text(text)),
        None => Ok(RunSchedule::TooLong),
    }
}

/// The same, if it is wanted.
fn wanted_schedule(
    alloc: Global,
    network: &Network,
    outcome: &Outcome<'_>,
    is_wanted: bool,
) -> Result<Option<RunSchedule>, AllocError>
    ensures { IfOk result (IsWantedSchedule is_wanted network.now outcome.now) }
{
    if !is_wanted {
        return Ok(None);
    }
    Ok(Some(schedule_of(alloc, network, outcome)?))
}

/// What is wanted besides.
fn find_besides(
    alloc: Global,
    network: &Network,
    load: &Load,
    outcome: &Outcome<'_>,
    wants: Wants,
) -> Result<(Option<RunSchedule>, Option<String>), AllocError>
    requires { length outcome.now.came_out.items ≡ length network.now.nodes }
    ensures { IfOk result (λ told. AreBesides wants network.now load.now outcome.now told.0 (option_map string_bytes told.1)) }
{
    let summary = wanted_summary(&OneByOne, alloc, network, load, outcome, wants.summary)?;
    match wanted_schedule(alloc, network, outcome, wants.schedule) {
        Ok(schedule) => Ok((schedule, summary)),
        Err(refused) => {
            drop(summary);
            Err(refused)
        }
    }
}

/// What is found of an outcome.
fn report_of(
    alloc: Global,
    network: &Network,
    load: &Load,
    outcome: Outcome<'_>,
    wants: Wants,
) -> Result<RunFinding, AllocError>
    requires { length outcome.came_out.items ≡ length network.now.nodes }
    ensures { IfOk result (IsReportOf wants network.now load.now outcome.entry) }
{
    match find_besides(alloc, network, load, &outcome, wants) {
        Ok((schedule, summary)) => Ok(RunFinding::Ran(RunReport {
            stop: outcome.stop,
            undelivered: outcome.undelivered,
            came_out: outcome.came_out,
            schedule,
            summary,
        })),
        Err(refused) => {
            drop(outcome);
            Err(refused)
        }
    }
}

/// What is found of a network and a load.
fn find_of_load<'a, G: Gate + Sync, T: Threads + Wait + Sync>(
    rt: &T,
    alloc: Global,
    network: &'a Network,
    load: &'a Load,
    options: Options,
    wants: Wants,
    gate: &G,
) -> Result<RunFinding, AllocError>
    requires declared { AreDeclared network.now load.now }
    requires workers { 0 < options.workers }
    ensures { IfOk result (IsFoundOfLoad options.limit wants network.now (Ok load.now)) }
{
    let outcome = sw_run::run(
        rt,
        alloc,
        network,
        load,
        options.workers,
        options.limit,
        gate,
    )?;
    report_of(alloc, network, load, outcome, wants)
}

/// What is found of a network and the bytes of a load file, if they are not too many.
fn find<G: Gate + Sync, T: Threads + Wait + Sync>(
    rt: &T,
    alloc: Global,
    network: &Network,
    second: Option<&[u8]>,
    options: Options,
    wants: Wants,
    gate: &G,
) -> Result<RunFinding, AllocError>
    requires { 0 < options.workers }
    ensures { IfOk result (IsRunFinding options.limit wants (option_map (λ s. s.now) second.entry) network.now) }
{
    let Some(text) = second else {
        return Ok(RunFinding::TooLong);
    };
    match read_load(alloc, network, text) {
        Ok(load) => {
            // Names what holds of a load that was read.
            listed_are_declared();
            find_of_load(rt, alloc, network, &load, options, wants, gate)
        }
        Err(FileFault::Fault(fault)) => Ok(RunFinding::Faulty(fault)),
        Err(FileFault::Memory) => Err(AllocError),
    }
}

/// The schedule that was found, if one is wanted and a run was made.
fn schedule_found(found: &Option<Result<RunFinding, AllocError>>) -> Option<&RunSchedule>
    ensures { option_map (λ s. s.now) result ≡ schedule_found found.now }
{
    match found {
        Some(Ok(RunFinding::Ran(report))) => report.schedule.as_ref(),
        _ => None,
    }
}

/// Writes the schedule, if there is one, and then the answer; nothing at all where the schedule is too long.
fn tell_answer<W: Write, S: Write>(
    found: Option<&RunSchedule>,
    answer: &ByteAnswer,
    writer: &mut W,
    schedule: &mut S,
) -> Ended
    ensures { IsScheduleTold (option_map (λ s. s.now) found.entry) answer.now.text.items answer.now.status (W.contents writer.old) (W.contents writer.new) (S.contents schedule.old) (S.contents schedule.new) result }
{
    match found {
        None => tell_bytes(&answer.text, answer.status, writer),
        Some(RunSchedule::Text(text)) => match write_whole(text.as_bytes(), schedule) {
            Ok(()) => tell_bytes(&answer.text, answer.status, writer),
            Err(_) => Ended::WriteFailed,
        },
        Some(RunSchedule::TooLong) => Ended::Status(UNREAD_OR_UNWRITTEN),
    }
}

/// Tells what was found, the schedule before the answer. Where there is not enough memory for the answer, no schedule is written.
fn tell_run<F: Form<RunFinding>, W: Write, S: Write>(
    alloc: Global,
    file: &NetworkFile,
    second: Option<&[u8]>,
    found: &Option<Result<RunFinding, AllocError>>,
    form: &F,
    writer: &mut W,
    schedule: &mut S,
) -> Ended
    requires { HoldsOfFound IsRunOf (network_of file.now) found.now }
    ensures { IsRunTold F.memory (AnswersToFile (F.tells form.now (option_map (λ s. s.now) second.entry)) (F.faulty form.now (option_map (λ s. s.now) second.entry)) (F.long form.now (option_map (λ s. s.now) second.entry)) file.now found.now) (schedule_found found.now) file.now (W.contents writer.old) (W.contents writer.new) (S.contents schedule.old) (S.contents schedule.new) result }
{
    if let NetworkFile::Unread = file {
        return Ended::ReadFailed;
    }
    match answer_to_file(alloc, file, second, found, form) {
        Ok(answer) => tell_answer(schedule_found(found), &answer, writer, schedule),
        Err(_) => form.tell_memory(writer),
    }
}

/// What comes of a run of the second file's load on the network of the first, by so many workers and in at most so many steps, in this form,
/// and what is wanted besides: the schedule of the run's steps, which is written before the answer, and the summary, which is handed up. The status is 0
/// where all of the load was delivered, 4 where the network is locked up or the run waits, and 5 where memory or the limit on steps ended the run. A
/// schedule that was not written whole ends the call as a write that failed, and no answer is written. Where the schedule is longer than a schedule may
/// be nothing is written, and the status is 6.
pub fn run_recorded<
    N: Read,
    L: Read,
    F: Form<RunFinding>,
    W: Write,
    S: Write,
    G: Gate + Sync,
    T: Threads + Wait + Sync,
>(
    rt: &T,
    alloc: Global,
    network: &mut N,
    load: &mut L,
    options: Options,
    wants: Wants,
    gate: &G,
    form: &F,
    writer: &mut W,
    schedule: &mut S,
) -> CommandEnd<RunFinding>
    requires { 0 < options.workers }
    ensures order { AreReadInOrder (N.remaining network.old) (N.remaining network.new) (L.remaining load.old) (L.remaining load.new) }
    ensures read { AreFilesRead (N.remaining network.old) (N.remaining network.new) (L.remaining load.old) (L.remaining load.new) result.file result.second }
    ensures found { HoldsOfFound (IsRunFinding options.limit wants (second_given result.second)) (network_of result.file) result.found }
    ensures there { network_of result.file ≡ None → result.found ≡ None }
    ensures told { IsRunTold F.memory (AnswersToFile (F.tells form.now (second_given result.second)) (F.faulty form.now (second_given result.second)) (F.long form.now (second_given result.second)) result.file result.found) (schedule_found result.found) result.file (W.contents writer.old) (W.contents writer.new) (S.contents schedule.old) (S.contents schedule.new) result.ended }
{
    let (file, second) = read_two_files(alloc, network, load);
    let text = second_bytes(&second);
    let found = match file.network() {
        Some(network) => Some(find(rt, alloc, network, text, options, wants, gate)),
        None => None,
    };
    let ended = tell_run(alloc, &file, text, &found, form, writer, schedule);
    CommandEnd {
        ended,
        file,
        second,
        found,
    }
}

/// The same, where nothing is wanted besides.
pub fn run<
    N: Read,
    L: Read,
    F: Form<RunFinding>,
    W: Write,
    G: Gate + Sync,
    T: Threads + Wait + Sync,
>(
    rt: &T,
    alloc: Global,
    network: &mut N,
    load: &mut L,
    options: Options,
    gate: &G,
    form: &F,
    writer: &mut W,
) -> CommandEnd<RunFinding>
    requires { 0 < options.workers }
    ensures ended { EndsByTwo F.memory (AnswersToTwoInForm (IsRunFinding options.limit nothing_wanted) (F.tells form.now) (F.faulty form.now) (F.long form.now)) (N.remaining network.old) (N.remaining network.new) (L.remaining load.old) (L.remaining load.new) (W.contents writer.old) (W.contents writer.new) result.ended }
    ensures order { AreReadInOrder (N.remaining network.old) (N.remaining network.new) (L.remaining load.old) (L.remaining load.new) }
{
    let wants = Wants {
        schedule: false,
        summary: false,
    };
    run_recorded(
        rt,
        alloc,
        network,
        load,
        options,
        wants,
        gate,
        form,
        writer,
        &mut io::sink(),
    )
}
