//! What `replay` finds, and its engine.
ghost use Rattle.std.specs.Prelude.{◌≡◌, IfOk, None, Ok, Some, codes, length, option_map, string_bytes};
ghost use Rattle.serde_json.specs.View.{view};
ghost use Rattle.sw_engine.specs.Engines.{AnswersToTwoInForm, EndsByTwo};
ghost use Rattle.sw_engine.specs.Files.{AreFilesRead, network_of, second_given};
ghost use Rattle.sw_engine.specs.Tellings.{AnswersToFile, HoldsOfFound, IsFileTold};
ghost use Rattle.sw_json.specs.Answering.{IsCommandOutcome};
ghost use Rattle.sw_runs.specs.ReplayAnswers.{IsReplayFinding, IsReplayOf, IsScheduleFinding, bad_line, finding_lines, finding_results, finding_results_have_status, finding_status};
ghost use Rattle.sw_runs.specs.ReplayTexts.{replay_status};
ghost use Rattle.sw_runs.specs.ReplayValues.{replay_value};
ghost use Rattle.sw_schedule.specs.Reports.{report_of};
ghost use Rattle.sw_text.specs.Ends.{AreReadInOrder};

use crate::replay_texts::{replay_status, replay_text};
use crate::replay_values::replay_value;
use std::alloc::{AllocError, Global};
use std::io::{Read, Write};
use sw_config::Network;
use sw_engine::{AsLines, CommandEnd, Finding, Form, read_two_files, second_bytes, tell_found};
use sw_json::laws::faults_are_plain;
use sw_json::{CommandOutcome, SecondFile, Values, file_fault, long_file, schedule_fault_value};
use sw_schedule::{Part, Replayed, Schedule, ScheduleFault, read_steps, replay_with_parts};
use sw_text::statuses::FAULTY;

/// A schedule, and what its replay tells.
#[derive(Drop)]
pub struct ReplayReport {
    /// The schedule.
    pub schedule: Schedule,
    /// What the replay tells of the state that it ends in.
    pub replayed: Replayed,
    /// What each cell has of that state, if all steps were made and the network is locked up.
    pub parts: Option<Vec<Part>>,
}

/// What `replay` finds of a network and the text of a schedule.
#[derive(Drop)]
pub enum ReplayFinding {
    /// The text has too many bytes.
    TooLong,
    /// The text is no schedule: this line, counted from 1, is the first that is wrong.
    WrongLine(u64),
    /// The schedule was replayed.
    Replayed(ReplayReport),
}

impl Finding for ReplayFinding {
    ghost is_of = { IsReplayOf };

    ghost status_of = { finding_status };

    fn status(&self) -> u8 {
        match self {
            ReplayFinding::TooLong | ReplayFinding::WrongLine(_) => FAULTY,
            ReplayFinding::Replayed(report) => replay_status(&report.replayed),
        }
    }
}

/// The line of a schedule's first wrong line.
fn wrong_line(alloc: Global, number: u64) -> Result<String, AllocError>
    ensures { IfOk result (λ s. string_bytes s ≡ bad_line number) }
{
    format!(in alloc; "fault S1 BadLine {number}\n")
}

impl AsLines for ReplayFinding {
    ghost lines_of = { finding_lines };

    fn lines(&self, alloc: Global, network: &Network) -> Result<Vec<u8>, AllocError> {
        let text = match self {
            ReplayFinding::TooLong => String::from_str(alloc, "fault A1 TooLong\n")?,
            ReplayFinding::WrongLine(number) => wrong_line(alloc, *number)?,
            ReplayFinding::Replayed(report) => replay_text(alloc, network, &report.replayed)?,
        };
        Ok(text.into_bytes())
    }
}

/// The result for a replay.
fn replayed_outcome(
    alloc: Global,
    network: &Network,
    replayed: &Replayed,
) -> Result<CommandOutcome, AllocError>
    requires { length replayed.now.came_out.items ≡ length network.now.nodes }
    ensures { IfOk result (λ o. IsCommandOutcome (replay_value network.now (report_of replayed.now)) (replay_status replayed.now.outcome replayed.now.stuck) (view o.result) o.status) }
{
    let status = replay_status(replayed);
    let result = replay_value(alloc, network, replayed)?;
    Ok(CommandOutcome { result, status })
}

/// How what is found by `replay` and `run` is told as values of JSON.
#[derive(Clone, Copy)]
pub struct RunValues;

impl Values<ReplayFinding> for RunValues {
    ghost command = { codes "replay" };

    ghost results_of = { λ _ other _ d found. finding_results other d found };

    fn command(&self) -> &'static str {
        "replay"
    }

    fn outcome(
        &self,
        alloc: Global,
        _path: &str,
        second: SecondFile<'_>,
        network: &Network,
        found: &ReplayFinding,
    ) -> Result<CommandOutcome, AllocError> {
        match found {
            ReplayFinding::TooLong => long_file(alloc, second.path),
            ReplayFinding::WrongLine(number) => {
                faults_are_plain();
                file_fault(alloc, second.path, schedule_fault_value(alloc, *number))
            }
            ReplayFinding::Replayed(report) => replayed_outcome(alloc, network, &report.replayed),
        }
    }

    ghost result_has_status = { λ _ other _ d found. finding_results_have_status other d found };
}

/// What is found of a network and a schedule.
fn replay_to_end(
    alloc: Global,
    network: &Network,
    schedule: Schedule,
) -> Result<ReplayFinding, AllocError>
    ensures { IfOk result (IsScheduleFinding network.now (Ok schedule)) }
{
    match replay_with_parts(alloc, network, &schedule) {
        Ok((replayed, parts)) => Ok(ReplayFinding::Replayed(ReplayReport {
            schedule,
            replayed,
            parts,
        })),
        Err(refused) => {
            drop(schedule);
            Err(refused)
        }
    }
}

/// What is found of a network and the bytes of a schedule file, if they are not too many.
fn find(
    alloc: Global,
    network: &Network,
    second: Option<&[u8]>,
) -> Result<ReplayFinding, AllocError>
    ensures { IfOk result (IsReplayFinding (option_map (λ s. s.now) second.entry) network.now) }
{
    let Some(text) = second else {
        return Ok(ReplayFinding::TooLong);
    };
    match read_steps(alloc, network, text) {
        Ok(schedule) => replay_to_end(alloc, network, schedule),
        Err(ScheduleFault::Fault(number)) => Ok(ReplayFinding::WrongLine(number)),
        Err(ScheduleFault::Memory) => Err(AllocError),
    }
}

/// What comes of the steps of the second file's schedule, made one after another on the network of the first file from its empty state on, in
/// this form: 0 where all are made and the network is not locked up then, 1 where one is refused, and 4 where the network is locked up.
pub fn replay<N: Read, S: Read, F: Form<ReplayFinding>, W: Write>(
    alloc: Global,
    network: &mut N,
    schedule: &mut S,
    form: &F,
    writer: &mut W,
) -> CommandEnd<ReplayFinding>
    ensures ended { EndsByTwo F.memory (AnswersToTwoInForm IsReplayFinding (F.tells form.now) (F.faulty form.now) (F.long form.now)) (N.remaining network.old) (N.remaining network.new) (S.remaining schedule.old) (S.remaining schedule.new) (W.contents writer.old) (W.contents writer.new) result.ended }
    ensures order { AreReadInOrder (N.remaining network.old) (N.remaining network.new) (S.remaining schedule.old) (S.remaining schedule.new) }
    ensures read { AreFilesRead (N.remaining network.old) (N.remaining network.new) (S.remaining schedule.old) (S.remaining schedule.new) result.file result.second }
    ensures found { HoldsOfFound (IsReplayFinding (second_given result.second)) (network_of result.file) result.found }
    ensures told { IsFileTold F.memory (AnswersToFile (F.tells form.now (second_given result.second)) (F.faulty form.now (second_given result.second)) (F.long form.now (second_given result.second)) result.file result.found) result.file (W.contents writer.old) (W.contents writer.new) result.ended }
{
    let (file, second) = read_two_files(alloc, network, schedule);
    let text = second_bytes(&second);
    let found = match file.network() {
        Some(network) => Some(find(alloc, network, text)),
        None => None,
    };
    tell_found(alloc, file, second, found, form, writer)
}
