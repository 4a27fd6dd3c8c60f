//! The calls of the engines of `sw_app` on files.
ghost use Rattle.std.specs.Prelude.{◌≡◌, Err, IfSome, option_map};
ghost use Rattle.sw_app.specs.CheckAnswers.{IsCheckAnswer, IsCheckFinding, check_lines, check_status};
ghost use Rattle.sw_app.specs.MigrateAnswers.{IsMigrateAnswer};
ghost use Rattle.sw_app.specs.RouteAnswers.{IsRouteAnswer, IsRouteFinding, route_lines, route_status};
ghost use Rattle.sw_app.specs.Samples.{sample_named};
ghost use Rattle.sw_app.specs.VerdictAnswers.{IsDecideAnswer, IsDecideFinding, IsReportAnswer, IsReportFinding, decide_lines, decide_status, report_lines};
ghost use Rattle.sw_calls.specs.Files.{ChecksFilesDeadlockFree, DecidesFileDeadlockFree, EndsByFiles, EndsByNetworkFile, EndsBySample};
ghost use Rattle.sw_engine.specs.Engines.{AnswersToTwoInForm};
ghost use Rattle.sw_engine.specs.Files.{network_of, second_given};
ghost use Rattle.sw_engine.specs.LineAnswers.{IsFileToldInLines, memory_line};
ghost use Rattle.sw_engine.specs.Paths.{EndsByPath};
ghost use Rattle.sw_engine.specs.Tellings.{AnswersToFile, HoldsOfFound, IsFileTold};
ghost use Rattle.sw_file.specs.Network.{network_text};

use crate::told::tell_refused;
use std::alloc::Global;
use std::io::Write;
use sw_app::{
    CheckFinding, DecideFinding, MigrateEnd, ReportFinding, RouteFinding, VerdictWorkers, check,
    decide, init, migrate, report, route, sample_named,
};
use sw_engine::{CommandEnd, FileSystem, Form, Lines};
use sw_text::Ended;

/// The places of a flow of a network file.
pub fn route_file<F: FileSystem, W: Write>(
    files: &F,
    alloc: Global,
    file: &str,
    flow: &str,
    writer: &mut W,
) -> CommandEnd<RouteFinding>
    ensures read { EndsByNetworkFile (F.gives files.now file.now) (IsRouteAnswer flow.now) result.file (W.contents writer.old) (W.contents writer.new) result.ended }
    ensures found { HoldsOfFound (IsRouteFinding flow.now) (network_of result.file) result.found }
    ensures told { IsFileToldInLines route_lines route_status result.file result.found (W.contents writer.old) (W.contents writer.new) result.ended }
{
    let Some(mut reader) = files.open(file) else {
        return CommandEnd::of_unread();
    };
    route(alloc, &mut reader, flow, &Lines, writer)
}

/// The verdict on a network file.
pub fn decide_file<F: FileSystem, C: VerdictWorkers, W: Write>(
    files: &F,
    workers: &C,
    alloc: Global,
    file: &str,
    writer: &mut W,
) -> CommandEnd<DecideFinding>
    ensures read { EndsByNetworkFile (F.gives files.now file.now) IsDecideAnswer result.file (W.contents writer.old) (W.contents writer.new) result.ended }
    ensures found { HoldsOfFound IsDecideFinding (network_of result.file) result.found }
    ensures told { IsFileToldInLines decide_lines decide_status result.file result.found (W.contents writer.old) (W.contents writer.new) result.ended }
    ensures deadlock_free { DecidesFileDeadlockFree (F.gives files.now file.now) (W.contents writer.old) (W.contents writer.new) result.ended }
{
    let Some(mut reader) = files.open(file) else {
        return CommandEnd::of_unread();
    };
    decide(workers, alloc, &mut reader, writer)
}

/// How many parts the network of a file has, and the verdict on it.
pub fn report_file<F: FileSystem, C: VerdictWorkers, W: Write>(
    files: &F,
    workers: &C,
    alloc: Global,
    file: &str,
    writer: &mut W,
) -> CommandEnd<ReportFinding>
    ensures read { EndsByNetworkFile (F.gives files.now file.now) IsReportAnswer result.file (W.contents writer.old) (W.contents writer.new) result.ended }
    ensures found { HoldsOfFound IsReportFinding (network_of result.file) result.found }
    ensures told { IsFileToldInLines report_lines (λ _. 0) result.file result.found (W.contents writer.old) (W.contents writer.new) result.ended }
{
    let Some(mut reader) = files.open(file) else {
        return CommandEnd::of_unread();
    };
    report(workers, alloc, &mut reader, &Lines, writer)
}

/// Whether the certificate of the second file is accepted for the network of the first, in this form.
pub fn check_files_in_form<F: FileSystem, C: VerdictWorkers, O: Form<CheckFinding>, W: Write>(
    files: &F,
    workers: &C,
    alloc: Global,
    file: &str,
    path: &str,
    form: &O,
    writer: &mut W,
) -> CommandEnd<CheckFinding>
    ensures read { EndsByFiles (F.gives files.now file.now) (F.gives files.now path.now) O.memory (AnswersToTwoInForm IsCheckFinding (O.tells form.now) (O.faulty form.now) (O.long form.now)) result.file result.second (W.contents writer.old) (W.contents writer.new) result.ended }
    ensures found { HoldsOfFound (IsCheckFinding (second_given result.second)) (network_of result.file) result.found }
    ensures told { IsFileTold O.memory (AnswersToFile (O.tells form.now (second_given result.second)) (O.faulty form.now (second_given result.second)) (O.long form.now (second_given result.second)) result.file result.found) result.file (W.contents writer.old) (W.contents writer.new) result.ended }
    ensures deadlock_free { ChecksFilesDeadlockFree (F.gives files.now file.now) (F.gives files.now path.now) result.ended }
{
    let Some(mut network) = files.open(file) else {
        return CommandEnd::of_unread();
    };
    let Some(mut certificate) = files.open(path) else {
        return CommandEnd::of_unread();
    };
    check(workers, alloc, &mut network, &mut certificate, form, writer)
}

/// The same in lines.
pub fn check_files<F: FileSystem, C: VerdictWorkers, W: Write>(
    files: &F,
    workers: &C,
    alloc: Global,
    file: &str,
    path: &str,
    writer: &mut W,
) -> CommandEnd<CheckFinding>
    ensures read { EndsByFiles (F.gives files.now file.now) (F.gives files.now path.now) memory_line IsCheckAnswer result.file result.second (W.contents writer.old) (W.contents writer.new) result.ended }
    ensures found { HoldsOfFound (IsCheckFinding (second_given result.second)) (network_of result.file) result.found }
    ensures told { IsFileToldInLines check_lines check_status result.file result.found (W.contents writer.old) (W.contents writer.new) result.ended }
    ensures deadlock_free { ChecksFilesDeadlockFree (F.gives files.now file.now) (F.gives files.now path.now) result.ended }
{
    check_files_in_form(files, workers, alloc, file, path, &Lines, writer)
}

/// The network file of version 1 as one of version 2.
pub fn migrate_file<F: FileSystem, W: Write>(
    files: &F,
    alloc: Global,
    file: &str,
    writer: &mut W,
) -> MigrateEnd
    ensures read { EndsByPath (F.gives files.now file.now) IsMigrateAnswer (W.contents writer.old) (W.contents writer.new) result.ended }
    ensures faulty { IfSome result.faulty (λ read. network_text read.text.items ≡ Err read.fault) }
{
    let Some(mut reader) = files.open(file) else {
        return MigrateEnd::from_ended(Ended::ReadFailed);
    };
    migrate(alloc, &mut reader, writer)
}

/// The sample of that name.
pub fn write_sample<R: Eprint, W: Write>(rt: &R, name: Option<&str>, writer: &mut W) -> Ended
    ensures { EndsBySample (sample_named (option_map (λ s. s.now) name.entry)) (W.contents writer.old) (W.contents writer.new) result }
{
    match sample_named(name) {
        Some(sample) => init(sample, writer),
        None => tell_refused(rt, "NAME may be bus, ring, housekeeping, regions or limits"),
    }
}
