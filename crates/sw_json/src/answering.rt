//! What the engines share: faults of files as results, the answer round a result, and how it is told.
ghost use Rattle.std.specs.Prelude.{◌≡◌, IfOk, IsOkAnd, map, option_map, string_bytes};
ghost use Rattle.serde_json.specs.View.{view};
ghost use Rattle.sw_json.specs.AnswerValues.{file_fault_value};
ghost use Rattle.sw_json.specs.Plain.{IsPlain};
ghost use Rattle.sw_json.specs.Answering.{IsAnswer, IsCommandOutcome, IsFaultyFile, IsLongFile, memory_text, read_value};
ghost use Rattle.sw_text.specs.Ends.{IsTold};

use crate::answers::{answer_value, file_fault_value};
use crate::command_outcome::CommandOutcome;
use crate::faults::{fault_value, long_value};
use crate::files::Release;
use crate::inputs::{input_value, long_input};
use crate::laws::{answers_are_plain, faults_are_plain, file_faults_are_plain, inputs_are_plain};
use crate::lists::add_value;
use crate::texts::text_of;
use serde_json::Value;
use std::alloc::{AllocError, Global};
use std::io::Write;
use sw_text::statuses::{FAULTY, NO_ROOM};
use sw_text::{Answer, Ended, TextFault, tell};

/// The result where the file of this path has the fault.
///
/// # Errors
///
/// There is no memory for it, or there was none for the fault.
pub fn file_fault(
    alloc: Global,
    path: &str,
    fault: Result<Value, AllocError>,
) -> Result<CommandOutcome, AllocError>
    requires { IfOk fault (λ v. IsPlain 1 (view v)) }
    ensures { IfOk result (λ o. IsOkAnd fault (λ v. IsCommandOutcome (file_fault_value path.now (view v)) 3 (view o.result) o.status)) }
{
    file_faults_are_plain();
    let result = file_fault_value(alloc, path, fault?)?;
    Ok(CommandOutcome {
        result,
        status: FAULTY,
    })
}

/// The result where the text of the file is too long.
///
/// # Errors
///
/// There is no memory for it.
pub fn long_file(alloc: Global, path: &str) -> Result<CommandOutcome, AllocError>
    ensures { IfOk result (λ o. IsLongFile path.now (view o.result) o.status) }
{
    faults_are_plain();
    let fault = long_value(alloc);
    file_fault(alloc, path, fault)
}

/// The result where the text of the file has this fault.
///
/// # Errors
///
/// There is no memory for it.
pub fn faulty_file(
    alloc: Global,
    path: &str,
    text: &[u8],
    fault: &TextFault,
) -> Result<CommandOutcome, AllocError>
    ensures { IfOk result (λ o. IsFaultyFile path.now text.now fault.now (view o.result) o.status) }
{
    faults_are_plain();
    let fault = fault_value(alloc, text, fault);
    file_fault(alloc, path, fault)
}

/// A file that was read: its path, and its text, if that is not too long.
fn read_value(alloc: Global, file: &(&str, Option<&[u8]>)) -> Result<Value, AllocError>
    ensures { IfOk result (λ v. view v ≡ read_value file.now.0.now (option_map (λ s. s.now) file.now.1)) }
{
    match file.1 {
        Some(text) => input_value(alloc, file.0, text),
        None => long_input(alloc, file.0),
    }
}

/// The files of a command, each by its path.
fn file_values(alloc: Global, files: &[(&str, Option<&[u8]>)]) -> Result<Vec<Value>, AllocError>
    ensures { IfOk result (λ v. map view v.items ≡ map (λ f. read_value f.0.now (option_map (λ s. s.now) f.1)) files.now) }
{
    let mut values = Vec::new(alloc);
    for file in files {
        add_value(read_value(alloc, file), &mut values)?;
    }
    Ok(values)
}

/// The answer of a command of these files, with what it found, if there was memory for both.
pub(crate) fn answer_to_files(
    alloc: Global,
    command: &str,
    release: Release<'_>,
    files: &[(&str, Option<&[u8]>)],
    found: Result<CommandOutcome, AllocError>,
) -> Result<Answer, AllocError>
    ensures { IfOk result (λ a. IsOkAnd found (λ o. IsAnswer command.now (map (λ f. read_value f.0.now (option_map (λ s. s.now) f.1)) files.now) release.entry (IsCommandOutcome (view o.result) o.status) (string_bytes a.text) a.status)) }
{
    inputs_are_plain();
    answers_are_plain();
    let found = found?;
    let status = found.status;
    let files = file_values(alloc, files)?;
    let value = answer_value(alloc, command, files, found.result, status, release)?;
    let text = text_of(alloc, &value);
    drop(value);
    let text = text?;
    Ok(Answer { text, status })
}

/// Writes that memory was wanted. This takes no memory.
pub fn tell_memory<W: Write>(writer: &mut W) -> Ended
    ensures { IsTold (W.contents writer.old) (W.contents writer.new) memory_text 5 result }
{
    tell(
        "{\"result\":{\"kind\":\"memory\"},\"status\":5}\n",
        NO_ROOM,
        writer,
    )
}
