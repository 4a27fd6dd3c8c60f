//! A network file, and what was found of its network, are told.
ghost use Rattle.std.specs.Prelude.{◌≡◌, IfOk, is_some, option_map};
ghost use Rattle.sw_engine.specs.Files.{network_of, second_given};
ghost use Rattle.sw_engine.specs.Tellings.{AnswersToFile, HoldsOfFound, IsAnswerTold, IsFileTold};

use crate::command_end::CommandEnd;
use crate::finding::Finding;
use crate::form::Form;
use crate::network_file::{NetworkFile, second_bytes};
use std::alloc::{AllocError, Global};
use std::io::Write;
use sw_text::{ByteAnswer, Ended, InputText, tell_bytes};

/// What answers a file that was read: what was found of its network, its first fault, or that it is too long. `second` are the bytes of the second
/// file, as [`Form`] has them.
///
/// # Errors
///
/// There is no memory for it, or there was none for the file or for what was to be found.
pub fn answer_to_file<X: Finding, F: Form<X>>(
    alloc: Global,
    file: &NetworkFile,
    second: Option<&[u8]>,
    found: &Option<Result<X, AllocError>>,
    form: &F,
) -> Result<ByteAnswer, AllocError>
    requires { HoldsOfFound X.Finding.is_of (network_of file.now) found.now }
    ensures { IfOk result (λ answer. AnswersToFile (F.tells form.now (option_map (λ s. s.now) second.entry)) (F.faulty form.now (option_map (λ s. s.now) second.entry)) (F.long form.now (option_map (λ s. s.now) second.entry)) file.now found.now (answer.text.items) answer.status) }
{
    match (file, found) {
        (NetworkFile::Network { text, network }, Some(Ok(found))) => {
            form.finding_answer(alloc, second, text, network, found)
        }
        (NetworkFile::Faulty { text, fault }, _) => form.fault_answer(alloc, second, text, fault),
        (NetworkFile::TooLong, _) => form.long_answer(alloc, second),
        _ => Err(AllocError),
    }
}

/// Writes an answer, or that there was not enough memory.
pub fn tell_answer<X: Finding, F: Form<X>, W: Write>(
    answer: Result<ByteAnswer, AllocError>,
    form: &F,
    writer: &mut W,
) -> Ended
    ensures { IsAnswerTold F.memory answer (W.contents writer.old) (W.contents writer.new) result }
{
    match answer {
        Ok(answer) => tell_bytes(&answer.text, answer.status, writer),
        Err(_) => form.tell_memory(writer),
    }
}

/// Tells of a network file what was found of its network, if it declares one; else its first fault, or that it is too long. Where there was not
/// enough memory it tells that; of a read that failed it tells nothing. All of it is handed up.
pub fn tell_found<X: Finding, F: Form<X>, W: Write>(
    alloc: Global,
    file: NetworkFile,
    second: Option<InputText>,
    found: Option<Result<X, AllocError>>,
    form: &F,
    writer: &mut W,
) -> CommandEnd<X>
    requires there { is_some found ≡ is_some (network_of file) }
    requires fit { HoldsOfFound X.Finding.is_of (network_of file) found }
    ensures told { IsFileTold F.memory (AnswersToFile (F.tells form.now (second_given second)) (F.faulty form.now (second_given second)) (F.long form.now (second_given second)) file found) file (W.contents writer.old) (W.contents writer.new) result.ended }
    ensures file { result.file ≡ file }
    ensures second { result.second ≡ second }
    ensures found { result.found ≡ found }
{
    let ended = match &file {
        NetworkFile::Unread => Ended::ReadFailed,
        read => {
            let answer = answer_to_file(alloc, read, second_bytes(&second), &found, form);
            tell_answer(answer, form, writer)
        }
    };
    CommandEnd {
        ended,
        file,
        second,
        found,
    }
}
