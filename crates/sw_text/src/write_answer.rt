//! How an engine ends.
ghost use Rattle.std.specs.Prelude.{◌≡◌};
ghost use Rattle.sw_text.specs.Ends.{IsMemoryTold, IsTold, IsUnreadTold};
ghost use Rattle.sw_text.specs.Told.{IsAnswerTold};

use crate::answer::ByteAnswer;
use crate::statuses::{FAULTY, NO_ROOM, UNREAD_OR_UNWRITTEN};
use crate::text_parts::TextParts;
use crate::{ReadError, write_whole};
use std::alloc::AllocError;
use std::io::Write;

/// How an engine ended.
#[derive(Clone, Copy, PartialEq, Eq)]
pub enum Ended {
    /// The whole text was written; the program is to exit with this status.
    Status(u8),
    /// A read failed, and nothing was written.
    ReadFailed,
    /// A write failed: what was written is a beginning of the text.
    WriteFailed,
}

impl Ended {
    ghost use Rattle.sw_text.specs.Ends.{exit_status};

    /// The status that the program exits with.
    pub fn status(self) -> u8
        ensures { result ≡ exit_status self }
    {
        match self {
            Ended::Status(status) => status,
            Ended::ReadFailed | Ended::WriteFailed => UNREAD_OR_UNWRITTEN,
        }
    }
}

/// Writes an answer of these bytes.
pub fn tell_bytes<W: Write>(text: &[u8], status: u8, writer: &mut W) -> Ended
    ensures { IsTold (W.contents writer.old) (W.contents writer.new) text.now status result }
{
    match write_whole(text, writer) {
        Ok(()) => Ended::Status(status),
        Err(_) => Ended::WriteFailed,
    }
}

/// Writes an answer whose text is in parts.
pub fn tell_parts<W: Write>(text: &TextParts, status: u8, writer: &mut W) -> Ended
    ensures { IsTold (W.contents writer.old) (W.contents writer.new) text.now status result }
{
    match text.write(writer) {
        Ok(()) => Ended::Status(status),
        Err(_) => Ended::WriteFailed,
    }
}

/// Writes an answer.
pub fn tell<W: Write>(text: &str, status: u8, writer: &mut W) -> Ended
    ensures { IsTold (W.contents writer.old) (W.contents writer.new) text.now status result }
{
    tell_bytes(text.as_bytes(), status, writer)
}

/// Writes that memory was wanted.
pub fn tell_memory<W: Write>(writer: &mut W) -> Ended
    ensures { IsMemoryTold (W.contents writer.old) (W.contents writer.new) result }
{
    tell("fault memory\n", NO_ROOM, writer)
}

/// Writes an answer, or that memory was wanted.
pub fn tell_answer<W: Write>(answer: Result<ByteAnswer, AllocError>, writer: &mut W) -> Ended
    ensures { IsAnswerTold answer (W.contents writer.old) (W.contents writer.new) result }
{
    match answer {
        Ok(answer) => tell_bytes(&answer.text, answer.status, writer),
        Err(_) => tell_memory(writer),
    }
}

/// Tells why a text was not read: of a read that failed nothing is written.
pub fn tell_unread<W: Write>(error: ReadError, writer: &mut W) -> Ended
    ensures { IsUnreadTold error (W.contents writer.old) (W.contents writer.new) result }
{
    match error {
        ReadError::TooLong => tell("fault A1 TooLong\n", FAULTY, writer),
        ReadError::Memory => tell_memory(writer),
        ReadError::Failed => Ended::ReadFailed,
    }
}
