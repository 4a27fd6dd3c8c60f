//! Writing a whole text.
ghost use Rattle.std.specs.Prelude.{ℕ, ◌<◌, OnOk, OnErr, take, length};
ghost use Rattle.std.specs.Io.KnownBytes.{Appends};

use std::io::Write;
use thiserror::Error;

/// A write failed, or took no byte of a rest that isn't empty.
#[derive(Clone, Copy, Debug, PartialEq, Eq, Error)]
#[error("a write failed")]
pub struct WriteError;

/// Writes a text whole.
///
/// # Errors
///
/// A write fails, or takes no byte of a rest that isn't empty. It isn't tried again: what is
/// written then is a beginning of the text, and not all of it.
pub fn write_whole<W: Write>(text: &[u8], writer: &mut W) -> Result<(), WriteError>
    ensures whole { OnOk result (Appends (W.contents writer.old) (W.contents writer.new) text.now) }
    ensures beginning { OnErr result ((count : ℕ) × (count < length text.now) × Appends (W.contents writer.old) (W.contents writer.new) (take count text.now)) }
{
    let mut written = 0;
    while written < text.len() {
        match writer.write(&text[written..]) {
            Ok(count) if 0 < count => written += count,
            _ => return Err(WriteError),
        }
    }
    Ok(())
}
