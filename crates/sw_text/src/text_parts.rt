//! Texts in parts.
ghost use Rattle.std.specs.Prelude.{◌≡◌, ◌<◌, ◌++◌, ℕ, OnErr, OnOk, length, take};
ghost use Rattle.std.specs.Io.KnownBytes.{Appends};
ghost use Rattle.sw_text.specs.Parts.{joined};

use crate::write_stream::{WriteError, write_whole};
use std::io::Write;
use std::marker::Model;

/// A text in parts, one after another. What several threads made need not be joined to be written.
#[derive(Drop)]
pub struct TextParts {
    first: Vec<u8>,
    more: Vec<Vec<u8>>,
}

impl Model for TextParts {
    ghost use Rattle.std.specs.Prelude.{◌++◌, ℕ, List};
    ghost use Rattle.sw_text.specs.Parts.{joined};

    ghost Value = { List ℕ };

    ghost view = { λ t. t.first.items ++ joined t.more.items };
}

/// Writes parts, one after another.
fn write_parts<W: Write>(parts: &[Vec<u8>], writer: &mut W) -> Result<(), WriteError>
    ensures whole { OnOk result (Appends (W.contents writer.old) (W.contents writer.new) (joined parts.now)) }
    ensures beginning { OnErr result ((count : ℕ) × (count < length (joined parts.now)) × Appends (W.contents writer.old) (W.contents writer.new) (take count (joined parts.now))) }
{
    for part in parts {
        write_whole(part, writer)?;
    }
    Ok(())
}

impl TextParts {
    /// The text of these parts.
    pub fn new(first: Vec<u8>, more: Vec<Vec<u8>>) -> TextParts
        ensures { result ≡ first.items ++ joined more.items }
    {
        TextParts { first, more }
    }

    /// Writes the text whole.
    ///
    /// # Errors
    ///
    /// As [`write_whole`]: what is written then is a beginning of the text, and not all of it.
    pub fn write<W: Write>(&self, writer: &mut W) -> Result<(), WriteError>
        ensures whole { OnOk result (Appends (W.contents writer.old) (W.contents writer.new) self.now) }
        ensures beginning { OnErr result ((count : ℕ) × (count < length self.now) × Appends (W.contents writer.old) (W.contents writer.new) (take count self.now)) }
    {
        write_whole(&self.first, writer)?;
        write_parts(&self.more, writer)
    }
}
