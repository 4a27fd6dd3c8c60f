//! The texts that an engine reads.
ghost use Rattle.std.specs.Prelude.{◌≡◌, Err, IfOk, Ok};
ghost use Rattle.sw_text.specs.Ends.{AreReadInOrder, GivesText, IsReadWhole};
ghost use Rattle.sw_text.specs.Inputs.{given};

use crate::{MAX_TEXT, ReadError, read_whole};
use std::alloc::Global;
use std::io::Read;

/// A text that was read.
#[derive(Drop)]
pub enum InputText {
    /// All its bytes.
    Whole(Vec<u8>),
    /// It has more than `MAX_TEXT` bytes.
    TooLong,
}

/// Why a text was not read.
#[derive(Clone, Copy, Debug, PartialEq, Eq)]
pub enum InputError {
    /// A read failed. No contract of std's readers says when one does, so this is tested.
    Failed,
    /// A growth was refused.
    Memory,
}

/// What one text is, by how its reading ended.
fn input_of(read: Result<Vec<u8>, ReadError>) -> Result<InputText, InputError>
    ensures whole { IfOk read (λ text. result ≡ Ok (InputText.Whole text)) }
    ensures long { read ≡ Err ReadError.TooLong → result ≡ Ok InputText.TooLong }
    ensures failed { read ≡ Err ReadError.Failed → result ≡ Err InputError.Failed }
    ensures memory { read ≡ Err ReadError.Memory → result ≡ Err InputError.Memory }
{
    match read {
        Ok(text) => Ok(InputText::Whole(text)),
        Err(ReadError::TooLong) => Ok(InputText::TooLong),
        Err(ReadError::Failed) => Err(InputError::Failed),
        Err(ReadError::Memory) => Err(InputError::Memory),
    }
}

/// Reads a text.
///
/// # Errors
///
/// `Failed`: a read failed. `Memory`: there is no memory for the text. What was taken is gone.
pub fn read_one<R: Read>(alloc: Global, reader: &mut R) -> Result<InputText, InputError>
    ensures input { IfOk result (λ input. GivesText (R.remaining reader.old) (R.remaining reader.new) (given input)) }
    ensures whole { IfOk result (λ _. IsReadWhole (R.remaining reader.old) (R.remaining reader.new)) }
{
    input_of(read_whole(alloc, reader, MAX_TEXT))
}

/// Reads two texts, the first one first.
///
/// # Errors
///
/// `Failed`: a read failed. `Memory`: there is no memory for a text. Unless the first was read to
/// its end, or found too long, nothing is taken from the second. What was taken is gone.
pub fn read_two<A: Read, B: Read>(
    alloc: Global,
    first: &mut A,
    second: &mut B,
) -> Result<(InputText, InputText), InputError>
    ensures first { IfOk result (λ inputs. GivesText (A.remaining first.old) (A.remaining first.new) (given inputs.0)) }
    ensures second { IfOk result (λ inputs. GivesText (B.remaining second.old) (B.remaining second.new) (given inputs.1)) }
    ensures order { AreReadInOrder (A.remaining first.old) (A.remaining first.new) (B.remaining second.old) (B.remaining second.new) }
{
    let text = read_one(alloc, first)?;
    let other = read_one(alloc, second)?;
    Ok((text, other))
}
