//! Reading a whole text.
ghost use Rattle.std.specs.Prelude.{◌≡◌, ℕ, ◌+◌, ◌<◌, ◌≤◌, ◌≢◌, ◌++◌, take, IfSome, IfOk, IfErr, IsErr, Ok, Err, length};
ghost use Rattle.std.specs.Io.KnownBytes.{Consumes, IsAtEnd, Keeps};
ghost use Rattle.sw_text.specs.declared.read_stream.ReadError.TheVariants.{Memory};
ghost use Rattle.sw_text.specs.Reading.{Takes};

use std::alloc::{AllocError, Global};
use std::io;
use std::io::Read;
use thiserror::Error;

/// The bytes that one call of `read` may give.
const CHUNK: usize = 65_536;

/// Why a reader gave no whole text.
#[derive(Clone, Copy, Debug, PartialEq, Eq, Error)]
pub enum ReadError {
    /// There are more bytes than the limit.
    #[error("the text is longer than its limit")]
    TooLong,
    /// A read failed.
    #[error("a read failed")]
    Failed,
    /// A growth was refused.
    #[error("out of memory")]
    Memory,
}

impl From<AllocError> for ReadError {
    ghost from_gives = { λ _ e. e ≡ Memory };

    fn from(_error: AllocError) -> ReadError {
        ReadError::Memory
    }
}

/// A buffer for one read.
fn buffer_of(alloc: Global) -> Result<Vec<u8>, AllocError>
    ensures { IfOk result (λ v. length v.items ≡ CHUNK) }
{
    vec![in alloc; 0; CHUNK]
}

/// What a read gave. One that failed is told as that, and as nothing else.
fn count_of(read: io::Result<usize>) -> Result<usize, ReadError>
    ensures given { IfOk result (λ count. read ≡ Ok count) }
    ensures failed { IfErr result (λ error. (error ≡ ReadError.Failed) × IsErr read) }
{
    match read {
        Ok(count) => Ok(count),
        Err(_) => Err(ReadError::Failed),
    }
}

/// Adds what one read gives to a text, and says how many bytes these are.
fn read_more<R: Read>(
    reader: &mut R,
    room: &mut [u8],
    text: &mut Vec<u8>,
) -> Result<usize, ReadError>
    ensures more { IfOk result (λ count. text.new.items ≡ text.old.items ++ take count room.new) }
    ensures within { IfOk result (λ count. count ≤ length room.old) }
    ensures read { IfOk result (λ count. Consumes (R.remaining reader.old) (R.remaining reader.new) (take count room.new)) }
    ensures end { IfOk result (λ count. count ≡ 0 → 0 < length room.old → IsAtEnd (R.remaining reader.new)) }
    ensures none { IfErr result (λ e. e ≢ ReadError.TooLong) }
    ensures kept { result ≡ Err ReadError.Failed → Keeps (R.remaining reader.old) (R.remaining reader.new) }
    ensures failed { IfErr result (λ _. (count : ℕ) × (count ≤ length room.old) × Takes (R.remaining reader.old) (R.remaining reader.new) count) }
{
    let count = count_of(reader.read(room))?;
    text.extend_from_slice(&room[..count])?;
    Ok(count)
}

/// All bytes that a reader has left, where they are at most `limit`.
///
/// # Errors
///
/// The reader has more: then it is read to one byte past the limit. Or a read fails, or there is no
/// memory for the bytes: then what was read, at most one byte past the limit, is lost. A read that
/// failed is not tried again, which no contract can say, since none of std's tells when one fails:
/// it is tested.
pub fn read_whole<R: Read>(
    alloc: Global,
    reader: &mut R,
    limit: usize,
) -> Result<Vec<u8>, ReadError>
    ensures whole { IfOk result (λ text. IfSome (R.remaining reader.old) (λ bytes. text.items ≡ bytes)) }
    ensures given { IfOk result (λ text. Consumes (R.remaining reader.old) (R.remaining reader.new) text.items) }
    ensures within { IfOk result (λ text. length text.items ≤ limit) }
    ensures end { IfOk result (λ _. IsAtEnd (R.remaining reader.new)) }
    ensures long { result ≡ Err ReadError.TooLong → Takes (R.remaining reader.old) (R.remaining reader.new) (limit + 1) }
    ensures failed { IfErr result (λ _. (count : ℕ) × (count ≤ limit + 1) × Takes (R.remaining reader.old) (R.remaining reader.new) count) }
    ensures short { result ≡ Err ReadError.Failed → (count : ℕ) × (count ≤ limit) × Takes (R.remaining reader.old) (R.remaining reader.new) count }
{
    let mut buffer = buffer_of(alloc)?;
    let chunk = buffer.as_mut_slice();
    let mut text = Vec::new(alloc);
    while text.len() <= limit {
        let most = (limit - text.len()).saturating_add(1).min(CHUNK);
        if read_more(reader, &mut chunk[..most], &mut text)? == 0 {
            return Ok(text);
        }
    }
    Err(ReadError::TooLong)
}
