//! The cargo of a step that begins a packet, as a line writes it.
ghost use Rattle.std.specs.Prelude.{◌≡◌, IfOk, option_map};
ghost use Rattle.sw_load.specs.Cargo.{bytes_of, repeated_of};
ghost use Rattle.sw_schedule.specs.Kept.{cargo_bytes};

use std::alloc::{AllocError, Global};
use sw_load::{count_of, hex_pair, pairs_of};

/// Cargo in no more memory than a few times its text.
#[derive(Drop)]
pub(crate) enum Cargo {
    Bytes(Vec<u8>),
    /// One byte, so many times.
    Repeated(u8, u16),
}

fn repeated_of(high: u8, low: u8, digits: &[u8]) -> Option<Cargo>
    ensures { option_map cargo_bytes result ≡ repeated_of high low digits.now }
{
    let Some(byte) = hex_pair(high, low) else {
        return None;
    };
    let Some(times) = count_of(digits) else {
        return None;
    };
    Some(Cargo::Repeated(byte, times))
}

/// The cargo that a text without spaces spells: hexadecimal pairs in either case, of 1 to 4,096 bytes, or one pair, `*` and how
/// many times it stands, 1 to 4,096.
pub(crate) fn cargo_of(alloc: Global, text: &[u8]) -> Result<Option<Cargo>, AllocError>
    ensures { IfOk result (λ o. option_map cargo_bytes o ≡ bytes_of text.now) }
{
    if text.len() >= 3 && text[2] == b'*' {
        return Ok(repeated_of(text[0], text[1], &text[3..]));
    }
    match pairs_of(alloc, text)? {
        Some(bytes) => Ok(Some(Cargo::Bytes(bytes))),
        None => Ok(None),
    }
}
