//! The cargo text of a load file.
ghost use Rattle.std.specs.Prelude.{◌≡◌, ◌<◌, ◌≤◌, [], IfOk, IfSome, option_map};
ghost use Rattle.sw_load.specs.Cargo.{hex_value, hex_pair, count_of, bytes_after, pairs_of, bytes_of};

use std::alloc::{AllocError, Global};

/// The most bytes that the text of a cargo may spell, in a load and in a schedule.
pub const MAX_CARGO: usize = 4096;

fn hex_value(c: u8) -> Option<u8>
    ensures value { result ≡ hex_value c }
    ensures small { IfSome result (λ v. v < 16) }
{
    match c {
        b'0'..=b'9' => Some(c - b'0'),
        b'A'..=b'F' => Some(c - b'A' + 10),
        b'a'..=b'f' => Some(c - b'a' + 10),
        _ => None,
    }
}

/// The byte that two hexadecimal digits write, in either case.
pub fn hex_pair(high: u8, low: u8) -> Option<u8>
    ensures { result ≡ hex_pair high low }
{
    let Some(high) = hex_value(high) else {
        return None;
    };
    let Some(low) = hex_value(low) else {
        return None;
    };
    Some(16 * high + low)
}

/// How many times a pair stands, 1 to 4,096, by the digits behind `*`.
pub fn count_of(text: &[u8]) -> Option<u16>
    ensures value { result ≡ count_of text.now }
    ensures few { IfSome result (λ n. n ≤ 4096) }
{
    let length = text.len();
    if length == 0 {
        return None;
    }
    if text[0] == b'0' {
        return None;
    }
    let mut value: u16 = 0;
    for c in text {
        if *c < b'0' || *c > b'9' {
            return None;
        }
        value = 10 * value + u16::from(*c - b'0');
        if value > MAX_CARGO as u16 {
            return None;
        }
    }
    Some(value)
}

/// The bytes whose pairs the text is.
fn pairs(alloc: Global, text: &[u8]) -> Result<Option<Vec<u8>>, AllocError>
    ensures { IfOk result (λ o. option_map (λ v. v.items) o ≡ bytes_after [] text.now) }
{
    let mut bytes = Vec::new(alloc);
    let mut begun = None;
    for c in text {
        let Some(high) = begun else {
            begun = Some(*c);
            continue;
        };
        let Some(byte) = hex_pair(high, *c) else {
            return Ok(None);
        };
        bytes.push(byte)?;
        begun = None;
    }
    match begun {
        None => Ok(Some(bytes)),
        Some(_) => Ok(None),
    }
}

/// The bytes whose pairs the text is: 1 to 4,096 of them, each two hexadecimal digits.
///
/// # Errors
///
/// There is no memory for the bytes.
pub fn pairs_of(alloc: Global, text: &[u8]) -> Result<Option<Vec<u8>>, AllocError>
    ensures { IfOk result (λ o. option_map (λ v. v.items) o ≡ pairs_of text.now) }
{
    match pairs(alloc, text)? {
        Some(bytes) if !bytes.is_empty() && bytes.len() <= MAX_CARGO => Ok(Some(bytes)),
        _ => Ok(None),
    }
}

/// The bytes that a text without spaces spells: hexadecimal pairs in either case, of 1 to 4,096 bytes, or one
/// pair, `*` and how many times it stands, 1 to 4,096.
pub(crate) fn bytes_of(alloc: Global, text: &[u8]) -> Result<Option<Vec<u8>>, AllocError>
    ensures { IfOk result (λ o. option_map (λ v. v.items) o ≡ bytes_of text.now) }
{
    if text.len() >= 3 && text[2] == b'*' {
        let Some(byte) = hex_pair(text[0], text[1]) else {
            return Ok(None);
        };
        let Some(count) = count_of(&text[3..]) else {
            return Ok(None);
        };
        Ok(Some(vec![in alloc; byte; count as usize]?))
    } else {
        pairs_of(alloc, text)
    }
}
