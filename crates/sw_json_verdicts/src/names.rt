//! The names of certificates that are kept.
ghost use Rattle.std.specs.Prelude.{◌≡◌, IfOk, map, string_bytes, take};
ghost use Rattle.sw_json_verdicts.specs.Names.{certificate_name, file_name, plain_byte};
ghost use Rattle.sw_text.specs.Names.{is_name_byte};

use std::alloc::{AllocError, Global};

/// At most this many bytes of a file's name stand in that of its certificate.
const MOST_NAMED: usize = 64;

/// What stands behind the last `/`.
fn file_name(path: &str) -> &str
    ensures { result.now ≡ file_name path.now }
{
    match path.rsplit_once('/') {
        Some((_, name)) => name,
        None => path,
    }
}

/// A byte that a name of a network file may have.
fn is_name_byte(byte: u8) -> bool
    ensures { result ≡ is_name_byte byte }
{
    matches!(byte, b'a'..=b'z' | b'A'..=b'Z' | b'0'..=b'9' | b'_' | b'-' | b'.')
}

fn plain_byte(byte: u8) -> u8
    ensures { result ≡ plain_byte byte }
{
    if is_name_byte(byte) { byte } else { b'_' }
}

/// The first bytes, as many as are told and as a name may have them.
fn plain_name(alloc: Global, name: &[u8]) -> Result<String, AllocError>
    ensures { IfOk result (λ s. string_bytes s ≡ map plain_byte (take 64 name.now)) }
{
    let mut text = String::new(alloc);
    for byte in &name[..MOST_NAMED.min(name.len())] {
        text.push(char::from(plain_byte(*byte)))?;
    }
    Ok(text)
}

/// The name of the certificate of a file, by the file's number and path.
///
/// # Errors
///
/// There is no memory for the name.
pub(crate) fn certificate_name(
    alloc: Global,
    number: usize,
    path: &str,
) -> Result<String, AllocError>
    ensures { IfOk result (λ s. string_bytes s ≡ certificate_name number path.now) }
{
    let name = plain_name(alloc, file_name(path).as_bytes())?;
    format!(in alloc; "{number}-{name}.cert")
}
