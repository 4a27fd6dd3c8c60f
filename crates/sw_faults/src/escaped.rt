//! Bytes that a terminal shows as they are.
ghost use Rattle.std.specs.Prelude.{◌≡◌, ◌++◌, IfOk, flat_map, string_bytes};
ghost use Rattle.sw_faults.specs.Shown.{shown, shown_byte};

use hex::encode_upper;
use std::alloc::{AllocError, Global};
use std::fmt::Write;

/// Adds a byte as it is shown.
fn add_shown(alloc: Global, byte: u8, text: &mut String) -> Result<(), AllocError>
    ensures { IfOk result (λ _. string_bytes text.new ≡ string_bytes text.old ++ shown_byte byte) }
{
    if byte >= 32 && byte < 127 {
        return text.push(char::from(byte));
    }
    let digits = encode_upper(alloc, [byte])?;
    write!(text, "\\x{digits}")
}

/// The bytes as a line of a terminal shows them: printable ASCII as it is, all else as `\xHH`.
///
/// # Errors
///
/// There is no memory for the text.
pub fn show(alloc: Global, bytes: &[u8]) -> Result<String, AllocError>
    ensures { IfOk result (λ s. string_bytes s ≡ shown bytes.now) }
{
    let mut text = String::new(alloc);
    for byte in bytes {
        add_shown(alloc, *byte, &mut text)?;
    }
    Ok(text)
}
