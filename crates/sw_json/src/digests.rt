//! Digests of texts.
ghost use Rattle.std.specs.Prelude.{◌≡◌, IfOk, string_bytes};
ghost use Rattle.sw_json.specs.Simple.{digest_text};

use hex::encode;
use sha2::{Digest, Sha256};
use std::alloc::{AllocError, Global};

/// The SHA-256 of the bytes, as 64 hexadecimal digits with lower case letters.
///
/// # Errors
///
/// There is no memory for the text.
pub fn digest_text(alloc: Global, bytes: &[u8]) -> Result<String, AllocError>
    ensures { IfOk result (λ s. string_bytes s ≡ digest_text bytes.now) }
{
    encode(alloc, Sha256::digest(bytes))
}
