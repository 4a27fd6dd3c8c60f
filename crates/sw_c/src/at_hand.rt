//! A network file whose bytes are at hand, for an audit.
ghost use Rattle.std.specs.Prelude.{◌≡◌, IfOk, false};
ghost use Rattle.sw_json_verdicts.specs.Stores.{given_of};
ghost use Rattle.sw_c.specs.AtHand.{AreGiven};

use std::alloc::{AllocError, Global};
use sw_json_verdicts::{AuditInput, Storage};
use sw_text::MAX_TEXT;

/// The bytes of a file. Each path gives them, and no certificate is kept.
#[derive(Clone, Copy)]
pub(crate) struct AtHand<'a> {
    pub(crate) bytes: &'a [u8],
}

fn copy(alloc: Global, bytes: &[u8]) -> Result<Vec<u8>, AllocError>
    ensures { IfOk result (λ v. v.items ≡ bytes.now) }
{
    let mut all = Vec::new(alloc);
    all.extend_from_slice(bytes)?;
    Ok(all)
}

fn input_of(alloc: Global, bytes: &[u8]) -> AuditInput
    ensures { AreGiven bytes.now (given_of result) }
{
    if bytes.len() > MAX_TEXT {
        return AuditInput::TooLong;
    }
    match copy(alloc, bytes) {
        Ok(text) => AuditInput::Whole(text),
        Err(_) => AuditInput::NoMemory,
    }
}

impl Storage for AtHand<'_> {
    ghost gives = { λ self path given. AreGiven self.bytes.now given };

    ghost keeps = { λ self name certificate kept. kept ≡ false };

    fn read(&self, alloc: Global, _path: &str) -> AuditInput {
        input_of(alloc, self.bytes)
    }

    fn keep(&self, _alloc: Global, _name: &str, _certificate: &[u8]) -> bool {
        false
    }
}
