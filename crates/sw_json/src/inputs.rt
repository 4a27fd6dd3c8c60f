//! Files that a command was given, as values.
ghost use Rattle.std.specs.Prelude.{◌≡◌, IfOk};
ghost use Rattle.serde_json.specs.View.{view};
ghost use Rattle.sw_json.specs.AnswerValues.{input_value, long_input};

use crate::digests::digest_text;
use crate::objects::{Member, object_of};
use serde_json::Value;
use std::alloc::{AllocError, Global};

/// A file whose text was read.
///
/// # Errors
///
/// There is no memory for the value.
pub fn input_value(alloc: Global, path: &str, text: &[u8]) -> Result<Value, AllocError>
    ensures { IfOk result (λ v. view v ≡ input_value path.now text.now) }
{
    let digest = digest_text(alloc, text)?;
    let bytes = text.len();
    let members = vec![in alloc;
        ("bytes", Member::Number(bytes as u64)),
        ("path", Member::Text(path)),
        ("sha256", Member::Value(Value::String(digest))),
    ]?;
    object_of(alloc, members)
}

/// A file whose text is longer than a text may be.
///
/// # Errors
///
/// There is no memory for the value.
pub fn long_input(alloc: Global, path: &str) -> Result<Value, AllocError>
    ensures { IfOk result (λ v. view v ≡ long_input path.now) }
{
    let members = vec![in alloc;
        ("bytes", Member::Value(Value::Null)),
        ("path", Member::Text(path)),
        ("sha256", Member::Value(Value::Null)),
    ]?;
    object_of(alloc, members)
}
