//! The text of a value.
ghost use Rattle.std.specs.Prelude.{◌≡◌, ◌≤◌, IfOk, false, string_bytes};
ghost use Rattle.serde_json.specs.Data.{depth};
ghost use Rattle.serde_json.specs.Read.{max_depth};
ghost use Rattle.serde_json.specs.View.{view};
ghost use Rattle.serde_json.specs.Written.{has_float};
ghost use Rattle.sw_json.specs.Texts.{ReadsBack, text_of};

use serde_json::Value;
use std::alloc::{AllocError, Global};

/// The text of a value without floats, in one line that LF ends.
///
/// # Errors
///
/// There is no memory for the text.
pub fn text_of(alloc: Global, value: &Value) -> Result<String, AllocError>
    requires { has_float (view value.now) ≡ false }
    ensures text { IfOk result (λ s. string_bytes s ≡ text_of (view value.now)) }
    ensures reads_back { depth (view value.now) ≤ max_depth → IfOk result (λ _. ReadsBack (view value.now)) }
{
    let mut text = value.to_string(alloc)?;
    text.push('\n')?;
    Ok(text)
}
