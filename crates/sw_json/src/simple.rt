//! Simple values.
ghost use Rattle.std.specs.Prelude.{◌≡◌, option_map, string_bytes};
ghost use Rattle.serde_json.specs.View.{view};
ghost use Rattle.sw_json.specs.Simple.{count_or_null, text_or_null};

use serde_json::Value;

/// A number, or null where there is none.
pub fn count_or_null(count: Option<u64>) -> Value
    ensures { view result ≡ count_or_null count }
{
    match count {
        Some(count) => Value::from(count),
        None => Value::Null,
    }
}

/// A text, or null where there is none.
pub fn text_or_null(text: Option<String>) -> Value
    ensures { view result ≡ text_or_null (option_map string_bytes text) }
{
    match text {
        Some(text) => Value::String(text),
        None => Value::Null,
    }
}
