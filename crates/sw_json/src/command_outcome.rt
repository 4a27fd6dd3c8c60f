//! What a command finds.
ghost use Rattle.std.specs.Prelude.{◌≡◌, ◌≤◌, false};
ghost use Rattle.serde_json.specs.Data.{depth};
ghost use Rattle.serde_json.specs.View.{view};
ghost use Rattle.serde_json.specs.Written.{has_float};

use serde_json::Value;

/// The result of a command, with the status that says what it is.
#[derive(Drop)]
pub struct CommandOutcome {
    /// What the answer has at `result`.
    pub result: Value,
    /// The status with which the program ends.
    pub status: u8,
    // So the answer round it has a text that reads back: values nest at most 127 deep there.
    ghost whole: { has_float (view result) ≡ false },
    ghost flat: { depth (view result) ≤ 125 },
}
