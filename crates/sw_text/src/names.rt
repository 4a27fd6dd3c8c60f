//! Texts that are kept.
ghost use Rattle.std.specs.Prelude.{◌≡◌};

use std::marker::Model;

/// A text that is kept: a clause sees its bytes.
#[derive(Debug, Drop)]
pub struct Name {
    pub(crate) text: String,
}

impl Model for Name {
    ghost use Rattle.std.specs.Prelude.{ℕ, List, string_bytes};

    ghost Value = { List ℕ };

    ghost view = { λ n. string_bytes n.text };
}

impl Name {
    /// The text.
    pub fn as_str(&self) -> &str
        ensures { result.now ≡ self.now }
    {
        self.text.as_str()
    }
}
