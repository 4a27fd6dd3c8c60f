//! Laws of the text of certificates.
ghost use Rattle.std.specs.Prelude.{◌≡◌, ◌≤◌, ◌<◌, ◌^◌, ◌↔◌, ◌++◌, ℕ, List, Some};
ghost use Rattle.std.specs.Fmt.{decimal};
ghost use Rattle.sw_cert.specs.Grammar.{field};
ghost use Rattle.sw_cert.specs.Text.{OneSpelling};

/// A line of a word and a number is read exactly from its one spelling.
pub fn field_spelling()
    ensures { (word line : List ℕ) (limit n : ℕ) → limit < 2 ^ 24 → (field word limit line ≡ Some n) ↔ ((line ≡ word ++ decimal n) × (n ≤ limit)) }
{}

/// A text says a certificate's contents exactly where it is their one spelling.
pub fn one_text()
    ensures { OneSpelling }
{}
