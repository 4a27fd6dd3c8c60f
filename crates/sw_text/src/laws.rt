//! Laws of numbers: the functions do nothing, and each is the proof of its clause.
ghost use Rattle.std.specs.Prelude.{◌≡◌, ◌≤◌, ◌<◌, ◌^◌, ◌↔◌, ℕ, List, Some};
ghost use Rattle.std.specs.Fmt.{decimal};
ghost use Rattle.sw_text.specs.Number.{number_of};

/// A number is read exactly from its one spelling.
pub fn one_spelling()
    ensures { (limit n : ℕ) (bytes : List ℕ) → limit < 2 ^ 24 → (number_of limit bytes ≡ Some n) ↔ ((bytes ≡ decimal n) × (n ≤ limit)) }
{}
