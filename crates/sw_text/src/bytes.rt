//! A text is cut at a byte.
ghost use Rattle.std.specs.Prelude.{◌≡◌, ◌==◌, ◌<◌, ◌∷◌, [], IfNone, IfSome, length};
ghost use Rattle.std.specs.List.{slice_split};

/// What stands before the first such byte, and what stands after it; nothing where there is none.
pub fn cut<'a>(text: &'a [u8], byte: u8) -> Option<(&'a [u8], &'a [u8])>
    ensures cut { IfSome result (λ r. slice_split (λ b. b == byte) text.entry.now ≡ r.0.now ∷ slice_split (λ b. b == byte) r.1.now) }
    ensures shorter { IfSome result (λ r. length r.1.now < length text.entry.now) }
    ensures whole { IfNone result (slice_split (λ b. b == byte) text.entry.now ≡ text.entry.now ∷ []) }
{
    for end in 0..text.len() {
        if text[end] == byte {
            return Some((&text[..end], &text[end + 1..]));
        }
    }
    None
}
