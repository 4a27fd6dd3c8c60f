//! Numbers as words.
ghost use Rattle.std.specs.Prelude.{◌≡◌, ◌≤◌, ◌<◌, ◌^◌, IfSome};
ghost use Rattle.sw_app_rmap.specs.Words.{digits_of, number_of};

/// The number up to the limit that digits of this base write, one at least.
fn digits_of(digits: &[u8], base: u32, limit: u64) -> Option<u64>
    requires low { 2 ≤ base }
    requires high { base ≤ 36 }
    requires limit { limit < 2 ^ 40 }
    ensures value { result ≡ digits_of base limit digits.now }
    ensures within { IfSome result (λ n. n ≤ limit) }
{
    if digits.is_empty() {
        return None;
    }
    let mut value = 0;
    for c in digits {
        let digit = char::from(*c).to_digit(base)?;
        value = u64::from(base) * value + u64::from(digit);
        if value > limit {
            return None;
        }
    }
    Some(value)
}

/// The number up to the limit that the word writes: decimal digits, or `0x` and hexadecimal digits in either case.
pub(crate) fn number_of(word: &str, limit: u64) -> Option<u64>
    requires { limit < 2 ^ 40 }
    ensures value { result ≡ number_of limit word.now }
    ensures within { IfSome result (λ n. n ≤ limit) }
{
    let bytes = word.as_bytes();
    if bytes.starts_with(b"0x") {
        digits_of(&bytes[2..], 16, limit)
    } else {
        digits_of(bytes, 10, limit)
    }
}
