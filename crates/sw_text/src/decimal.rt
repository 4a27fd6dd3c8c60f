//! Decimal numbers.
ghost use Rattle.std.specs.Prelude.{◌≡◌, ◌<◌, ◌≤◌, ◌^◌, IfSome};
ghost use Rattle.sw_text.specs.Number.{goes_on, number_of};

/// The number that digits write, if it is at most the limit.
fn digits(bytes: &[u8], limit: u32) -> Option<u32>
    requires { limit < 2 ^ 24 }
    ensures exact { result ≡ goes_on limit 0 bytes.now }
    ensures within { IfSome result (λ n. n ≤ limit) }
{
    let mut value: u32 = 0;
    for c in bytes {
        if *c < b'0' || *c > b'9' {
            return None;
        }
        value = 10 * value + u32::from(*c - b'0');
        if value > limit {
            return None;
        }
    }
    Some(value)
}

/// The decimal number without leading zeros that the bytes are, if it is at most the limit.
pub fn number(bytes: &[u8], limit: u32) -> Option<u32>
    requires { limit < 2 ^ 24 }
    ensures exact { result ≡ number_of limit bytes.now }
    ensures within { IfSome result (λ n. n ≤ limit) }
{
    if bytes.is_empty() || (bytes[0] == b'0' && bytes.len() > 1) {
        return None;
    }
    digits(bytes, limit)
}
