//! How many slots a target may have.
ghost use Rattle.std.specs.Prelude.{◌≡◌};
ghost use Rattle.sw_file.specs.Keys.{most_slots};

use sw_text::Version;

/// How many replies a target may owe at most: 8 or 64. Version 1 has no key for it.
pub fn most_slots(version: Version) -> u64
    ensures { result ≡ most_slots version }
{
    match version {
        Version::One | Version::Two => 8,
        Version::Three => 64,
    }
}
