//! What a command finds of a network.
ghost use Rattle.std.specs.Prelude.{◌≡◌, ℕ};
ghost use Rattle.sw_config.specs.Entries.{Declaration};

/// What a command finds of a network.
pub trait Finding {
    ghost is_of: { Declaration → Self → Type 0 };

    ghost status_of: { Self → ℕ };

    /// The status with which the program ends that found it.
    fn status(&self) -> u8
        ensures { result ≡ status_of self.now };
}
