//! What a target answers by.

/// The configuration of an RMAP target.
#[derive(Clone, Copy)]
pub struct TargetConfig {
    /// The target logical address: 32 to 254 (ECSS-E-ST-50-52C, the fields of a command).
    pub logical: u8,
    /// The key that commands have to carry (ECSS-E-ST-50-52C, the fields of a command).
    pub key: u8,
    /// The first address of the window, below 2^40.
    pub start: u64,
    /// How many bytes the window has: 1 to 65536; `start + size` is at most 2^40.
    pub size: u32,
    /// How many replies the target may owe at once: 1 to 64.
    pub slots: u8,
}
